//! Annotations: asserts (ACSL 2.4.1), clauses of a loop (ACSL 2.4.2), or the contract of a function (ACSL 2.3).

ghost use Rattle.std.specs.Prelude.{map};
ghost use Rattle.c_syntax.specs.Logic.{plain_annot};
ghost use Rattle.c_model.specs.ClauseGrammar.{asserts, clauses, annotations};
ghost use Rattle.acsl_parser.specs.Reading.{plain_read};
ghost use Rattle.token_reader.specs.Reading.{Gives, plain_list};

use crate::clause::{ClausesRead, more_clauses, next_clause};
use crate::clause_words::{LOOP, next_is_in, next_is_word};
use crate::contract::contract;
use crate::loop_clauses::loop_clauses;
use crate::readings::ReadAnnotation;
use c_expr_parser::kinds::{ANNOT_CLOSE, ANNOT_OPEN};
use c_expr_parser::terminals::{kept, skip};
use c_model::formulas::ClauseGroup;
use c_model::vocabulary::Word;
use c_syntax::Token;
use c_syntax::fault::ReadFault;
use std::alloc::Global;

/// What was read, with the number of the next clause.
pub type AnnotationRead<'a> = Result<(ReadAnnotation, u32, &'a [Token]), ReadFault>;

/// Asserts, which take the numbers from this one on and give the one after.
#[tactic(auto, unfolding(c_model::specs::ClauseGrammar::asserts))]
fn asserts<'a>(alloc: Global, words: &[Word], number: u32, tokens: &'a [Token]) -> ClausesRead<'a>
    ensures { Gives (λ x. ((map plain_annot x.0.items, x.1), plain_list x.2.now)) result ((asserts words.now number).parse (plain_list tokens.now)) }
{
    let group = ClauseGroup::Asserts;
    let (all, number, rest) = next_clause(alloc, words, group, Vec::new(alloc), number, tokens)?;
    more_clauses(alloc, words, group, all, number, rest)
}

/// What stands in an annotation.
#[tactic(auto, unfolding(c_model::specs::ClauseGrammar::clauses))]
fn clauses<'a>(
    alloc: Global,
    words: &[Word],
    number: u32,
    tokens: &'a [Token],
) -> AnnotationRead<'a>
    ensures { Gives (λ x. ((plain_read x.0, x.1), plain_list x.2.now)) result ((clauses words.now number).parse (plain_list tokens.now)) }
{
    if next_is_in(words, ClauseGroup::Asserts, tokens) {
        let (all, number, rest) = asserts(alloc, words, number, tokens)?;
        Ok((ReadAnnotation::Asserts(all), number, rest))
    } else if next_is_word(words, LOOP, tokens) {
        let (all, number, rest) = loop_clauses(alloc, words, number, tokens)?;
        Ok((ReadAnnotation::Loop(all), number, rest))
    } else {
        let (read, number, rest) = contract(alloc, words, number, tokens)?;
        Ok((ReadAnnotation::Contract(read), number, rest))
    }
}

/// An annotation, whose clauses take the numbers from this one on; with them it gives the number after.
#[tactic(auto, unfolding(c_model::specs::ClauseGrammar::annotations))]
pub fn annotations<'a>(
    alloc: Global,
    words: &[Word],
    number: u32,
    tokens: &'a [Token],
) -> AnnotationRead<'a>
    ensures { Gives (λ x. ((plain_read x.0, x.1), plain_list x.2.now)) result ((annotations words.now number).parse (plain_list tokens.now)) }
{
    let (_, rest) = skip(words, ANNOT_OPEN, tokens)?;
    let (read, number, rest) = clauses(alloc, words, number, rest)?;
    let (read, (_, rest)) = kept(read, skip(words, ANNOT_CLOSE, rest))?;
    Ok((read, number, rest))
}
