//! Clauses of loops (ACSL 2.4.2).

ghost use Rattle.std.specs.Prelude.{◌≡◌, ◌<◌, ◌^◌, ◌-◌, length, map, option_map, IfOk};
ghost use Rattle.c_syntax.specs.Logic.{plain_annot};
ghost use Rattle.c_model.specs.ClauseGrammar.{is_variant, has_variant, again_with, with_loop_clause, looped, loop_assigns, loop_clause, full_loop_clause};
ghost use Rattle.c_model.specs.ClauseGrammar.{next_loop_clause, more_loop_clauses, loop_clauses};
ghost use Rattle.acsl_parser.specs.Reading.{plain_loop, plain_placed};
ghost use Rattle.token_reader.specs.Reading.{Gives, plain_list};

use crate::clause::{assigns, form_clause};
use crate::clause_words::{ASSIGNS, LOOP, fixed_word, next_is_word};
use crate::readings::LoopAnnotation;
use c_expr_parser::full::{MOST, behind, passed, resumed, window};
use c_expr_parser::terminals::kept;
use c_model::formulas::ClauseGroup;
use c_model::vocabulary::Word;
use c_syntax::fault::ReadFault;
use c_syntax::logic::Annot;
use c_syntax::{Kind, Place, Token};
use std::alloc::{AllocError, Global};

/// A clause that was read, or `None` where it is passed over, at the place of its first word.
pub type PlacedClause = (Place, Option<Annot>);

/// Clauses of a loop that were read, with the number of the next one.
pub type LoopRead<'a> = Result<(LoopAnnotation, u32, &'a [Token]), ReadFault>;

fn is_variant(clause: &Annot) -> bool
    ensures { result ≡ is_variant (plain_annot clause.now) }
{
    match clause.kind {
        Kind::Variant => true,
        _ => false,
    }
}

fn has_variant(clauses: &[Annot]) -> bool
    ensures { result ≡ has_variant (map plain_annot clauses.now) }
{
    let mut rest = clauses;
    'turn: while let [clause, after @ ..] = rest {
        if is_variant(clause) {
            return true;
        }
        rest = after;
    }
    false
}

/// The place of the first variant behind another one, with one more clause.
fn again_with(all: &LoopAnnotation, clause: &Annot) -> Option<Place>
    ensures { result ≡ again_with (plain_loop all.now) (plain_annot clause.now) }
{
    match all.again {
        Some(place) => Some(place),
        None => {
            if is_variant(clause) && has_variant(all.clauses.as_slice()) {
                Some(clause.place)
            } else {
                None
            }
        }
    }
}

/// The clauses with one more, which may be passed over, and the number after it.
fn with_loop_clause(
    all: LoopAnnotation,
    number: u32,
    clause: Option<Annot>,
) -> Result<(LoopAnnotation, u32), AllocError>
    requires { number < 2 ^ 32 - 1 }
    ensures { IfOk result (λ x. (plain_loop x.0, x.1) ≡ with_loop_clause (plain_loop all, number) (option_map plain_annot clause)) }
{
    let mut all = all;
    match clause {
        None => Ok((all, number)),
        Some(clause) => {
            all.again = again_with(&all, &clause);
            all.clauses.push(clause)?;
            Ok((all, number + 1))
        }
    }
}

/// `( "invariant" | "variant" ) form ";"`, with this number, behind `loop` at this place.
#[tactic(auto, unfolding(c_model::specs::ClauseGrammar::looped))]
fn looped<'a>(
    alloc: Global,
    words: &[Word],
    place: Place,
    number: u32,
    tokens: &'a [Token],
) -> Result<(PlacedClause, &'a [Token]), ReadFault>
    ensures read { Gives (λ x. (plain_placed x.0, plain_list x.1.now)) result ((looped words.now place number).parse (plain_list tokens.now)) }
    ensures shorter { IfOk result (λ x. length x.1.now < length tokens.now) }
{
    let (clause, rest) = form_clause(alloc, words, ClauseGroup::Loop, number, tokens)?;
    let mut clause = clause;
    clause.place = place;
    Ok(((place, Some(clause)), rest))
}

/// What is passed over, behind `loop` at this place.
#[tactic(auto, unfolding(c_model::specs::ClauseGrammar::loop_assigns))]
fn loop_assigns<'a>(
    words: &[Word],
    place: Place,
    tokens: &'a [Token],
) -> Result<(PlacedClause, &'a [Token]), ReadFault>
    ensures read { Gives (λ x. (plain_placed x.0, plain_list x.1.now)) result ((loop_assigns words.now place).parse (plain_list tokens.now)) }
    ensures shorter { IfOk result (λ x. length x.1.now < length tokens.now) }
{
    let (_, rest) = assigns(words, tokens)?;
    Ok(((place, None), rest))
}

/// `"loop" ( ( "invariant" | "variant" ) form ";" | assigns )`, with this number.
#[tactic(auto, unfolding(c_model::specs::ClauseGrammar::loop_clause))]
fn loop_clause<'a>(
    alloc: Global,
    words: &[Word],
    number: u32,
    tokens: &'a [Token],
) -> Result<(PlacedClause, &'a [Token]), ReadFault>
    ensures read { Gives (λ x. (plain_placed x.0, plain_list x.1.now)) result ((loop_clause words.now number).parse (plain_list tokens.now)) }
    ensures shorter { IfOk result (λ x. length x.1.now < length tokens.now) }
{
    let (place, rest) = fixed_word(words, LOOP, tokens)?;
    if next_is_word(words, ASSIGNS, rest) {
        loop_assigns(words, place, rest)
    } else {
        looped(alloc, words, place, number, rest)
    }
}

/// The same, within the limit of its tokens.
#[tactic(auto, using(crate::proofs::Clauses::full_loop_clause_rules))]
fn full_loop_clause<'a>(
    alloc: Global,
    words: &[Word],
    number: u32,
    tokens: &'a [Token],
) -> Result<(PlacedClause, &'a [Token]), ReadFault>
    ensures { Gives (λ x. (plain_placed x.0, plain_list x.1.now)) result ((full_loop_clause words.now number).parse (plain_list tokens.now)) }
{
    if tokens.len() <= MOST {
        return loop_clause(alloc, words, number, tokens);
    }
    match loop_clause(alloc, words, number, window(tokens, MOST)) {
        Ok((clause, rest)) => match rest.len() {
            0 => Err(passed(tokens.len(), MOST)),
            left => Ok((clause, behind(tokens, MOST, left))),
        },
        Err(fault) => Err(resumed(fault, tokens.len(), MOST)),
    }
}

/// A clause after others, with the number of the next one. Of more than 2^32 - 2 there is no number: then memory runs out.
#[tactic(auto, unfolding(c_model::specs::ClauseGrammar::next_loop_clause))]
fn next_loop_clause<'a>(
    alloc: Global,
    words: &[Word],
    all: LoopAnnotation,
    number: u32,
    tokens: &'a [Token],
) -> LoopRead<'a>
    ensures { Gives (λ x. ((plain_loop x.0, x.1), plain_list x.2.now)) result
        ((next_loop_clause words.now (plain_loop all, number)).parse (plain_list tokens.now)) }
{
    if number == u32::MAX {
        return Err(ReadFault::Memory);
    }
    let (all, ((_, clause), rest)) = kept(all, full_loop_clause(alloc, words, number, tokens))?;
    let (all, number) = with_loop_clause(all, number, clause)?;
    Ok((all, number, rest))
}

/// The clauses of a loop after those that are read.
#[tactic(auto, using(crate::proofs::Turns::loops_rules))]
fn more_loop_clauses<'a>(
    alloc: Global,
    words: &[Word],
    all: LoopAnnotation,
    number: u32,
    tokens: &'a [Token],
) -> LoopRead<'a>
    ensures { Gives (λ x. ((plain_loop x.0, x.1), plain_list x.2.now)) result
        ((more_loop_clauses words.now (plain_loop all, number)).parse (plain_list tokens.now)) }
{
    let mut all = all;
    let mut number = number;
    let mut rest = tokens;
    'turn: while next_is_word(words, LOOP, rest) {
        let (more, next, after) = next_loop_clause(alloc, words, all, number, rest)?;
        all = more;
        number = next;
        rest = after;
    }
    Ok((all, number, rest))
}

/// Clauses of a loop, which take the numbers from this one on and give the one after.
#[tactic(auto, unfolding(c_model::specs::ClauseGrammar::loop_clauses))]
pub fn loop_clauses<'a>(
    alloc: Global,
    words: &[Word],
    number: u32,
    tokens: &'a [Token],
) -> LoopRead<'a>
    ensures { Gives (λ x. ((plain_loop x.0, x.1), plain_list x.2.now)) result ((loop_clauses words.now number).parse (plain_list tokens.now)) }
{
    if number == u32::MAX {
        return Err(ReadFault::Memory);
    }
    let ((place, clause), rest) = full_loop_clause(alloc, words, number, tokens)?;
    let none = LoopAnnotation {
        place,
        clauses: Vec::new(alloc),
        again: None,
    };
    let (all, number) = with_loop_clause(none, number, clause)?;
    more_loop_clauses(alloc, words, all, number, rest)
}
