//! Clauses that say a form (ACSL 2.3.1, 2.4.1), and those that are passed over, within the limit of their tokens.

ghost use Rattle.std.specs.Prelude.{◌≡◌, ◌≤◌, ◌<◌, length, map, IfOk, [], ◌∷◌};
ghost use Rattle.grammar.specs.Syntax.{sees, one};
ghost use Rattle.c_syntax.specs.Tokens.{plain_token_kind};
ghost use Rattle.c_syntax.specs.Logic.{plain_annot};
ghost use Rattle.c_model.specs.ClauseGrammar.{form_clause, full_clause, next_clause, more_clauses};
ghost use Rattle.c_model.specs.ClauseGrammar.{passed_kind, passes, passed, assigns, full_assigns, next_own, more_owns};
ghost use Rattle.acsl_parser.specs.Reading.{passed_over};
ghost use Rattle.token_reader.specs.Reading.{Gives, plain_list};

use crate::clause_words::{
    ASSIGNS, clause_kind_in, fixed_word, next_is_in, next_is_own, next_is_word,
};
use crate::formula::form;
use c_expr_parser::full::{MOST, behind, passed, resumed, window};
use c_expr_parser::kinds::SEMICOLON;
use c_expr_parser::terminals::{kept, skip};
use c_model::formulas::ClauseGroup;
use c_model::punctuator;
use c_model::vocabulary::Word;
use c_syntax::fault::ReadFault;
use c_syntax::logic::{Annot, Body};
use c_syntax::{Place, Token, TokenKind};
use std::alloc::Global;
use token_reader::terminals::left;

/// Clauses that were read, with the number of the next one.
pub type ClausesRead<'a> = Result<(Vec<Annot>, u32, &'a [Token]), ReadFault>;

/// `word form ";"`, with this number.
#[tactic(auto, unfolding(c_model::specs::ClauseGrammar::form_clause))]
pub fn form_clause<'a>(
    alloc: Global,
    words: &[Word],
    group: ClauseGroup,
    number: u32,
    tokens: &'a [Token],
) -> Result<(Annot, &'a [Token]), ReadFault>
    ensures read { Gives (λ x. (plain_annot x.0, plain_list x.1.now)) result ((form_clause words.now group number).parse (plain_list tokens.now)) }
    ensures shorter { IfOk result (λ x. length x.1.now < length tokens.now) }
{
    let (kind, place, rest) = clause_kind_in(words, group, tokens)?;
    let (f, rest) = form(alloc, words, rest)?;
    let (f, (_, rest)) = kept(f, skip(words, SEMICOLON, rest))?;
    let clause = Annot {
        number,
        kind,
        place,
        body: Body::Raw(f),
    };
    Ok((clause, rest))
}

/// The same, within the limit of its tokens.
#[tactic(auto, using(crate::proofs::Clauses::full_clause_rules))]
pub fn full_clause<'a>(
    alloc: Global,
    words: &[Word],
    group: ClauseGroup,
    number: u32,
    tokens: &'a [Token],
) -> Result<(Annot, &'a [Token]), ReadFault>
    ensures { Gives (λ x. (plain_annot x.0, plain_list x.1.now)) result ((full_clause words.now group number).parse (plain_list tokens.now)) }
{
    if tokens.len() <= MOST {
        return form_clause(alloc, words, group, number, tokens);
    }
    match form_clause(alloc, words, group, number, window(tokens, MOST)) {
        Ok((clause, rest)) => match rest.len() {
            0 => Err(passed(tokens.len(), MOST)),
            left => Ok((clause, behind(tokens, MOST, left))),
        },
        Err(fault) => Err(resumed(fault, tokens.len(), MOST)),
    }
}

/// A clause after others, with the number of the next one. Of more than 2^32 - 2 there is no number: then memory runs out.
#[tactic(auto, unfolding(c_model::specs::ClauseGrammar::next_clause))]
pub fn next_clause<'a>(
    alloc: Global,
    words: &[Word],
    group: ClauseGroup,
    all: Vec<Annot>,
    number: u32,
    tokens: &'a [Token],
) -> ClausesRead<'a>
    ensures { Gives (λ x. ((map plain_annot x.0.items, x.1), plain_list x.2.now)) result
        ((next_clause words.now group (map plain_annot all.items, number)).parse (plain_list tokens.now)) }
{
    let mut all = all;
    if number == u32::MAX {
        return Err(ReadFault::Memory);
    }
    let (clause, rest) = full_clause(alloc, words, group, number, tokens)?;
    all.push(clause)?;
    Ok((all, number + 1, rest))
}

/// Whether a token comes next that is passed over.
fn next_passes(tokens: &[Token]) -> bool
    ensures { result ≡ sees passed_kind (1 ∷ []) (plain_list tokens.now) }
{
    match tokens {
        [] => false,
        [token, ..] => passes(&token.kind),
    }
}

/// Whether a token is neither `;` nor the end of the annotation.
fn passes(kind: &TokenKind) -> bool
    ensures { result ≡ passes (plain_token_kind kind.now) }
{
    match kind {
        TokenKind::Mark(mark) => *mark != punctuator::SEMICOLON,
        TokenKind::AnnotClose => false,
        _ => true,
    }
}

/// A token that is passed over.
fn passed_token(tokens: &[Token]) -> Result<&[Token], ReadFault>
    ensures read { Gives (λ x. (tt {0}, plain_list x.now)) result ((one passed).parse (plain_list tokens.now)) }
    ensures shorter { IfOk result (λ x. length x.now < length tokens.now) }
{
    match tokens {
        [] => Err(ReadFault::At(0)),
        [token, rest @ ..] => {
            if passes(&token.kind) {
                Ok(rest)
            } else {
                Err(ReadFault::At(left(tokens)))
            }
        }
    }
}

/// Any number of them.
#[tactic(auto, using(crate::proofs::Turns::passed_rules))]
fn passed_over(tokens: &[Token]) -> Result<&[Token], ReadFault>
    ensures read { Gives (λ x. (tt {0}, plain_list x.now)) result (passed_over.parse (plain_list tokens.now)) }
    ensures shorter { IfOk result (λ x. length x.now ≤ length tokens.now) }
{
    let mut rest = tokens;
    'turn: while next_passes(rest) {
        rest = passed_token(rest)?;
    }
    Ok(rest)
}

/// `"assigns" { any token but ";" } ";"`, by the place of its first word.
#[tactic(auto, unfolding(c_model::specs::ClauseGrammar::assigns, crate::specs::Reading::passed_over))]
pub fn assigns<'a>(words: &[Word], tokens: &'a [Token]) -> Result<(Place, &'a [Token]), ReadFault>
    ensures read { Gives (λ x. (x.0, plain_list x.1.now)) result ((assigns words.now).parse (plain_list tokens.now)) }
    ensures shorter { IfOk result (λ x. length x.1.now < length tokens.now) }
{
    let (place, rest) = fixed_word(words, ASSIGNS, tokens)?;
    let rest = passed_over(rest)?;
    let (_, rest) = skip(words, SEMICOLON, rest)?;
    Ok((place, rest))
}

/// The same, within the limit of its tokens.
#[tactic(auto, using(crate::proofs::Clauses::full_assigns_rules))]
pub fn full_assigns<'a>(
    words: &[Word],
    tokens: &'a [Token],
) -> Result<(Place, &'a [Token]), ReadFault>
    ensures { Gives (λ x. (x.0, plain_list x.1.now)) result ((full_assigns words.now).parse (plain_list tokens.now)) }
{
    if tokens.len() <= MOST {
        return assigns(words, tokens);
    }
    match assigns(words, window(tokens, MOST)) {
        Ok((place, rest)) => match rest.len() {
            0 => Err(passed(tokens.len(), MOST)),
            left => Ok((place, behind(tokens, MOST, left))),
        },
        Err(fault) => Err(resumed(fault, tokens.len(), MOST)),
    }
}

/// A clause of a contract or of a behavior after others, or what is passed over.
#[tactic(auto, unfolding(c_model::specs::ClauseGrammar::next_own))]
fn next_own<'a>(
    alloc: Global,
    words: &[Word],
    group: ClauseGroup,
    all: Vec<Annot>,
    number: u32,
    tokens: &'a [Token],
) -> ClausesRead<'a>
    ensures { Gives (λ x. ((map plain_annot x.0.items, x.1), plain_list x.2.now)) result
        ((next_own words.now group (map plain_annot all.items, number)).parse (plain_list tokens.now)) }
{
    if next_is_word(words, ASSIGNS, tokens) {
        let (all, (_, rest)) = kept(all, full_assigns(words, tokens))?;
        Ok((all, number, rest))
    } else {
        next_clause(alloc, words, group, all, number, tokens)
    }
}

/// Any number of them.
#[tactic(auto, using(crate::proofs::Turns::owns_rules))]
pub fn more_owns<'a>(
    alloc: Global,
    words: &[Word],
    group: ClauseGroup,
    all: Vec<Annot>,
    number: u32,
    tokens: &'a [Token],
) -> ClausesRead<'a>
    ensures { Gives (λ x. ((map plain_annot x.0.items, x.1), plain_list x.2.now)) result
        ((more_owns words.now group (map plain_annot all.items, number)).parse (plain_list tokens.now)) }
{
    let mut all = all;
    let mut number = number;
    let mut rest = tokens;
    'turn: while next_is_own(words, group, rest) {
        let (more, next, after) = next_own(alloc, words, group, all, number, rest)?;
        all = more;
        number = next;
        rest = after;
    }
    Ok((all, number, rest))
}

/// The clauses of the group after those that are read.
#[tactic(auto, using(crate::proofs::Turns::clauses_rules))]
pub fn more_clauses<'a>(
    alloc: Global,
    words: &[Word],
    group: ClauseGroup,
    all: Vec<Annot>,
    number: u32,
    tokens: &'a [Token],
) -> ClausesRead<'a>
    ensures { Gives (λ x. ((map plain_annot x.0.items, x.1), plain_list x.2.now)) result
        ((more_clauses words.now group (map plain_annot all.items, number)).parse (plain_list tokens.now)) }
{
    let mut all = all;
    let mut number = number;
    let mut rest = tokens;
    'turn: while next_is_in(words, group, rest) {
        let (more, next, after) = next_clause(alloc, words, group, all, number, rest)?;
        all = more;
        number = next;
        rest = after;
    }
    Ok((all, number, rest))
}
