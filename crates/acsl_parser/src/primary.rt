//! Terms at labels (ACSL 2.4.3); what is told of blocks and asked about zones (ACSL 2.7).

ghost use Rattle.std.specs.Prelude.{◌≤◌, ◌<◌, length, map, IfOk};
ghost use Rattle.c_syntax.specs.Formulas.{plain_form, plain_form_zone};
ghost use Rattle.c_model.specs.AnnotationGrammar.{old_form, labelled_form, asked_form, told_form, next_zone, some_zones, separated_form, worded, form};
ghost use Rattle.acsl_parser.specs.Reading.{any_zone, more_zones};
ghost use Rattle.token_reader.specs.Reading.{Gives, plain_list};

use crate::atoms::{atom, closed};
use crate::formula::{form, zone};
use crate::parts::zones_of;
use crate::span::Read;
use crate::terminals::{fact, formula_name, next_is, question};
use c_expr_parser::kinds::{AT, COMMA, FACT, LEFT_PAREN, OLD, QUESTION_WORD, SEPARATED};
use c_expr_parser::terminals::{kept, skip};
use c_model::vocabulary::Word;
use c_syntax::Token;
use c_syntax::logic::{Formula, FormulaKind, FormulaZone};
use std::alloc::Global;

/// A form at the beginning of the call.
#[tactic(auto, unfolding(c_model::specs::AnnotationGrammar::old_form))]
#[cycle(formula)]
fn old_form<'a>(alloc: Global, words: &[Word], tokens: &'a [Token]) -> Read<'a, Formula>
    ensures read { Gives (λ x. (plain_form x.0, plain_list x.1.now)) result ((old_form words.now (form words.now)).parse (plain_list tokens.now)) }
    ensures shorter { IfOk result (λ x. length x.1.now < length tokens.now) }
{
    let (place, rest) = skip(words, OLD, tokens)?;
    let (_, rest) = skip(words, LEFT_PAREN, rest)?;
    let (x, rest) = form(alloc, words, rest)?;
    closed(alloc, words, place, FormulaKind::Old(x), rest)
}

/// A form at a label.
#[tactic(auto, unfolding(c_model::specs::AnnotationGrammar::labelled_form))]
#[cycle(formula)]
fn labelled_form<'a>(alloc: Global, words: &[Word], tokens: &'a [Token]) -> Read<'a, Formula>
    ensures read { Gives (λ x. (plain_form x.0, plain_list x.1.now)) result ((labelled_form words.now (form words.now)).parse (plain_list tokens.now)) }
    ensures shorter { IfOk result (λ x. length x.1.now < length tokens.now) }
{
    let (place, rest) = skip(words, AT, tokens)?;
    let (_, rest) = skip(words, LEFT_PAREN, rest)?;
    let (x, rest) = form(alloc, words, rest)?;
    let (x, (_, rest)) = kept(x, skip(words, COMMA, rest))?;
    let (x, (name, at, rest)) = kept(x, formula_name(words, rest))?;
    closed(alloc, words, place, FormulaKind::At(x, at, name), rest)
}

/// What is told of a pointer's block.
#[tactic(auto, unfolding(c_model::specs::AnnotationGrammar::told_form))]
#[cycle(formula)]
fn told_form<'a>(alloc: Global, words: &[Word], tokens: &'a [Token]) -> Read<'a, Formula>
    ensures read { Gives (λ x. (plain_form x.0, plain_list x.1.now)) result ((told_form words.now (form words.now)).parse (plain_list tokens.now)) }
    ensures shorter { IfOk result (λ x. length x.1.now < length tokens.now) }
{
    let (told, place, rest) = fact(words, tokens)?;
    let (_, rest) = skip(words, LEFT_PAREN, rest)?;
    let (x, rest) = form(alloc, words, rest)?;
    closed(alloc, words, place, FormulaKind::Told(told, x), rest)
}

/// What is asked about a zone.
#[tactic(auto, unfolding(c_model::specs::AnnotationGrammar::asked_form))]
#[cycle(formula)]
fn asked_form<'a>(alloc: Global, words: &[Word], tokens: &'a [Token]) -> Read<'a, Formula>
    ensures read { Gives (λ x. (plain_form x.0, plain_list x.1.now)) result ((asked_form words.now (any_zone words.now)).parse (plain_list tokens.now)) }
    ensures shorter { IfOk result (λ x. length x.1.now < length tokens.now) }
{
    let (asked, place, rest) = question(words, tokens)?;
    let (_, rest) = skip(words, LEFT_PAREN, rest)?;
    let (z, rest) = zone(alloc, words, rest)?;
    closed(alloc, words, place, FormulaKind::Asks(asked, z), rest)
}

/// `"," zone`, after others.
#[tactic(auto, unfolding(c_model::specs::AnnotationGrammar::next_zone))]
#[cycle(formula)]
fn next_zone<'a>(
    alloc: Global,
    words: &[Word],
    all: Vec<FormulaZone>,
    tokens: &'a [Token],
) -> Read<'a, Vec<FormulaZone>>
    ensures read { Gives (λ x. (map plain_form_zone x.0.items, plain_list x.1.now)) result
        ((next_zone words.now (any_zone words.now) (map plain_form_zone all.items)).parse (plain_list tokens.now)) }
    ensures shorter { IfOk result (λ x. length x.1.now < length tokens.now) }
{
    let (all, (_, rest)) = kept(all, skip(words, COMMA, tokens))?;
    let (mut all, (z, rest)) = kept(all, zone(alloc, words, rest))?;
    all.push(z)?;
    Ok((all, rest))
}

/// More zones, each behind a comma.
#[tactic(auto, using(crate::proofs::Turns::zones_rules))]
#[cycle(formula)]
fn more_zones<'a>(
    alloc: Global,
    words: &[Word],
    all: Vec<FormulaZone>,
    tokens: &'a [Token],
) -> Read<'a, Vec<FormulaZone>>
    ensures read { Gives (λ x. (map plain_form_zone x.0.items, plain_list x.1.now)) result
        ((more_zones words.now (map plain_form_zone all.items)).parse (plain_list tokens.now)) }
    ensures shorter { IfOk result (λ x. length x.1.now ≤ length tokens.now) }
{
    let mut all = all;
    let mut rest = tokens;
    'turn: while next_is(words, COMMA, rest) {
        let (more, after) = next_zone(alloc, words, all, rest)?;
        all = more;
        rest = after;
    }
    Ok((all, rest))
}

/// Two zones or more.
#[tactic(auto, unfolding(c_model::specs::AnnotationGrammar::some_zones, crate::specs::Reading::more_zones))]
#[cycle(formula)]
fn some_zones<'a>(alloc: Global, words: &[Word], tokens: &'a [Token]) -> Read<'a, Vec<FormulaZone>>
    ensures read { Gives (λ x. (map plain_form_zone x.0.items, plain_list x.1.now)) result
        ((some_zones words.now (any_zone words.now)).parse (plain_list tokens.now)) }
    ensures shorter { IfOk result (λ x. length x.1.now < length tokens.now) }
{
    let (first, rest) = zone(alloc, words, tokens)?;
    let (all, rest) = next_zone(alloc, words, vec![in alloc; first]?, rest)?;
    more_zones(alloc, words, all, rest)
}

/// `\separated` and its zones.
#[tactic(auto, unfolding(c_model::specs::AnnotationGrammar::separated_form))]
#[cycle(formula)]
fn separated_form<'a>(alloc: Global, words: &[Word], tokens: &'a [Token]) -> Read<'a, Formula>
    ensures read { Gives (λ x. (plain_form x.0, plain_list x.1.now)) result ((separated_form words.now (any_zone words.now)).parse (plain_list tokens.now)) }
    ensures shorter { IfOk result (λ x. length x.1.now < length tokens.now) }
{
    let (place, rest) = skip(words, SEPARATED, tokens)?;
    let (_, rest) = skip(words, LEFT_PAREN, rest)?;
    let (all, rest) = some_zones(alloc, words, rest)?;
    closed(
        alloc,
        words,
        place,
        FormulaKind::Separated(zones_of(alloc, all)?),
        rest,
    )
}

/// A primary form that begins with no parenthesis.
#[tactic(auto, unfolding(c_model::specs::AnnotationGrammar::worded))]
#[cycle(formula)]
pub fn worded<'a>(alloc: Global, words: &[Word], tokens: &'a [Token]) -> Read<'a, Formula>
    ensures read { Gives (λ x. (plain_form x.0, plain_list x.1.now)) result
        ((worded words.now (form words.now) (any_zone words.now)).parse (plain_list tokens.now)) }
    ensures shorter { IfOk result (λ x. length x.1.now < length tokens.now) }
{
    if next_is(words, FACT, tokens) {
        told_form(alloc, words, tokens)
    } else if next_is(words, QUESTION_WORD, tokens) {
        asked_form(alloc, words, tokens)
    } else if next_is(words, SEPARATED, tokens) {
        separated_form(alloc, words, tokens)
    } else if next_is(words, OLD, tokens) {
        old_form(alloc, words, tokens)
    } else if next_is(words, AT, tokens) {
        labelled_form(alloc, words, tokens)
    } else {
        atom(alloc, words, tokens)
    }
}
