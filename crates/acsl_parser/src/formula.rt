//! Forms and zones (ACSL 2.2, 2.7).

ghost use Rattle.std.specs.Prelude.{◌≤◌, ◌<◌, length, option_map, IfOk};
ghost use Rattle.c_syntax.specs.Formulas.{plain_form, plain_form_zone};
ghost use Rattle.c_model.specs.AnnotationGrammar.{joined_once, joined_more, joined, linked, links, chain_behind, chain};
ghost use Rattle.c_model.specs.AnnotationGrammar.{implication_behind, chosen_behind, choice_behind, forms, form};
ghost use Rattle.acsl_parser.specs.Reading.{links_behind, any_zone, any_shift, any_implication, operators, operand};
ghost use Rattle.acsl_parser.specs.Reading.{plain_range, plain_spanned, plain_spanned_links};
ghost use Rattle.token_reader.specs.Reading.{Gives, plain_list};

use crate::atoms::with_range;
use crate::parts::{
    chained, joined_forms, link, next_is_relation, next_joins, operator, relation, zone_of,
};
use crate::prefix::prefix;
use crate::span::{Read, Span, SpannedForm, SpannedLinks};
use crate::sum::zone_sum;
use crate::tables::{Level, direction_behind};
use crate::terminals::next_is;
use c_expr_parser::kinds::{COLON, FIRST_MARK, QUESTION};
use c_expr_parser::terminals::{kept, skip};
use c_model::formulas::{ChainDirection, FormulaMode};
use c_model::punctuator;
use c_model::vocabulary::Word;
use c_syntax::Token;
use c_syntax::logic::{Connective, Formula, FormulaKind, FormulaLinks, FormulaZone};
use std::alloc::Global;

const IMPLIES: u32 = FIRST_MARK + punctuator::IMPLIES as u32;

/// An operand of the operators of a level.
#[cycle(formula)]
fn operand<'a>(
    alloc: Global,
    words: &[Word],
    mode: FormulaMode,
    level: Level,
    tokens: &'a [Token],
) -> Read<'a, SpannedForm>
    ensures read { Gives (λ x. (plain_spanned x.0, plain_list x.1.now)) result ((operand words.now mode level).parse (plain_list tokens.now)) }
    ensures shorter { IfOk result (λ x. length x.1.now < length tokens.now) }
{
    match level {
        Level::Product => prefix(alloc, words, mode, tokens),
        Level::Sum => joined(alloc, words, mode, Level::Product, tokens),
        Level::Shift => match mode {
            FormulaMode::Alone => joined(alloc, words, mode, Level::Sum, tokens),
            FormulaMode::Zone => zone_sum(alloc, words, tokens),
        },
        Level::BitAnd => chain(alloc, words, mode, tokens),
        Level::BitXor => joined(alloc, words, mode, Level::BitAnd, tokens),
        Level::BitOr => joined(alloc, words, mode, Level::BitXor, tokens),
        Level::Conjunction => joined(alloc, words, mode, Level::BitOr, tokens),
        Level::Exclusion => joined(alloc, words, mode, Level::Conjunction, tokens),
        Level::Disjunction => joined(alloc, words, mode, Level::Exclusion, tokens),
        Level::Equivalence => implication(alloc, words, mode, tokens),
    }
}

/// An operator of the level with its right operand, after the left one.
#[tactic(auto, unfolding(c_model::specs::AnnotationGrammar::joined_once))]
#[cycle(formula)]
fn joined_once<'a>(
    alloc: Global,
    words: &[Word],
    mode: FormulaMode,
    level: Level,
    left: Formula,
    tokens: &'a [Token],
) -> Read<'a, SpannedForm>
    ensures read { Gives (λ x. (plain_spanned x.0, plain_list x.1.now)) result
        ((joined_once words.now (operators level) (operand words.now mode level) (plain_form left)).parse (plain_list tokens.now)) }
    ensures shorter { IfOk result (λ x. length x.1.now < length tokens.now) }
{
    let (left, (op, place, rest)) = kept(left, operator(level, tokens))?;
    let (left, ((right, range), rest)) = kept(left, operand(alloc, words, mode, level, rest))?;
    Ok(((joined_forms(alloc, op, place, left, right)?, range), rest))
}

/// Operators of the level with their right operands, after the left one.
#[tactic(auto, using(crate::proofs::Turns::joined_rules))]
#[cycle(formula)]
pub fn joined_more<'a>(
    alloc: Global,
    words: &[Word],
    mode: FormulaMode,
    level: Level,
    left: SpannedForm,
    tokens: &'a [Token],
) -> Read<'a, SpannedForm>
    ensures read { Gives (λ x. (plain_spanned x.0, plain_list x.1.now)) result
        ((joined_more words.now (operators level) (operand words.now mode level) (plain_spanned left)).parse (plain_list tokens.now)) }
    ensures shorter { IfOk result (λ x. length x.1.now ≤ length tokens.now) }
{
    let (mut left, mut range) = left;
    let mut rest = tokens;
    'turn: while next_joins(words, level, &range, rest) {
        let ((more, end), after) = joined_once(alloc, words, mode, level, left, rest)?;
        left = more;
        range = end;
        rest = after;
    }
    Ok(((left, range), rest))
}

/// Operands joined by operators of the level.
#[tactic(auto, unfolding(c_model::specs::AnnotationGrammar::joined))]
#[cycle(formula)]
pub fn joined<'a>(
    alloc: Global,
    words: &[Word],
    mode: FormulaMode,
    level: Level,
    tokens: &'a [Token],
) -> Read<'a, SpannedForm>
    ensures read { Gives (λ x. (plain_spanned x.0, plain_list x.1.now)) result
        ((joined words.now (operators level) (operand words.now mode level)).parse (plain_list tokens.now)) }
    ensures shorter { IfOk result (λ x. length x.1.now < length tokens.now) }
{
    let (left, rest) = operand(alloc, words, mode, level, tokens)?;
    joined_more(alloc, words, mode, level, left, rest)
}

/// A relation, the operand after it, and those that go on with them.
#[tactic(auto, unfolding(c_model::specs::AnnotationGrammar::linked))]
#[cycle(formula)]
fn linked<'a>(
    alloc: Global,
    words: &[Word],
    mode: FormulaMode,
    direction: ChainDirection,
    tokens: &'a [Token],
) -> Read<'a, SpannedLinks>
    ensures read { Gives (λ x. (plain_spanned_links x.0, plain_list x.1.now)) result
        ((linked words.now (any_shift words.now mode) (links words.now (any_shift words.now mode)) direction).parse (plain_list tokens.now)) }
    ensures shorter { IfOk result (λ x. length x.1.now < length tokens.now) }
{
    let (relation, place, rest) = relation(direction, tokens)?;
    let ((x, range), rest) = joined(alloc, words, mode, Level::Shift, rest)?;
    let onward = direction_behind(direction, relation);
    let (x, ((more, range), rest)) = kept(
        x,
        links_behind(alloc, words, mode, onward, range, rest),
    )?;
    Ok(((link(alloc, place, relation, x, more)?, range), rest))
}

/// Relations and their operands, after a chain that goes this way.
#[tactic(auto, using(crate::proofs::ExactForms::links_is), unfolding(c_model::specs::AnnotationGrammar::links_of))]
#[cycle(formula)]
fn links<'a>(
    alloc: Global,
    words: &[Word],
    mode: FormulaMode,
    direction: ChainDirection,
    tokens: &'a [Token],
) -> Read<'a, SpannedLinks>
    ensures read { Gives (λ x. (plain_spanned_links x.0, plain_list x.1.now)) result
        ((links words.now (any_shift words.now mode) direction).parse (plain_list tokens.now)) }
    ensures shorter { IfOk result (λ x. length x.1.now ≤ length tokens.now) }
{
    if next_is_relation(words, direction, tokens) {
        linked(alloc, words, mode, direction, tokens)
    } else {
        Ok(((FormulaLinks::End, None), tokens))
    }
}

/// The same, after an operand that this ends.
#[cycle(formula)]
fn links_behind<'a>(
    alloc: Global,
    words: &[Word],
    mode: FormulaMode,
    direction: ChainDirection,
    range: Option<Span>,
    tokens: &'a [Token],
) -> Read<'a, SpannedLinks>
    ensures read { Gives (λ x. (plain_spanned_links x.0, plain_list x.1.now)) result
        ((links_behind words.now mode direction (option_map plain_range range)).parse (plain_list tokens.now)) }
    ensures shorter { IfOk result (λ x. length x.1.now ≤ length tokens.now) }
{
    match range {
        None => links(alloc, words, mode, direction, tokens),
        Some(range) => Ok(((FormulaLinks::End, Some(range)), tokens)),
    }
}

/// The relations after an operand.
#[tactic(auto, unfolding(c_model::specs::AnnotationGrammar::chain_behind))]
#[cycle(formula)]
fn chain_behind<'a>(
    alloc: Global,
    words: &[Word],
    mode: FormulaMode,
    left: Formula,
    tokens: &'a [Token],
) -> Read<'a, SpannedForm>
    ensures read { Gives (λ x. (plain_spanned x.0, plain_list x.1.now)) result
        ((chain_behind words.now (any_shift words.now mode) (plain_form left)).parse (plain_list tokens.now)) }
    ensures shorter { IfOk result (λ x. length x.1.now ≤ length tokens.now) }
{
    let (left, ((links, range), rest)) = kept(
        left,
        links(alloc, words, mode, ChainDirection::Start, tokens),
    )?;
    Ok(((chained(alloc, left, links)?, range), rest))
}

/// A chain of relations.
#[tactic(auto, unfolding(c_model::specs::AnnotationGrammar::chain_of))]
#[cycle(formula)]
fn chain<'a>(
    alloc: Global,
    words: &[Word],
    mode: FormulaMode,
    tokens: &'a [Token],
) -> Read<'a, SpannedForm>
    ensures read { Gives (λ x. (plain_spanned x.0, plain_list x.1.now)) result
        ((chain words.now (form words.now) (any_zone words.now) (forms words.now mode) mode).parse (plain_list tokens.now)) }
    ensures shorter { IfOk result (λ x. length x.1.now < length tokens.now) }
{
    let ((left, range), rest) = joined(alloc, words, mode, Level::Shift, tokens)?;
    match range {
        None => chain_behind(alloc, words, mode, left, rest),
        Some(range) => Ok(((left, Some(range)), rest)),
    }
}

/// `"==>"` and its right operand, if they stand after the left one.
#[tactic(auto, unfolding(c_model::specs::AnnotationGrammar::implication_behind, c_model::specs::AnnotationGrammar::implied))]
#[cycle(formula)]
fn implication_behind<'a>(
    alloc: Global,
    words: &[Word],
    mode: FormulaMode,
    left: Formula,
    tokens: &'a [Token],
) -> Read<'a, SpannedForm>
    ensures read { Gives (λ x. (plain_spanned x.0, plain_list x.1.now)) result
        ((implication_behind words.now (any_implication words.now mode) (plain_form left)).parse (plain_list tokens.now)) }
    ensures shorter { IfOk result (λ x. length x.1.now ≤ length tokens.now) }
{
    if next_is(words, IMPLIES, tokens) {
        let (left, (place, rest)) = kept(left, skip(words, IMPLIES, tokens))?;
        let (left, ((right, range), rest)) = kept(left, implication(alloc, words, mode, rest))?;
        let kind = FormulaKind::Connected(Connective::Implies, left, right);
        with_range(alloc, place, kind, range, rest)
    } else {
        Ok(((left, None), tokens))
    }
}

/// Implications, from the right.
#[tactic(auto, using(crate::proofs::ExactForms::implication_is), unfolding(c_model::specs::AnnotationGrammar::implication_of))]
#[cycle(formula)]
fn implication<'a>(
    alloc: Global,
    words: &[Word],
    mode: FormulaMode,
    tokens: &'a [Token],
) -> Read<'a, SpannedForm>
    ensures read { Gives (λ x. (plain_spanned x.0, plain_list x.1.now)) result ((any_implication words.now mode).parse (plain_list tokens.now)) }
    ensures shorter { IfOk result (λ x. length x.1.now < length tokens.now) }
{
    let ((left, range), rest) = joined(alloc, words, mode, Level::Disjunction, tokens)?;
    match range {
        None => implication_behind(alloc, words, mode, left, rest),
        Some(range) => Ok(((left, Some(range)), rest)),
    }
}

/// `"?" form ":" form`, after the condition.
#[tactic(auto, unfolding(c_model::specs::AnnotationGrammar::chosen_behind))]
#[cycle(formula)]
fn chosen_behind<'a>(
    alloc: Global,
    words: &[Word],
    mode: FormulaMode,
    condition: Formula,
    tokens: &'a [Token],
) -> Read<'a, SpannedForm>
    ensures read { Gives (λ x. (plain_spanned x.0, plain_list x.1.now)) result
        ((chosen_behind words.now (form words.now) (forms words.now mode) (plain_form condition)).parse (plain_list tokens.now)) }
    ensures shorter { IfOk result (λ x. length x.1.now < length tokens.now) }
{
    let (condition, (place, rest)) = kept(condition, skip(words, QUESTION, tokens))?;
    let (condition, (first, rest)) = kept(condition, form(alloc, words, rest))?;
    let (parts, (_, rest)) = kept((condition, first), skip(words, COLON, rest))?;
    let ((condition, first), ((second, range), rest)) = kept(
        parts,
        forms(alloc, words, mode, rest),
    )?;
    let kind = FormulaKind::Choice(condition, first, second);
    with_range(alloc, place, kind, range, rest)
}

/// The same, if it stands there.
#[tactic(auto, unfolding(c_model::specs::AnnotationGrammar::choice_behind))]
#[cycle(formula)]
fn choice_behind<'a>(
    alloc: Global,
    words: &[Word],
    mode: FormulaMode,
    condition: Formula,
    tokens: &'a [Token],
) -> Read<'a, SpannedForm>
    ensures read { Gives (λ x. (plain_spanned x.0, plain_list x.1.now)) result
        ((choice_behind words.now (form words.now) (forms words.now mode) (plain_form condition)).parse (plain_list tokens.now)) }
    ensures shorter { IfOk result (λ x. length x.1.now ≤ length tokens.now) }
{
    if next_is(words, QUESTION, tokens) {
        chosen_behind(alloc, words, mode, condition, tokens)
    } else {
        Ok(((condition, None), tokens))
    }
}

/// A form in a mode.
#[tactic(auto, using(crate::proofs::ExactForms::forms_is), unfolding(c_model::specs::AnnotationGrammar::form_of))]
#[cycle(formula)]
pub fn forms<'a>(
    alloc: Global,
    words: &[Word],
    mode: FormulaMode,
    tokens: &'a [Token],
) -> Read<'a, SpannedForm>
    ensures read { Gives (λ x. (plain_spanned x.0, plain_list x.1.now)) result ((forms words.now mode).parse (plain_list tokens.now)) }
    ensures shorter { IfOk result (λ x. length x.1.now < length tokens.now) }
{
    let ((condition, range), rest) = joined(alloc, words, mode, Level::Equivalence, tokens)?;
    match range {
        None => choice_behind(alloc, words, mode, condition, rest),
        Some(range) => Ok(((condition, Some(range)), rest)),
    }
}

/// A form of any length.
#[tactic(auto, unfolding(c_model::specs::AnnotationGrammar::whole))]
#[cycle(formula)]
pub fn form<'a>(alloc: Global, words: &[Word], tokens: &'a [Token]) -> Read<'a, Formula>
    ensures read { Gives (λ x. (plain_form x.0, plain_list x.1.now)) result ((form words.now).parse (plain_list tokens.now)) }
    ensures shorter { IfOk result (λ x. length x.1.now < length tokens.now) }
{
    let ((x, _range), rest) = forms(alloc, words, FormulaMode::Alone, tokens)?;
    Ok((x, rest))
}

/// A zone.
#[tactic(auto, unfolding(c_model::specs::AnnotationGrammar::zone))]
#[cycle(formula)]
pub fn zone<'a>(alloc: Global, words: &[Word], tokens: &'a [Token]) -> Read<'a, FormulaZone>
    ensures read { Gives (λ x. (plain_form_zone x.0, plain_list x.1.now)) result ((any_zone words.now).parse (plain_list tokens.now)) }
    ensures shorter { IfOk result (λ x. length x.1.now < length tokens.now) }
{
    let ((x, range), rest) = forms(alloc, words, FormulaMode::Zone, tokens)?;
    Ok((zone_of(x, range), rest))
}
