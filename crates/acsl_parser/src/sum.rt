//! Sums that a range may end (ACSL 2.7).

ghost use Rattle.std.specs.Prelude.{◌≤◌, ◌<◌, length, IfOk};
ghost use Rattle.c_syntax.specs.Formulas.{plain_form};
ghost use Rattle.c_model.specs.declared.formulas.FormulaMode.TheVariants.{Zone};
ghost use Rattle.c_model.specs.AnnotationGrammar.{joined_once, difference_operators, added_rest, ranged, behind_first, added_parenthesis, added};
ghost use Rattle.c_model.specs.AnnotationGrammar.{sum_once, sum_more, zone_sum, forms, form};
ghost use Rattle.acsl_parser.specs.declared.tables.Level.TheVariants.{Sum};
ghost use Rattle.acsl_parser.specs.Reading.{any_zone, operand, plain_spanned};
ghost use Rattle.token_reader.specs.Reading.{Gives, plain_list};

use crate::atoms::with_range;
use crate::formula::{form, joined, joined_more};
use crate::parts::{joined_forms, next_joins};
use crate::prefix::{bare_prefix, cast_to_integer, cast_to_type, closed_postfix};
use crate::span::{Read, Span, SpannedForm};
use crate::tables::{DIFFERENCES, Level};
use crate::terminals::{INTEGER, next_begins_type, next_is};
use c_expr_parser::kinds::{DOTS, LEFT_PAREN, PLUS, RIGHT_PAREN};
use c_expr_parser::terminals::{kept, skip};
use c_model::formulas::FormulaMode;
use c_model::vocabulary::Word;
use c_syntax::logic::{Formula, FormulaKind};
use c_syntax::{BinOp, Place, Token};
use std::alloc::Global;
use token_reader::terminals::marked;

/// The rest of a right operand of `+` that begins with this form.
#[tactic(auto, unfolding(c_model::specs::AnnotationGrammar::added_rest))]
#[cycle(formula)]
fn added_rest<'a>(
    alloc: Global,
    words: &[Word],
    left: Formula,
    place: Place,
    x: SpannedForm,
    tokens: &'a [Token],
) -> Read<'a, SpannedForm>
    ensures read { Gives (λ x. (plain_spanned x.0, plain_list x.1.now)) result
        ((added_rest words.now (form words.now) (any_zone words.now) (forms words.now Zone)
        (plain_form left) place (plain_spanned x)).parse (plain_list tokens.now)) }
    ensures shorter { IfOk result (λ x. length x.1.now ≤ length tokens.now) }
{
    let product = joined_more(alloc, words, FormulaMode::Zone, Level::Product, x, tokens);
    let (left, ((x, range), rest)) = kept(left, product)?;
    with_range(
        alloc,
        place,
        FormulaKind::Binary(BinOp::Add, left, x),
        range,
        rest,
    )
}

/// `".." form ")"`, after the form that begins a range.
#[tactic(auto, unfolding(c_model::specs::AnnotationGrammar::ranged, c_model::specs::ExpressionGrammar::closed))]
#[cycle(formula)]
fn ranged<'a>(
    alloc: Global,
    words: &[Word],
    left: Formula,
    place: Place,
    lo: Formula,
    tokens: &'a [Token],
) -> Read<'a, SpannedForm>
    ensures read { Gives (λ x. (plain_spanned x.0, plain_list x.1.now)) result
        ((ranged words.now (form words.now) (plain_form left) place (plain_form lo)).parse (plain_list tokens.now)) }
    ensures shorter { IfOk result (λ x. length x.1.now < length tokens.now) }
{
    let (parts, (_, rest)) = kept((left, lo), skip(words, DOTS, tokens))?;
    let ((left, lo), (hi, rest)) = kept(parts, form(alloc, words, rest))?;
    let ended = (left, Some(Span::Range(place, lo, hi)));
    let (ended, (_, rest)) = kept(ended, skip(words, RIGHT_PAREN, rest))?;
    Ok((ended, rest))
}

/// A range, or the rest of an operand, after the form that stands behind `+ (`.
#[tactic(auto, unfolding(c_model::specs::AnnotationGrammar::behind_first))]
#[cycle(formula)]
fn behind_first<'a>(
    alloc: Global,
    words: &[Word],
    left: Formula,
    place: Place,
    x: Formula,
    tokens: &'a [Token],
) -> Read<'a, SpannedForm>
    ensures read { Gives (λ x. (plain_spanned x.0, plain_list x.1.now)) result
        ((behind_first words.now (form words.now) (any_zone words.now) (forms words.now Zone)
        (plain_form left) place (plain_form x)).parse (plain_list tokens.now)) }
    ensures shorter { IfOk result (λ x. length x.1.now < length tokens.now) }
{
    if next_is(words, DOTS, tokens) {
        return ranged(alloc, words, left, place, x, tokens);
    }
    let (left, (x, rest)) = kept(left, closed_postfix(alloc, words, x, tokens))?;
    added_rest(alloc, words, left, place, (x, None), rest)
}

/// What stands after `+ (`, where the `(` stands at the second place.
#[tactic(auto, unfolding(c_model::specs::AnnotationGrammar::added_parenthesis))]
#[cycle(formula)]
fn added_parenthesis<'a>(
    alloc: Global,
    words: &[Word],
    left: Formula,
    place: Place,
    parenthesis: Place,
    tokens: &'a [Token],
) -> Read<'a, SpannedForm>
    ensures read { Gives (λ x. (plain_spanned x.0, plain_list x.1.now)) result
        ((added_parenthesis words.now (form words.now) (any_zone words.now) (forms words.now Zone)
        (plain_form left) place parenthesis).parse (plain_list tokens.now)) }
    ensures shorter { IfOk result (λ x. length x.1.now < length tokens.now) }
{
    if next_begins_type(words, tokens) {
        let (left, (x, rest)) = kept(
            left,
            cast_to_type(alloc, words, FormulaMode::Zone, parenthesis, tokens),
        )?;
        added_rest(alloc, words, left, place, x, rest)
    } else if next_is(words, INTEGER, tokens) {
        let (left, (x, rest)) = kept(
            left,
            cast_to_integer(alloc, words, FormulaMode::Zone, parenthesis, tokens),
        )?;
        added_rest(alloc, words, left, place, x, rest)
    } else {
        let (left, (x, rest)) = kept(left, form(alloc, words, tokens))?;
        behind_first(alloc, words, left, place, x, rest)
    }
}

/// A right operand of `+`, or a range, after the `+` at this place.
#[tactic(auto, unfolding(c_model::specs::AnnotationGrammar::added))]
#[cycle(formula)]
fn added<'a>(
    alloc: Global,
    words: &[Word],
    left: Formula,
    place: Place,
    tokens: &'a [Token],
) -> Read<'a, SpannedForm>
    ensures read { Gives (λ x. (plain_spanned x.0, plain_list x.1.now)) result
        ((added words.now (form words.now) (any_zone words.now) (forms words.now Zone) (plain_form left) place).parse (plain_list tokens.now)) }
    ensures shorter { IfOk result (λ x. length x.1.now < length tokens.now) }
{
    if next_is(words, LEFT_PAREN, tokens) {
        let (left, (parenthesis, rest)) = kept(left, skip(words, LEFT_PAREN, tokens))?;
        added_parenthesis(alloc, words, left, place, parenthesis, rest)
    } else {
        let (left, (x, rest)) = kept(left, bare_prefix(alloc, words, FormulaMode::Zone, tokens))?;
        added_rest(alloc, words, left, place, x, rest)
    }
}

/// `-` and its right operand, after the left one.
#[tactic(auto, unfolding(c_model::specs::AnnotationGrammar::joined_once))]
#[cycle(formula)]
fn subtracted<'a>(
    alloc: Global,
    words: &[Word],
    left: Formula,
    tokens: &'a [Token],
) -> Read<'a, SpannedForm>
    ensures read { Gives (λ x. (plain_spanned x.0, plain_list x.1.now)) result
        ((joined_once words.now difference_operators (operand words.now Zone Sum) (plain_form left)).parse (plain_list tokens.now)) }
    ensures shorter { IfOk result (λ x. length x.1.now < length tokens.now) }
{
    let (left, (op, place, rest)) = kept(left, marked(DIFFERENCES, tokens))?;
    let product = joined(alloc, words, FormulaMode::Zone, Level::Product, rest);
    let (left, ((right, range), rest)) = kept(left, product)?;
    Ok(((joined_forms(alloc, op, place, left, right)?, range), rest))
}

/// `+` or `-` with its right operand, or a range, after the left operand.
#[tactic(auto, unfolding(c_model::specs::AnnotationGrammar::sum_once))]
#[cycle(formula)]
fn sum_once<'a>(
    alloc: Global,
    words: &[Word],
    left: Formula,
    tokens: &'a [Token],
) -> Read<'a, SpannedForm>
    ensures read { Gives (λ x. (plain_spanned x.0, plain_list x.1.now)) result
        ((sum_once words.now (form words.now) (any_zone words.now) (forms words.now Zone) (plain_form left)).parse (plain_list tokens.now)) }
    ensures shorter { IfOk result (λ x. length x.1.now < length tokens.now) }
{
    if next_is(words, PLUS, tokens) {
        let (left, (place, rest)) = kept(left, skip(words, PLUS, tokens))?;
        added(alloc, words, left, place, rest)
    } else {
        subtracted(alloc, words, left, tokens)
    }
}

/// Right operands of a sum and a range, after the first operand.
#[tactic(auto, using(crate::proofs::Turns::sum_rules))]
#[cycle(formula)]
fn sum_more<'a>(
    alloc: Global,
    words: &[Word],
    left: SpannedForm,
    tokens: &'a [Token],
) -> Read<'a, SpannedForm>
    ensures read { Gives (λ x. (plain_spanned x.0, plain_list x.1.now)) result
        ((sum_more words.now (form words.now) (any_zone words.now) (forms words.now Zone) (plain_spanned left)).parse (plain_list tokens.now)) }
    ensures shorter { IfOk result (λ x. length x.1.now ≤ length tokens.now) }
{
    let (mut left, mut range) = left;
    let mut rest = tokens;
    'turn: while next_joins(words, Level::Sum, &range, rest) {
        let ((more, end), after) = sum_once(alloc, words, left, rest)?;
        left = more;
        range = end;
        rest = after;
    }
    Ok(((left, range), rest))
}

/// A sum, which a range may end.
#[tactic(auto, unfolding(c_model::specs::AnnotationGrammar::zone_sum))]
#[cycle(formula)]
pub fn zone_sum<'a>(alloc: Global, words: &[Word], tokens: &'a [Token]) -> Read<'a, SpannedForm>
    ensures read { Gives (λ x. (plain_spanned x.0, plain_list x.1.now)) result
        ((zone_sum words.now (form words.now) (any_zone words.now) (forms words.now Zone)).parse (plain_list tokens.now)) }
    ensures shorter { IfOk result (λ x. length x.1.now < length tokens.now) }
{
    let (left, rest) = joined(alloc, words, FormulaMode::Zone, Level::Product, tokens)?;
    sum_more(alloc, words, left, rest)
}
