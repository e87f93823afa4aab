//! Casts, prefix forms, quantifiers and postfix forms (ACSL 2.2).

ghost use Rattle.std.specs.Prelude.{◌≤◌, ◌<◌, length, IfOk};
ghost use Rattle.c_syntax.specs.Formulas.{plain_form, plain_cast_type};
ghost use Rattle.c_model.specs.AnnotationGrammar.{indexed, postfix_once, postfixes, worded_postfix, cast_behind, cast_to_type, cast_to_integer};
ghost use Rattle.c_model.specs.AnnotationGrammar.{closed_postfix, parenthesised, behind_parenthesis, prefixed, quantified, bare_prefix, forms, form};
ghost use Rattle.acsl_parser.specs.Reading.{any_zone, any_prefix, plain_spanned};
ghost use Rattle.token_reader.specs.Reading.{Gives, plain_list};

use crate::atoms::{sized_form, with_form, with_range};
use crate::binders::binders;
use crate::formula::{form, forms};
use crate::parts::{dotted, pointed, quantifier_end};
use crate::primary::worded;
use crate::span::{Read, SpannedForm};
use crate::tables::PREFIXES;
use crate::terminals::{
    INTEGER, integer_word, next_begins_type, next_is, next_is_marked, next_is_postfix, quantifier,
};
use c_expr_parser::kinds::{
    DOT, LEFT_BRACKET, LEFT_PAREN, QUANTIFIER, RIGHT_BRACKET, RIGHT_PAREN, SIZEOF,
};
use c_expr_parser::terminals::{kept, skip};
use c_expr_parser::type_name;
use c_model::formulas::FormulaMode;
use c_model::vocabulary::Word;
use c_syntax::logic::{Formula, FormulaKind, LogicType};
use c_syntax::{Place, Token};
use std::alloc::Global;
use token_reader::terminals::marked;

/// `")" prefix`, after `(` and the type.
#[tactic(auto, unfolding(c_model::specs::AnnotationGrammar::cast_behind))]
#[cycle(formula)]
fn cast_behind<'a>(
    alloc: Global,
    words: &[Word],
    mode: FormulaMode,
    place: Place,
    to: LogicType,
    tokens: &'a [Token],
) -> Read<'a, SpannedForm>
    ensures read { Gives (λ x. (plain_spanned x.0, plain_list x.1.now)) result
        ((cast_behind words.now (any_prefix words.now mode) place (plain_cast_type to)).parse (plain_list tokens.now)) }
    ensures shorter { IfOk result (λ x. length x.1.now < length tokens.now) }
{
    let (to, (_, rest)) = kept(to, skip(words, RIGHT_PAREN, tokens))?;
    let (to, ((x, end), rest)) = kept(to, prefix(alloc, words, mode, rest))?;
    with_range(alloc, place, FormulaKind::Cast(to, x), end, rest)
}

/// `type ")" prefix`, after `(`.
#[tactic(auto, unfolding(c_model::specs::AnnotationGrammar::cast_to_type))]
#[cycle(formula)]
pub fn cast_to_type<'a>(
    alloc: Global,
    words: &[Word],
    mode: FormulaMode,
    place: Place,
    tokens: &'a [Token],
) -> Read<'a, SpannedForm>
    ensures read { Gives (λ x. (plain_spanned x.0, plain_list x.1.now)) result
        ((cast_to_type words.now (any_prefix words.now mode) place).parse (plain_list tokens.now)) }
    ensures shorter { IfOk result (λ x. length x.1.now < length tokens.now) }
{
    let (t, rest) = type_name(alloc, words, tokens)?;
    cast_behind(alloc, words, mode, place, LogicType::Of(t), rest)
}

/// `"integer" ")" prefix`, after `(`.
#[tactic(auto, unfolding(c_model::specs::AnnotationGrammar::cast_to_integer))]
#[cycle(formula)]
pub fn cast_to_integer<'a>(
    alloc: Global,
    words: &[Word],
    mode: FormulaMode,
    place: Place,
    tokens: &'a [Token],
) -> Read<'a, SpannedForm>
    ensures read { Gives (λ x. (plain_spanned x.0, plain_list x.1.now)) result
        ((cast_to_integer words.now (any_prefix words.now mode) place).parse (plain_list tokens.now)) }
    ensures shorter { IfOk result (λ x. length x.1.now < length tokens.now) }
{
    let (_, rest) = integer_word(words, tokens)?;
    cast_behind(alloc, words, mode, place, LogicType::Integer, rest)
}

/// `"[" form "]"`, after a form.
#[tactic(auto, unfolding(c_model::specs::AnnotationGrammar::indexed))]
#[cycle(formula)]
fn indexed<'a>(
    alloc: Global,
    words: &[Word],
    left: Formula,
    tokens: &'a [Token],
) -> Read<'a, Formula>
    ensures read { Gives (λ x. (plain_form x.0, plain_list x.1.now)) result
        ((indexed words.now (form words.now) (plain_form left)).parse (plain_list tokens.now)) }
    ensures shorter { IfOk result (λ x. length x.1.now < length tokens.now) }
{
    let (left, (place, rest)) = kept(left, skip(words, LEFT_BRACKET, tokens))?;
    let (left, (index, rest)) = kept(left, form(alloc, words, rest))?;
    let ((left, index), (_, rest)) = kept((left, index), skip(words, RIGHT_BRACKET, rest))?;
    with_form(alloc, place, FormulaKind::Index(left, index), rest)
}

/// One postfix operator, after its operand.
#[tactic(auto, unfolding(c_model::specs::AnnotationGrammar::postfix_once))]
#[cycle(formula)]
fn postfix_once<'a>(
    alloc: Global,
    words: &[Word],
    left: Formula,
    tokens: &'a [Token],
) -> Read<'a, Formula>
    ensures read { Gives (λ x. (plain_form x.0, plain_list x.1.now)) result
        ((postfix_once words.now (form words.now) (plain_form left)).parse (plain_list tokens.now)) }
    ensures shorter { IfOk result (λ x. length x.1.now < length tokens.now) }
{
    if next_is(words, LEFT_BRACKET, tokens) {
        indexed(alloc, words, left, tokens)
    } else if next_is(words, DOT, tokens) {
        dotted(alloc, words, left, tokens)
    } else {
        pointed(alloc, words, left, tokens)
    }
}

/// Postfix operators, after their operand.
#[tactic(auto, using(crate::proofs::Turns::postfix_rules))]
#[cycle(formula)]
fn postfixes<'a>(
    alloc: Global,
    words: &[Word],
    left: Formula,
    tokens: &'a [Token],
) -> Read<'a, Formula>
    ensures read { Gives (λ x. (plain_form x.0, plain_list x.1.now)) result
        ((postfixes words.now (form words.now) (plain_form left)).parse (plain_list tokens.now)) }
    ensures shorter { IfOk result (λ x. length x.1.now ≤ length tokens.now) }
{
    let mut left = left;
    let mut rest = tokens;
    'turn: while next_is_postfix(words, rest) {
        let (more, after) = postfix_once(alloc, words, left, rest)?;
        left = more;
        rest = after;
    }
    Ok((left, rest))
}

/// `")"` and postfix operators, after a form in parentheses.
#[tactic(auto, unfolding(c_model::specs::AnnotationGrammar::closed_postfix))]
#[cycle(formula)]
pub fn closed_postfix<'a>(
    alloc: Global,
    words: &[Word],
    left: Formula,
    tokens: &'a [Token],
) -> Read<'a, Formula>
    ensures read { Gives (λ x. (plain_form x.0, plain_list x.1.now)) result
        ((closed_postfix words.now (form words.now) (plain_form left)).parse (plain_list tokens.now)) }
    ensures shorter { IfOk result (λ x. length x.1.now < length tokens.now) }
{
    let (left, (_, rest)) = kept(left, skip(words, RIGHT_PAREN, tokens))?;
    postfixes(alloc, words, left, rest)
}

/// `form ")"` and postfix operators, after `(`.
#[tactic(auto, unfolding(c_model::specs::AnnotationGrammar::parenthesised))]
#[cycle(formula)]
fn parenthesised<'a>(alloc: Global, words: &[Word], tokens: &'a [Token]) -> Read<'a, SpannedForm>
    ensures read { Gives (λ x. (plain_spanned x.0, plain_list x.1.now)) result ((parenthesised words.now (form words.now)).parse (plain_list tokens.now)) }
    ensures shorter { IfOk result (λ x. length x.1.now < length tokens.now) }
{
    let (x, rest) = form(alloc, words, tokens)?;
    let (x, rest) = closed_postfix(alloc, words, x, rest)?;
    Ok(((x, None), rest))
}

/// What stands after `(`.
#[tactic(auto, unfolding(c_model::specs::AnnotationGrammar::behind_parenthesis))]
#[cycle(formula)]
fn behind_parenthesis<'a>(
    alloc: Global,
    words: &[Word],
    mode: FormulaMode,
    place: Place,
    tokens: &'a [Token],
) -> Read<'a, SpannedForm>
    ensures read { Gives (λ x. (plain_spanned x.0, plain_list x.1.now)) result
        ((behind_parenthesis words.now (form words.now) (any_prefix words.now mode) place).parse (plain_list tokens.now)) }
    ensures shorter { IfOk result (λ x. length x.1.now < length tokens.now) }
{
    if next_begins_type(words, tokens) {
        cast_to_type(alloc, words, mode, place, tokens)
    } else if next_is(words, INTEGER, tokens) {
        cast_to_integer(alloc, words, mode, place, tokens)
    } else {
        parenthesised(alloc, words, tokens)
    }
}

/// A prefix operator and its operand.
#[tactic(auto, unfolding(c_model::specs::AnnotationGrammar::prefixed))]
#[cycle(formula)]
fn prefixed<'a>(
    alloc: Global,
    words: &[Word],
    mode: FormulaMode,
    tokens: &'a [Token],
) -> Read<'a, SpannedForm>
    ensures read { Gives (λ x. (plain_spanned x.0, plain_list x.1.now)) result
        ((prefixed words.now (any_prefix words.now mode)).parse (plain_list tokens.now)) }
    ensures shorter { IfOk result (λ x. length x.1.now < length tokens.now) }
{
    let (op, place, rest) = marked(PREFIXES, tokens)?;
    let ((x, end), rest) = prefix(alloc, words, mode, rest)?;
    with_range(alloc, place, FormulaKind::Unary(op, x), end, rest)
}

/// A quantifier, its binders and what it says.
#[tactic(auto, unfolding(c_model::specs::AnnotationGrammar::quantified))]
#[cycle(formula)]
fn quantified<'a>(
    alloc: Global,
    words: &[Word],
    mode: FormulaMode,
    tokens: &'a [Token],
) -> Read<'a, SpannedForm>
    ensures read { Gives (λ x. (plain_spanned x.0, plain_list x.1.now)) result ((quantified words.now (forms words.now mode)).parse (plain_list tokens.now)) }
    ensures shorter { IfOk result (λ x. length x.1.now < length tokens.now) }
{
    let (quantifier, place, rest) = quantifier(words, tokens)?;
    let (bound, rest) = binders(alloc, words, rest)?;
    let ((to, names), ((x, end), rest)) = kept(bound, forms(alloc, words, mode, rest))?;
    let kind = FormulaKind::Quantified(quantifier, to, names, x);
    with_range(alloc, place, kind, Some(quantifier_end(end)), rest)
}

/// A postfix form that begins with no parenthesis.
#[tactic(auto, unfolding(c_model::specs::AnnotationGrammar::worded_postfix))]
#[cycle(formula)]
fn worded_postfix<'a>(alloc: Global, words: &[Word], tokens: &'a [Token]) -> Read<'a, Formula>
    ensures read { Gives (λ x. (plain_form x.0, plain_list x.1.now)) result
        ((worded_postfix words.now (form words.now) (any_zone words.now)).parse (plain_list tokens.now)) }
    ensures shorter { IfOk result (λ x. length x.1.now < length tokens.now) }
{
    let (x, rest) = worded(alloc, words, tokens)?;
    postfixes(alloc, words, x, rest)
}

/// A prefix form that begins with no parenthesis.
#[tactic(auto, unfolding(c_model::specs::AnnotationGrammar::bare_prefix))]
#[cycle(formula)]
pub fn bare_prefix<'a>(
    alloc: Global,
    words: &[Word],
    mode: FormulaMode,
    tokens: &'a [Token],
) -> Read<'a, SpannedForm>
    ensures read { Gives (λ x. (plain_spanned x.0, plain_list x.1.now)) result
        ((bare_prefix words.now (form words.now) (any_zone words.now) (forms words.now mode) (any_prefix words.now mode)).parse (plain_list tokens.now)) }
    ensures shorter { IfOk result (λ x. length x.1.now < length tokens.now) }
{
    if next_is_marked(words, PREFIXES, tokens) {
        prefixed(alloc, words, mode, tokens)
    } else if next_is(words, SIZEOF, tokens) {
        let (x, rest) = sized_form(alloc, words, tokens)?;
        Ok(((x, None), rest))
    } else if next_is(words, QUANTIFIER, tokens) {
        quantified(alloc, words, mode, tokens)
    } else {
        let (x, rest) = worded_postfix(alloc, words, tokens)?;
        Ok(((x, None), rest))
    }
}

/// A prefix operator or a cast with its operand, or a postfix form.
#[tactic(auto, using(crate::proofs::ExactForms::prefix_is), unfolding(c_model::specs::AnnotationGrammar::prefix_of))]
#[cycle(formula)]
pub fn prefix<'a>(
    alloc: Global,
    words: &[Word],
    mode: FormulaMode,
    tokens: &'a [Token],
) -> Read<'a, SpannedForm>
    ensures read { Gives (λ x. (plain_spanned x.0, plain_list x.1.now)) result ((any_prefix words.now mode).parse (plain_list tokens.now)) }
    ensures shorter { IfOk result (λ x. length x.1.now < length tokens.now) }
{
    if next_is(words, LEFT_PAREN, tokens) {
        let (place, rest) = skip(words, LEFT_PAREN, tokens)?;
        behind_parenthesis(alloc, words, mode, place, rest)
    } else {
        bare_prefix(alloc, words, mode, tokens)
    }
}
