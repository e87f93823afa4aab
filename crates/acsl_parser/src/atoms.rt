//! The nodes of forms; names, literals and `sizeof` of a type, in which no other form stands.

ghost use Rattle.std.specs.Prelude.{◌≡◌, ◌≤◌, ◌<◌, length, option_map, IfOk};
ghost use Rattle.c_syntax.specs.Formulas.{plain_form, plain_form_kind};
ghost use Rattle.grammar.specs.Syntax.{gives};
ghost use Rattle.c_model.specs.ExpressionGrammar.{closed};
ghost use Rattle.c_model.specs.AnnotationGrammar.{named_form, literal_form, sized_form, null_form, result_form, atom};
ghost use Rattle.token_reader.specs.Reading.{Gives, plain_list};
ghost use Rattle.acsl_parser.specs.Reading.{plain_range, plain_spanned};

use crate::span::{Read, Span, SpannedForm};
use crate::terminals::{formula_name, next_is, truth};
use c_expr_parser::kinds::{LEFT_PAREN, LETTER, NAME, NULL, NUMBER, RESULT, RIGHT_PAREN, SIZEOF};
use c_expr_parser::terminals::{kept, letter, number, skip};
use c_expr_parser::type_name;
use c_model::vocabulary::Word;
use c_syntax::logic::{Formula, FormulaKind};
use c_syntax::{Place, Token, Use};
use std::alloc::{AllocError, Global};

/// A form as it is read.
pub fn read_form(alloc: Global, place: Place, kind: FormulaKind) -> Result<Formula, AllocError>
    ensures { IfOk result (λ f. plain_form f ≡ plain_form_kind place kind) }
{
    Ok(Formula {
        place,
        kind: Box::new(alloc, kind)?,
    })
}

/// The form of this kind, after which these tokens are left.
pub fn with_form<'a>(
    alloc: Global,
    place: Place,
    kind: FormulaKind,
    tokens: &'a [Token],
) -> Read<'a, Formula>
    ensures read { Gives (λ x. (plain_form x.0, plain_list x.1.now)) result ((gives (plain_form_kind place kind)).parse (plain_list tokens.now)) }
    ensures shorter { IfOk result (λ x. length x.1.now ≤ length tokens.now) }
{
    Ok((read_form(alloc, place, kind)?, tokens))
}

/// The same, with what ends it.
pub fn with_range<'a>(
    alloc: Global,
    place: Place,
    kind: FormulaKind,
    range: Option<Span>,
    tokens: &'a [Token],
) -> Read<'a, SpannedForm>
    ensures read { Gives (λ x. (plain_spanned x.0, plain_list x.1.now)) result
        ((gives (plain_form_kind place kind, option_map plain_range range)).parse (plain_list tokens.now)) }
    ensures shorter { IfOk result (λ x. length x.1.now ≤ length tokens.now) }
{
    let (range, (form, rest)) = kept(range, with_form(alloc, place, kind, tokens))?;
    Ok(((form, range), rest))
}

/// `")"`, after a form of this kind.
#[tactic(auto, unfolding(c_model::specs::ExpressionGrammar::closed))]
pub fn closed<'a>(
    alloc: Global,
    words: &[Word],
    place: Place,
    kind: FormulaKind,
    tokens: &'a [Token],
) -> Read<'a, Formula>
    ensures read { Gives (λ x. (plain_form x.0, plain_list x.1.now)) result ((closed words.now (plain_form_kind place kind)).parse (plain_list tokens.now)) }
    ensures shorter { IfOk result (λ x. length x.1.now < length tokens.now) }
{
    let (kind, (_, rest)) = kept(kind, skip(words, RIGHT_PAREN, tokens))?;
    with_form(alloc, place, kind, rest)
}

/// A name that is used.
#[tactic(auto, unfolding(c_model::specs::AnnotationGrammar::named_form))]
fn named_form<'a>(alloc: Global, words: &[Word], tokens: &'a [Token]) -> Read<'a, Formula>
    ensures read { Gives (λ x. (plain_form x.0, plain_list x.1.now)) result ((named_form words.now).parse (plain_list tokens.now)) }
    ensures shorter { IfOk result (λ x. length x.1.now < length tokens.now) }
{
    let (name, place, rest) = formula_name(words, tokens)?;
    let x = Use { name, decl: 0 };
    with_form(alloc, place, FormulaKind::Name(x), rest)
}

/// An integer or character literal, `\true` or `\false`.
#[tactic(auto, unfolding(c_model::specs::AnnotationGrammar::literal_form))]
fn literal_form<'a>(alloc: Global, words: &[Word], tokens: &'a [Token]) -> Read<'a, Formula>
    ensures read { Gives (λ x. (plain_form x.0, plain_list x.1.now)) result ((literal_form words.now).parse (plain_list tokens.now)) }
    ensures shorter { IfOk result (λ x. length x.1.now < length tokens.now) }
{
    if next_is(words, NUMBER, tokens) {
        let (value, _, place, rest) = number(tokens)?;
        with_form(alloc, place, FormulaKind::Number(value), rest)
    } else if next_is(words, LETTER, tokens) {
        let (value, place, rest) = letter(tokens)?;
        with_form(alloc, place, FormulaKind::Letter(value), rest)
    } else {
        let (value, place, rest) = truth(words, tokens)?;
        with_form(alloc, place, FormulaKind::Truth(value), rest)
    }
}

/// `"sizeof" "(" type ")"`
#[tactic(auto, unfolding(c_model::specs::AnnotationGrammar::sized_form))]
pub fn sized_form<'a>(alloc: Global, words: &[Word], tokens: &'a [Token]) -> Read<'a, Formula>
    ensures read { Gives (λ x. (plain_form x.0, plain_list x.1.now)) result ((sized_form words.now).parse (plain_list tokens.now)) }
    ensures shorter { IfOk result (λ x. length x.1.now < length tokens.now) }
{
    let (place, rest) = skip(words, SIZEOF, tokens)?;
    let (_, rest) = skip(words, LEFT_PAREN, rest)?;
    let (t, rest) = type_name(alloc, words, rest)?;
    closed(alloc, words, place, FormulaKind::SizeOf(t), rest)
}

/// `\null`
#[tactic(auto, unfolding(c_model::specs::AnnotationGrammar::null_form))]
fn null_form<'a>(alloc: Global, words: &[Word], tokens: &'a [Token]) -> Read<'a, Formula>
    ensures read { Gives (λ x. (plain_form x.0, plain_list x.1.now)) result ((null_form words.now).parse (plain_list tokens.now)) }
    ensures shorter { IfOk result (λ x. length x.1.now < length tokens.now) }
{
    let (place, rest) = skip(words, NULL, tokens)?;
    with_form(alloc, place, FormulaKind::Null, rest)
}

/// `\result`
#[tactic(auto, unfolding(c_model::specs::AnnotationGrammar::result_form))]
fn result_form<'a>(alloc: Global, words: &[Word], tokens: &'a [Token]) -> Read<'a, Formula>
    ensures read { Gives (λ x. (plain_form x.0, plain_list x.1.now)) result ((result_form words.now).parse (plain_list tokens.now)) }
    ensures shorter { IfOk result (λ x. length x.1.now < length tokens.now) }
{
    let (place, rest) = skip(words, RESULT, tokens)?;
    with_form(alloc, place, FormulaKind::Result, rest)
}

/// A form of one token.
#[tactic(auto, unfolding(c_model::specs::AnnotationGrammar::atom))]
pub fn atom<'a>(alloc: Global, words: &[Word], tokens: &'a [Token]) -> Read<'a, Formula>
    ensures read { Gives (λ x. (plain_form x.0, plain_list x.1.now)) result ((atom words.now).parse (plain_list tokens.now)) }
    ensures shorter { IfOk result (λ x. length x.1.now < length tokens.now) }
{
    if next_is(words, NAME, tokens) {
        named_form(alloc, words, tokens)
    } else if next_is(words, NULL, tokens) {
        null_form(alloc, words, tokens)
    } else if next_is(words, RESULT, tokens) {
        result_form(alloc, words, tokens)
    } else {
        literal_form(alloc, words, tokens)
    }
}
