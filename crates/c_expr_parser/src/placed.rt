//! Expressions with the place of their first token, as statements begin with them (C99 6.8.3).

ghost use Rattle.std.specs.Prelude.{◌≤◌, ◌<◌, length, IfOk};
ghost use Rattle.c_syntax.specs.Expressions.{plain_expr};
ghost use Rattle.c_model.specs.ExpressionGrammar.{placed_rest, placed_expression, nameless_expression, expression_behind};
ghost use Rattle.c_expr_parser.specs.Reading.{plain_operand};
ghost use Rattle.token_reader.specs.Reading.{Gives, plain_list};

use crate::expression::{behind_form, behind_variable, more_parts, operand, operand_but_name};
use crate::parts::ReadOperand;
use c_model::operands::TypeUse;
use c_model::vocabulary::Word;
use c_syntax::fault::ReadFault;
use c_syntax::{Expr, Place, Token};
use std::alloc::Global;

/// An expression, the place of its first token, and what stands behind it.
pub type PlacedRead<'a> = Result<(Expr, Place, &'a [Token]), ReadFault>;

/// What stands behind the first operand.
#[tactic(auto, unfolding(c_model::specs::ExpressionGrammar::placed_rest, crate::specs::Reading::more_parts))]
fn placed_rest<'a>(
    alloc: Global,
    words: &[Word],
    x: ReadOperand,
    tokens: &'a [Token],
) -> PlacedRead<'a>
    ensures read { Gives (λ x. ((plain_expr x.0, x.1), plain_list x.2.now)) result
        ((placed_rest words.now (plain_operand x)).parse (plain_list tokens.now)) }
    ensures shorter { IfOk result (λ x. length x.2.now ≤ length tokens.now) }
{
    let first = x.first;
    let (left, rest) = behind_form(alloc, words, x.form, x.expression, tokens)?;
    let (e, rest) = more_parts(alloc, words, left, rest)?;
    Ok((e, first, rest))
}

/// An expression of any length.
#[tactic(auto, unfolding(c_model::specs::ExpressionGrammar::placed_expression))]
pub fn placed_expression<'a>(alloc: Global, words: &[Word], tokens: &'a [Token]) -> PlacedRead<'a>
    ensures read { Gives (λ x. ((plain_expr x.0, x.1), plain_list x.2.now)) result ((placed_expression words.now).parse (plain_list tokens.now)) }
    ensures shorter { IfOk result (λ x. length x.2.now < length tokens.now) }
{
    let (x, rest) = operand(alloc, words, TypeUse::Casts, tokens)?;
    placed_rest(alloc, words, x, rest)
}

/// One that begins with no name.
#[tactic(auto, unfolding(c_model::specs::ExpressionGrammar::nameless_expression))]
pub fn nameless_expression<'a>(alloc: Global, words: &[Word], tokens: &'a [Token]) -> PlacedRead<'a>
    ensures read { Gives (λ x. ((plain_expr x.0, x.1), plain_list x.2.now)) result ((nameless_expression words.now).parse (plain_list tokens.now)) }
    ensures shorter { IfOk result (λ x. length x.2.now < length tokens.now) }
{
    let (x, rest) = operand_but_name(alloc, words, TypeUse::Casts, tokens)?;
    placed_rest(alloc, words, x, rest)
}

/// What stands behind a name that it begins with.
#[tactic(auto, unfolding(c_model::specs::ExpressionGrammar::expression_behind))]
pub fn expression_behind<'a>(
    alloc: Global,
    words: &[Word],
    number: u32,
    place: Place,
    tokens: &'a [Token],
) -> PlacedRead<'a>
    ensures read { Gives (λ x. ((plain_expr x.0, x.1), plain_list x.2.now)) result
        ((expression_behind words.now (number, place)).parse (plain_list tokens.now)) }
    ensures shorter { IfOk result (λ x. length x.2.now ≤ length tokens.now) }
{
    let (x, rest) = behind_variable(alloc, words, number, place, tokens)?;
    placed_rest(alloc, words, x, rest)
}
