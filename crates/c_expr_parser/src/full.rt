//! Expressions that stand in no other, within the limit of their tokens.

ghost use Rattle.std.specs.Prelude.{◌≡◌, ◌≤◌, ◌<◌, ◌+◌, ◌-◌, length, take, drop, IfOk};
ghost use Rattle.c_syntax.specs.Expressions.{plain_expr};
ghost use Rattle.c_model.specs.ExpressionGrammar.{full_expression, full_placed_expression, full_nameless_expression};
ghost use Rattle.c_model.specs.ExpressionGrammar.{full_expression_behind, full_expression_at};
ghost use Rattle.c_syntax.specs.declared.fault.ReadFault.TheVariants.{Over};
ghost use Rattle.c_syntax.specs.declared.fault.Limit.TheVariants.{Expression};
ghost use Rattle.c_expr_parser.specs.Reading.{LeftWithin, Resumed};
ghost use Rattle.token_reader.specs.Reading.{Gives, plain_list};

use crate::expression::{expression, expression_at};
use crate::placed::{PlacedRead, expression_behind, nameless_expression, placed_expression};
use c_model::operands::Level;
use c_model::vocabulary::Word;
use c_syntax::fault::{Limit, ReadFault};
use c_syntax::{Expr, Place, Token};
use std::alloc::Global;

/// How many tokens an expression has at most that stands in no other.
pub const MOST: usize = 400;

/// How many of them stand at most behind a name that it begins with.
const MOST_BEHIND: usize = MOST - 1;

/// The fault of a text of so many tokens, from that of its first `most + 1`.
pub fn resumed(fault: ReadFault, tokens: usize, most: usize) -> ReadFault
    requires many { most < tokens }
    requires within { LeftWithin fault (most + 1) }
    ensures { Resumed fault (tokens - (most + 1)) result }
{
    let far = tokens - (most + 1);
    match fault {
        ReadFault::At(0) => ReadFault::Over(Limit::Expression, far + 1),
        ReadFault::At(left) => ReadFault::At(left + far),
        ReadFault::Over(limit, left) => ReadFault::Over(limit, left + far),
        ReadFault::Memory => ReadFault::Memory,
    }
}

/// The fault of a text of so many tokens, of whose expression none is left of the first `most + 1`.
pub fn passed(tokens: usize, most: usize) -> ReadFault
    requires { most < tokens }
    ensures { result ≡ Over Expression (tokens - (most + 1) + 1) }
{
    ReadFault::Over(Limit::Expression, tokens - (most + 1) + 1)
}

/// The first `most + 1` tokens.
pub fn window(tokens: &[Token], most: usize) -> &[Token]
    requires { most < length tokens.now }
    ensures front { result.now ≡ take (most + 1) tokens.now }
    ensures long { length result.now ≡ most + 1 }
{
    &tokens[..most + 1]
}

/// What stands after an expression, of whose text's first `most + 1` tokens so many are left.
pub fn behind(tokens: &[Token], most: usize, left: usize) -> &[Token]
    requires many { most < length tokens.now }
    requires within { left ≤ most + 1 }
    ensures rest { result.now ≡ drop (most + 1 - left) tokens.now }
    ensures shorter { length result.now ≤ length tokens.now }
{
    &tokens[most + 1 - left..]
}

/// An expression.
#[tactic(auto, using(crate::proofs::Windows::full_expression_rules))]
pub fn full_expression<'a>(
    alloc: Global,
    words: &[Word],
    tokens: &'a [Token],
) -> Result<(Expr, &'a [Token]), ReadFault>
    ensures read { Gives (λ x. (plain_expr x.0, plain_list x.1.now)) result ((full_expression words.now).parse (plain_list tokens.now)) }
    ensures shorter { IfOk result (λ x. length x.1.now ≤ length tokens.now) }
{
    if tokens.len() <= MOST {
        return expression(alloc, words, tokens);
    }
    match expression(alloc, words, window(tokens, MOST)) {
        Ok((e, rest)) => match rest.len() {
            0 => Err(passed(tokens.len(), MOST)),
            left => Ok((e, behind(tokens, MOST, left))),
        },
        Err(fault) => Err(resumed(fault, tokens.len(), MOST)),
    }
}

/// An expression with the place of its first token, as a statement begins with it.
#[tactic(auto, using(crate::proofs::Windows::full_placed_expression_rules))]
pub fn full_placed_expression<'a>(
    alloc: Global,
    words: &[Word],
    tokens: &'a [Token],
) -> PlacedRead<'a>
    ensures read { Gives (λ x. ((plain_expr x.0, x.1), plain_list x.2.now)) result ((full_placed_expression words.now).parse (plain_list tokens.now)) }
    ensures shorter { IfOk result (λ x. length x.2.now ≤ length tokens.now) }
{
    if tokens.len() <= MOST {
        return placed_expression(alloc, words, tokens);
    }
    match placed_expression(alloc, words, window(tokens, MOST)) {
        Ok((e, first, rest)) => match rest.len() {
            0 => Err(passed(tokens.len(), MOST)),
            left => Ok((e, first, behind(tokens, MOST, left))),
        },
        Err(fault) => Err(resumed(fault, tokens.len(), MOST)),
    }
}

/// One that begins with no name.
#[tactic(auto, using(crate::proofs::Windows::full_nameless_expression_rules))]
pub fn full_nameless_expression<'a>(
    alloc: Global,
    words: &[Word],
    tokens: &'a [Token],
) -> PlacedRead<'a>
    ensures read { Gives (λ x. ((plain_expr x.0, x.1), plain_list x.2.now)) result ((full_nameless_expression words.now).parse (plain_list tokens.now)) }
    ensures shorter { IfOk result (λ x. length x.2.now ≤ length tokens.now) }
{
    if tokens.len() <= MOST {
        return nameless_expression(alloc, words, tokens);
    }
    match nameless_expression(alloc, words, window(tokens, MOST)) {
        Ok((e, first, rest)) => match rest.len() {
            0 => Err(passed(tokens.len(), MOST)),
            left => Ok((e, first, behind(tokens, MOST, left))),
        },
        Err(fault) => Err(resumed(fault, tokens.len(), MOST)),
    }
}

/// What stands behind a name that one begins with, which is one of its tokens.
#[tactic(auto, using(crate::proofs::Windows::full_behind_name_rules))]
pub fn full_expression_behind<'a>(
    alloc: Global,
    words: &[Word],
    number: u32,
    place: Place,
    tokens: &'a [Token],
) -> PlacedRead<'a>
    ensures read { Gives (λ x. ((plain_expr x.0, x.1), plain_list x.2.now)) result
        ((full_expression_behind words.now (number, place)).parse (plain_list tokens.now)) }
    ensures shorter { IfOk result (λ x. length x.2.now ≤ length tokens.now) }
{
    if tokens.len() <= MOST_BEHIND {
        return expression_behind(alloc, words, number, place, tokens);
    }
    match expression_behind(alloc, words, number, place, window(tokens, MOST_BEHIND)) {
        Ok((e, first, rest)) => match rest.len() {
            0 => Err(passed(tokens.len(), MOST_BEHIND)),
            left => Ok((e, first, behind(tokens, MOST_BEHIND, left))),
        },
        Err(fault) => Err(resumed(fault, tokens.len(), MOST_BEHIND)),
    }
}

/// An expression without commas.
#[tactic(auto, using(crate::proofs::Windows::full_level_rules))]
pub fn full_expression_at<'a>(
    alloc: Global,
    words: &[Word],
    level: Level,
    tokens: &'a [Token],
) -> Result<(Expr, &'a [Token]), ReadFault>
    ensures read { Gives (λ x. (plain_expr x.0, plain_list x.1.now)) result ((full_expression_at words.now level).parse (plain_list tokens.now)) }
    ensures shorter { IfOk result (λ x. length x.1.now ≤ length tokens.now) }
{
    if tokens.len() <= MOST {
        return expression_at(alloc, words, level, tokens);
    }
    match expression_at(alloc, words, level, window(tokens, MOST)) {
        Ok((e, rest)) => match rest.len() {
            0 => Err(passed(tokens.len(), MOST)),
            left => Ok((e, behind(tokens, MOST, left))),
        },
        Err(fault) => Err(resumed(fault, tokens.len(), MOST)),
    }
}
