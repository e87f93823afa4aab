//! From the tokens of a text to the expression at a place.

ghost use Rattle.std.specs.Prelude.{◌≡◌, ◌≤◌, length, IfOk, MatchResult};
ghost use Rattle.grammar.specs.Exact.{AtMostOne, ReadingsBegin, FrontsBegin, Same};
ghost use Rattle.c_syntax.specs.Expressions.{plain_expr};
ghost use Rattle.c_syntax.specs.Tokens.{plain_tokens};
ghost use Rattle.c_model.specs.declared.operands.Level as inner;
ghost use Rattle.c_model.specs.Vocabulary.{Vocabulary};
ghost use Rattle.c_model.specs.ExpressionGrammar.{expression_at, expression_of};
ghost use Rattle.c_expr_parser.specs.declared.level.Level as loosest;
ghost use Rattle.c_expr_parser.specs.Levels.{leveled};
ghost use Rattle.c_expr_parser.specs.Answers.{IsReadAt, RefusesAt};
ghost use Rattle.token_reader.specs.Reading.{Gives, plain_list};

use crate::full::{full_expression, full_expression_at};
use crate::level::Level;
use crate::vocabulary::{vocabulary, with_types};
use c_model::operands::Level as WithoutCommas;
use c_model::vocabulary::Word;
use c_syntax::fault::ReadFault;
use c_syntax::{Expr, FrontFault, Token, Tokens};
use std::alloc::Global;
use token_reader::refusal::refuse;

/// An expression in which this is the loosest operator.
fn leveled<'a>(
    alloc: Global,
    words: &[Word],
    level: Level,
    tokens: &'a [Token],
) -> Result<(Expr, &'a [Token]), ReadFault>
    ensures read { Gives (λ x. (plain_expr x.0, plain_list x.1.now)) result ((leveled words.now level).parse (plain_list tokens.now)) }
    ensures shorter { IfOk result (λ x. length x.1.now ≤ length tokens.now) }
{
    match level {
        Level::Comma => full_expression(alloc, words, tokens),
        Level::Assign => full_expression_at(alloc, words, WithoutCommas::Assignment, tokens),
        Level::Cond => full_expression_at(alloc, words, WithoutCommas::Conditional, tokens),
    }
}

/// The expression that stands at a place of the tokens, counted from 0, in which this is the loosest operator, and the place of
/// the first token after it, where earlier `typedef`s declare these names; or its refusal, with code 4 at the first token that
/// can't follow those before it, and with code 11 at the 401st of an expression.
pub fn read_expr(
    alloc: Global,
    tokens: &Tokens,
    at: usize,
    level: Level,
    types: &[u32],
) -> Result<(Expr, usize), FrontFault>
    requires { at ≤ length tokens.now.list.items }
    ensures { MatchResult result (λ x. IsReadAt (plain_tokens tokens.now) at level types.now (plain_expr x.0) x.1)
        (λ e. RefusesAt (plain_tokens tokens.now) at level types.now e) }
{
    let words = vocabulary(alloc, tokens.names.as_slice())?;
    let words = with_types(words, types);
    let list = tokens.list.as_slice();
    let (_, rest) = list.split_at(at);
    match leveled(alloc, words.as_slice(), level, rest) {
        Ok((e, behind)) => Ok((e, list.len() - behind.len())),
        Err(fault) => Err(refuse(alloc, tokens, fault)),
    }
}

/// Tokens are at most one expression, an expression begins one, what begins the tokens that begin one begins one, and an expression
/// without commas is what its production says.
pub fn one_expression()
    ensures one { (words : Vocabulary) (level : loosest.Level) → AtMostOne (leveled words level) }
    ensures begun { (words : Vocabulary) (level : loosest.Level) → ReadingsBegin (leveled words level) }
    ensures fronts { (words : Vocabulary) (level : loosest.Level) → FrontsBegin (leveled words level) }
    ensures form { (words : Vocabulary) (level : inner.Level) → Same (expression_at words level) (expression_of words (expression_at words) level) }
{}
