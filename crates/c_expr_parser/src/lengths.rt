//! The brackets of declarators (C99 6.7.5.2).

ghost use Rattle.std.specs.Prelude.{◌≡◌, ◌≤◌, ◌<◌, length, IfOk};
ghost use Rattle.c_syntax.specs.Ctypes.{plain_length};
ghost use Rattle.c_model.specs.ExpressionGrammar.{expression, length_or_none, bracket, brackets};
ghost use Rattle.c_expr_parser.specs.Reading.{plain_brackets, more_brackets};
ghost use Rattle.token_reader.specs.Reading.{Gives, plain_list};

use crate::declarator::{Bracket, pushed};
use crate::expression::written_length;
use crate::kinds::{LEFT_BRACKET, RIGHT_BRACKET};
use crate::terminals::{kept, next_begins_expression, next_is, skip};
use c_model::vocabulary::Word;
use c_syntax::fault::ReadFault;
use c_syntax::{Length, Token};
use smallvec::SmallVec;
use std::alloc::Global;

/// `[ comma ]`
#[tactic(auto, unfolding(c_model::specs::ExpressionGrammar::length_or_none))]
fn length_or_none<'a>(
    alloc: Global,
    words: &[Word],
    tokens: &'a [Token],
) -> Result<(Length, &'a [Token]), ReadFault>
    ensures read { Gives (λ x. (plain_length x.0, plain_list x.1.now)) result
        ((length_or_none words.now (expression words.now)).parse (plain_list tokens.now)) }
    ensures shorter { IfOk result (λ x. length x.1.now ≤ length tokens.now) }
{
    if next_begins_expression(words, tokens) {
        written_length(alloc, words, tokens)
    } else {
        Ok((Length::Left, tokens))
    }
}

/// `"[" [ comma ] "]"`
#[tactic(auto, unfolding(c_model::specs::ExpressionGrammar::bracket))]
fn bracket<'a>(
    alloc: Global,
    words: &[Word],
    tokens: &'a [Token],
) -> Result<(Bracket, &'a [Token]), ReadFault>
    ensures read { Gives (λ x. (plain_length x.0.length, plain_list x.1.now)) result
        ((bracket words.now (length_or_none words.now (expression words.now))).parse (plain_list tokens.now)) }
    ensures shorter { IfOk result (λ x. length x.1.now < length tokens.now) }
{
    let (_, rest) = skip(words, LEFT_BRACKET, tokens)?;
    let (length, rest) = length_or_none(alloc, words, rest)?;
    let (length, (_, rest)) = kept(length, skip(words, RIGHT_BRACKET, rest))?;
    Ok((Bracket { length }, rest))
}

/// The brackets of a declarator.
#[tactic(auto, using(crate::proofs::BracketTurns::brackets_rules))]
pub fn brackets<'a>(
    alloc: Global,
    words: &[Word],
    tokens: &'a [Token],
) -> Result<(SmallVec<Bracket, 4>, &'a [Token]), ReadFault>
    ensures read { Gives (λ x. (plain_brackets x.0.items, plain_list x.1.now)) result
        ((brackets words.now (length_or_none words.now (expression words.now))).parse (plain_list tokens.now)) }
    ensures shorter { IfOk result (λ x. length x.1.now ≤ length tokens.now) }
{
    let mut all = SmallVec::new(alloc);
    let mut rest = tokens;
    'turn: while next_is(words, LEFT_BRACKET, rest) {
        let (before, (bracket, after)) = kept(all, bracket(alloc, words, rest))?;
        all = pushed(before, bracket)?;
        rest = after;
    }
    Ok((all, rest))
}
