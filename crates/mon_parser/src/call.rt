//! Calls and their arguments.

ghost use Rattle.std.specs.Prelude.{◌≡◌, map, IfOk};
ghost use Rattle.mon_syntax.specs.Grammar.{argument, next_argument, some_arguments, arguments, call_of};
ghost use Rattle.mon_parser.specs.ParsedTrees.{plain_name, plain_arg, plain_call};
ghost use Rattle.mon_parser.specs.Reading.{more_arguments, text_argument, value_argument};
ghost use Rattle.token_reader.specs.Reading.{Gives, plain_list};

use crate::expression::expression;
use crate::kinds::{COMMA, LEFT_PAREN, NUMBER, RIGHT_PAREN, TEXT};
use crate::parsed::{NameUse, ParsedArg, ParsedCall};
use crate::terminals::{next_begins_argument, next_is, number, skip, text};
use c_syntax::fault::ReadFault;
use c_syntax::{Name, Token};
use mon_syntax::Word;
use std::alloc::{AllocError, Global};

/// A copy of the bytes.
pub fn copy(alloc: Global, name: &Name) -> Result<Name, AllocError>
    ensures { IfOk result (λ x. x ≡ name.now) }
{
    Ok(Name::new(Vec::from_slice(alloc, name.bytes())?))
}

/// `STRING`
#[tactic(auto, unfolding(crate::specs::Reading::text_argument))]
fn text_argument<'a>(
    alloc: Global,
    words: &[Word],
    tokens: &'a [Token],
) -> Result<(ParsedArg, &'a [Token]), ReadFault>
    ensures { Gives (λ x. (plain_arg x.0, plain_list x.1.now)) result ((text_argument words.now).parse (plain_list tokens.now)) }
{
    let (bytes, place, rest) = text(tokens)?;
    Ok((ParsedArg::Text(place, copy(alloc, bytes)?), rest))
}

/// `expr`
#[tactic(auto, unfolding(crate::specs::Reading::value_argument))]
fn value_argument<'a>(
    alloc: Global,
    words: &[Word],
    tokens: &'a [Token],
) -> Result<(ParsedArg, &'a [Token]), ReadFault>
    ensures { Gives (λ x. (plain_arg x.0, plain_list x.1.now)) result ((value_argument words.now).parse (plain_list tokens.now)) }
{
    let (value, rest) = expression(alloc, words, tokens)?;
    Ok((ParsedArg::Value(value), rest))
}

/// `expr | NUMBER | STRING`
#[tactic(auto, unfolding(mon_syntax::specs::Grammar::argument, crate::specs::Reading::text_argument, crate::specs::Reading::value_argument))]
fn argument<'a>(
    alloc: Global,
    words: &[Word],
    tokens: &'a [Token],
) -> Result<(ParsedArg, &'a [Token]), ReadFault>
    ensures { Gives (λ x. (plain_arg x.0, plain_list x.1.now)) result ((argument words.now).parse (plain_list tokens.now)) }
{
    if next_is(words, NUMBER, tokens) {
        let (value, place, rest) = number(tokens)?;
        Ok((ParsedArg::Number(place, value), rest))
    } else if next_is(words, TEXT, tokens) {
        text_argument(alloc, words, tokens)
    } else {
        value_argument(alloc, words, tokens)
    }
}

/// `"," argument`, after those that are read.
#[tactic(auto, unfolding(mon_syntax::specs::Grammar::next_argument))]
fn next_argument<'a>(
    alloc: Global,
    words: &[Word],
    all: Vec<ParsedArg>,
    tokens: &'a [Token],
) -> Result<(Vec<ParsedArg>, &'a [Token]), ReadFault>
    ensures { Gives (λ x. (map plain_arg x.0.items, plain_list x.1.now)) result
        ((next_argument words.now (map plain_arg all.items)).parse (plain_list tokens.now)) }
{
    let mut all = all;
    let (_, rest) = skip(words, COMMA, tokens)?;
    let (one, rest) = argument(alloc, words, rest)?;
    all.push(one)?;
    Ok((all, rest))
}

/// The arguments after those that are read.
#[tactic(auto, using(crate::proofs::Steps::arguments_rules))]
fn more_arguments<'a>(
    alloc: Global,
    words: &[Word],
    all: Vec<ParsedArg>,
    tokens: &'a [Token],
) -> Result<(Vec<ParsedArg>, &'a [Token]), ReadFault>
    ensures { Gives (λ x. (map plain_arg x.0.items, plain_list x.1.now)) result
        ((more_arguments words.now (map plain_arg all.items)).parse (plain_list tokens.now)) }
{
    let mut all = all;
    let mut rest = tokens;
    'turn: while next_is(words, COMMA, rest) {
        let (more, after) = next_argument(alloc, words, all, rest)?;
        all = more;
        rest = after;
    }
    Ok((all, rest))
}

/// `argument { "," argument }`
#[tactic(auto, unfolding(mon_syntax::specs::Grammar::some_arguments, crate::specs::Reading::more_arguments))]
fn some_arguments<'a>(
    alloc: Global,
    words: &[Word],
    tokens: &'a [Token],
) -> Result<(Vec<ParsedArg>, &'a [Token]), ReadFault>
    ensures { Gives (λ x. (map plain_arg x.0.items, plain_list x.1.now)) result ((some_arguments words.now).parse (plain_list tokens.now)) }
{
    let (first, rest) = argument(alloc, words, tokens)?;
    let mut all = Vec::new(alloc);
    all.push(first)?;
    more_arguments(alloc, words, all, rest)
}

/// The arguments of a call, at least one where it is asked for.
#[tactic(auto, unfolding(mon_syntax::specs::Grammar::arguments))]
fn arguments<'a>(
    alloc: Global,
    words: &[Word],
    some: bool,
    tokens: &'a [Token],
) -> Result<(Vec<ParsedArg>, &'a [Token]), ReadFault>
    ensures { Gives (λ x. (map plain_arg x.0.items, plain_list x.1.now)) result ((arguments words.now some).parse (plain_list tokens.now)) }
{
    if some || next_begins_argument(words, tokens) {
        some_arguments(alloc, words, tokens)
    } else {
        Ok((Vec::new(alloc), tokens))
    }
}

/// `"(" .. ")"`, of the name before it.
#[tactic(auto, unfolding(mon_syntax::specs::Grammar::call_of))]
pub fn call_of<'a>(
    alloc: Global,
    words: &[Word],
    some: bool,
    callee: NameUse,
    tokens: &'a [Token],
) -> Result<(ParsedCall, &'a [Token]), ReadFault>
    ensures { Gives (λ x. (plain_call x.0, plain_list x.1.now)) result ((call_of words.now some (plain_name callee)).parse (plain_list tokens.now)) }
{
    let (place, rest) = skip(words, LEFT_PAREN, tokens)?;
    let (arguments, rest) = arguments(alloc, words, some, rest)?;
    let (_, rest) = skip(words, RIGHT_PAREN, rest)?;
    let call = ParsedCall {
        callee,
        place,
        arguments,
    };
    Ok((call, rest))
}
