//! Globals and literals.

ghost use Rattle.std.specs.Prelude.{◌≡◌, map, IfErr};
ghost use Rattle.mon_syntax.specs.Grammar.{length_of_global, zeros, literal, global, one_more_global};
ghost use Rattle.mon_parser.specs.ParsedTrees.{plain_name, plain_global};
ghost use Rattle.mon_parser.specs.Reading.{named_literal, literal_value, more_globals};
ghost use Rattle.token_reader.specs.Reading.{Gives, TakesNoMemory, plain_list};

use crate::call::copy;
use crate::kinds::{ASSIGN, CHAR, CONST, LEFT_BRACKET, RIGHT_BRACKET, SEMICOLON, STATIC};
use crate::parsed::{NameUse, ParsedGlobal};
use crate::terminals::{name, next_is, number, skip, text};
use c_syntax::fault::ReadFault;
use c_syntax::{Place, Token};
use mon_syntax::Word;
use std::alloc::Global;

/// `"[" NUMBER "]"`, the number with its place.
#[tactic(auto, unfolding(mon_syntax::specs::Grammar::length_of_global))]
fn length_of_global<'a>(
    words: &[Word],
    tokens: &'a [Token],
) -> Result<(i128, Place, &'a [Token]), ReadFault>
    ensures read { Gives (λ x. ((x.0, x.1), plain_list x.2.now)) result ((length_of_global words.now).parse (plain_list tokens.now)) }
    ensures sure { IfErr result TakesNoMemory }
{
    let (_, rest) = skip(words, LEFT_BRACKET, tokens)?;
    let (size, place, rest) = number(rest)?;
    let (_, rest) = skip(words, RIGHT_BRACKET, rest)?;
    Ok((size, place, rest))
}

/// After `static`, for zeros.
#[tactic(auto, unfolding(mon_syntax::specs::Grammar::zeros))]
fn zeros<'a>(words: &[Word], tokens: &'a [Token]) -> Result<(ParsedGlobal, &'a [Token]), ReadFault>
    ensures read { Gives (λ x. (plain_global x.0, plain_list x.1.now)) result ((zeros words.now).parse (plain_list tokens.now)) }
    ensures sure { IfErr result TakesNoMemory }
{
    let (_, rest) = skip(words, CHAR, tokens)?;
    let (name, rest) = name(words, rest)?;
    let (size, place, rest) = length_of_global(words, rest)?;
    let (_, rest) = skip(words, SEMICOLON, rest)?;
    let global = ParsedGlobal {
        name,
        place,
        size,
        literal: None,
    };
    Ok((global, rest))
}

/// `"=" STRING ";"`, after the name of a literal and its number.
#[tactic(auto, unfolding(crate::specs::Reading::literal_value))]
fn literal_value<'a>(
    alloc: Global,
    words: &[Word],
    name: NameUse,
    size: i128,
    place: Place,
    tokens: &'a [Token],
) -> Result<(ParsedGlobal, &'a [Token]), ReadFault>
    ensures { Gives (λ x. (plain_global x.0, plain_list x.1.now)) result ((literal_value words.now (plain_name name) size place).parse
        (plain_list tokens.now)) }
{
    let (_, rest) = skip(words, ASSIGN, tokens)?;
    let (bytes, _, rest) = text(rest)?;
    let (_, rest) = skip(words, SEMICOLON, rest)?;
    let global = ParsedGlobal {
        name,
        place,
        size,
        literal: Some(copy(alloc, bytes)?),
    };
    Ok((global, rest))
}

/// A literal after `const char`.
#[tactic(auto, unfolding(crate::specs::Reading::named_literal, crate::specs::Reading::literal_value))]
fn named_literal<'a>(
    alloc: Global,
    words: &[Word],
    tokens: &'a [Token],
) -> Result<(ParsedGlobal, &'a [Token]), ReadFault>
    ensures { Gives (λ x. (plain_global x.0, plain_list x.1.now)) result ((named_literal words.now).parse (plain_list tokens.now)) }
{
    let (name, rest) = name(words, tokens)?;
    let (size, place, rest) = length_of_global(words, rest)?;
    literal_value(alloc, words, name, size, place, rest)
}

/// After `static`, for a literal.
#[tactic(auto, unfolding(mon_syntax::specs::Grammar::literal, crate::specs::Reading::named_literal, crate::specs::Reading::literal_value))]
fn literal<'a>(
    alloc: Global,
    words: &[Word],
    tokens: &'a [Token],
) -> Result<(ParsedGlobal, &'a [Token]), ReadFault>
    ensures { Gives (λ x. (plain_global x.0, plain_list x.1.now)) result ((literal words.now).parse (plain_list tokens.now)) }
{
    let (_, rest) = skip(words, CONST, tokens)?;
    let (_, rest) = skip(words, CHAR, rest)?;
    named_literal(alloc, words, rest)
}

/// A global or a literal.
#[tactic(auto, unfolding(mon_syntax::specs::Grammar::global))]
fn global<'a>(
    alloc: Global,
    words: &[Word],
    tokens: &'a [Token],
) -> Result<(ParsedGlobal, &'a [Token]), ReadFault>
    ensures { Gives (λ x. (plain_global x.0, plain_list x.1.now)) result ((global words.now).parse (plain_list tokens.now)) }
{
    let (_, rest) = skip(words, STATIC, tokens)?;
    if next_is(words, CHAR, rest) {
        zeros(words, rest)
    } else {
        literal(alloc, words, rest)
    }
}

/// A global after those that are read.
#[tactic(auto, unfolding(mon_syntax::specs::Grammar::one_more_global))]
fn one_more_global<'a>(
    alloc: Global,
    words: &[Word],
    all: Vec<ParsedGlobal>,
    tokens: &'a [Token],
) -> Result<(Vec<ParsedGlobal>, &'a [Token]), ReadFault>
    ensures { Gives (λ x. (map plain_global x.0.items, plain_list x.1.now)) result ((one_more_global words.now (map plain_global all.items)).parse
        (plain_list tokens.now)) }
{
    let mut all = all;
    let (one, rest) = global(alloc, words, tokens)?;
    all.push(one)?;
    Ok((all, rest))
}

/// The globals after those that are read.
#[tactic(auto, using(crate::proofs::Steps::globals_rules))]
pub fn more_globals<'a>(
    alloc: Global,
    words: &[Word],
    all: Vec<ParsedGlobal>,
    tokens: &'a [Token],
) -> Result<(Vec<ParsedGlobal>, &'a [Token]), ReadFault>
    ensures { Gives (λ x. (map plain_global x.0.items, plain_list x.1.now)) result ((more_globals words.now (map plain_global all.items)).parse
        (plain_list tokens.now)) }
{
    let mut all = all;
    let mut rest = tokens;
    'turn: while next_is(words, STATIC, rest) {
        let (more, after) = one_more_global(alloc, words, all, rest)?;
        all = more;
        rest = after;
    }
    Ok((all, rest))
}
