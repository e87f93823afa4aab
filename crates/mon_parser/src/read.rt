//! From the tokens of a monitored text to its tree, or to its refusal.

ghost use Rattle.std.specs.Prelude.{◌≡◌, MatchResult};
ghost use Rattle.grammar.specs.Exact.{AtMostOne, FrontsBegin, OneLimit, ReadingsBegin};
ghost use Rattle.c_syntax.specs.Tokens.{plain_tokens};
ghost use Rattle.mon_syntax.specs.Grammar.{Vocabulary, text};
ghost use Rattle.mon_syntax.specs.Spelled.{IsRead};
ghost use Rattle.mon_parser.specs.ParsedTrees.{plain_program};
ghost use Rattle.mon_parser.specs.Answers.{Refuses};

use crate::parsed::ParsedProgram;
use crate::program::text;
use crate::vocabulary::vocabulary;
use c_syntax::fault::ReadFault;
use c_syntax::{FrontFault, Tokens};
use std::alloc::Global;
use token_reader::refusal::refuse;
use token_reader::terminals::left;

/// The tree of the tokens of a monitored text, or their refusal: with code 4 at the first token that can't follow those
/// before it, and with code 11 at a parenthesis or a statement that passes its limit.
pub fn read_tokens(alloc: Global, tokens: &Tokens) -> Result<ParsedProgram, FrontFault>
    ensures { MatchResult result (λ p. IsRead (plain_tokens tokens.now) (plain_program p)) (λ e. Refuses e (plain_tokens tokens.now)) }
{
    let words = vocabulary(alloc, tokens.names.as_slice())?;
    match text(alloc, words.as_slice(), tokens.list.as_slice()) {
        Ok((program, rest)) => {
            if rest.is_empty() {
                Ok(program)
            } else {
                Err(refuse(alloc, tokens, ReadFault::At(left(rest))))
            }
        }
        Err(fault) => Err(refuse(alloc, tokens, fault)),
    }
}

/// Tokens are read in one way at most. What is read begins a text, and so does what stands before tokens that, with it, begin one.
/// No token passes two limits.
pub fn one_reading()
    ensures one { (words : Vocabulary) → AtMostOne (text words) }
    ensures begun { (words : Vocabulary) → ReadingsBegin (text words) }
    ensures fronts { (words : Vocabulary) → FrontsBegin (text words) }
    ensures limits { (words : Vocabulary) → OneLimit (text words) }
{}
