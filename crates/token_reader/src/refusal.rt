//! The refusal of a text: at a token that isn't read, or at a place.

ghost use Rattle.std.specs.Prelude.{◌≡◌, OnOk};
ghost use Rattle.c_syntax.specs.Tokens.{plain_tokens};
ghost use Rattle.c_model.specs.TokenWords as form;
ghost use Rattle.c_model.specs.TokenWords.{place_at, limit_word, from_place, refused_at_place};
ghost use Rattle.token_reader.specs.Reading.{label, plain_list};
ghost use Rattle.token_reader.specs.Answers.{IsRefusal, RefusesFault, RefusesWith, RefusesWord};

use crate::token_word::refused_word;
use c_syntax::fault::{Limit, ReadFault};
use c_syntax::{FrontFault, Name, Place, Refusal, Token, Tokens, code};
use std::alloc::{AllocError, Global};

/// A refusal; out of memory exactly if there was none for its word.
pub fn refused(code: u8, place: Place, word: Result<Vec<u8>, AllocError>) -> FrontFault
    ensures word { RefusesWord code place word result }
    ensures sure { OnOk word (IsRefusal result) }
{
    match word {
        Ok(word) => FrontFault::Refused(Refusal {
            code,
            place,
            construct: Name::new(word),
        }),
        Err(_) => FrontFault::Memory,
    }
}

/// The tokens from a place on.
fn from_place(at: Place, tokens: &[Token]) -> &[Token]
    ensures { plain_list result.now ≡ from_place at (plain_list tokens.now) }
{
    let mut rest = tokens;
    'turn: while let [token, after @ ..] = rest {
        if token.place.offset == at.offset {
            return rest;
        }
        rest = after;
    }
    rest
}

/// A refusal with the word of the token at its place.
pub fn refused_at_place(alloc: Global, tokens: &Tokens, code: u8, place: Place) -> FrontFault
    ensures { RefusesWith (refused_at_place (plain_tokens tokens.now) code place) result }
{
    let rest = from_place(place, tokens.list.as_slice());
    let word = refused_word(alloc, tokens.names.as_slice(), rest);
    refused(code, place, word)
}

fn place_at(end: Place, tokens: &[Token]) -> Place
    ensures { result ≡ place_at end (plain_list tokens.now) }
{
    match tokens {
        [] => end,
        [token, ..] => token.place,
    }
}

/// The last n tokens; none where there aren't so many.
#[tactic(auto, using(crate::proofs::Refusals::last_is, crate::proofs::Refusals::last_none))]
fn last(n: usize, tokens: &[Token]) -> &[Token]
    ensures { plain_list result.now ≡ form.last n (plain_list tokens.now) }
{
    if n <= tokens.len() {
        let (_, rest) = tokens.split_at(tokens.len() - n);
        rest
    } else {
        &[]
    }
}

/// How a limit is named where it is passed.
fn limit_word(limit: Limit) -> &'static [u8]
    ensures { result.now ≡ limit_word (label limit) }
{
    match limit {
        Limit::Expression => b"expression",
        Limit::Nesting => b"nesting",
    }
}

/// The refusal for a fault.
pub fn refuse(alloc: Global, tokens: &Tokens, fault: ReadFault) -> FrontFault
    ensures { RefusesFault (plain_tokens tokens.now) fault result }
{
    match fault {
        ReadFault::At(n) => {
            let rest = last(n, tokens.list.as_slice());
            let word = refused_word(alloc, tokens.names.as_slice(), rest);
            refused(code::GRAMMAR, place_at(tokens.end, rest), word)
        }
        ReadFault::Over(limit, n) => {
            let rest = last(n, tokens.list.as_slice());
            let word = Vec::from_slice(alloc, limit_word(limit));
            refused(code::LIMIT, place_at(tokens.end, rest), word)
        }
        ReadFault::Memory => FrontFault::Memory,
    }
}
