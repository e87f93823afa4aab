//! The tokens of a monitored text.

ghost use Rattle.std.specs.Prelude.{◌≡◌, ◌≤◌, ◌<◌, ◌+◌, length, Ok, IfOk, OnOk, MatchResult};
ghost use Rattle.c_syntax.specs.Tokens.{plain_tokens};
ghost use Rattle.c_model.specs.MonitoredTokens.{inside, add, build, Ended, monitored_tokens};
ghost use Rattle.c_lexer.specs.Reading.{FitsPiece, seen, read_of, Refuses, Gives};

use crate::bytes::{behind, front, string_len};
use crate::chars::chars_of;
use crate::names::{all_names, number_name};
use crate::pieces::piece_at;
use crate::places::{fresh_after, walk};
use crate::reading::{Reading, put};
use crate::refusals::refuse;
use c_model::monitored_tokens::{Found, Piece};
use c_syntax::{FrontFault, Name, Place, TokenKind, Tokens};
use indexmap::IndexSet;
use std::alloc::{AllocError, Global};

/// What stands between the quotes of a string.
fn inside(bytes: &[u8]) -> &[u8]
    ensures { result.now ≡ inside bytes.now }
{
    match bytes {
        [] => bytes,
        [_, rest @ ..] => front(rest, string_len(rest)),
    }
}

/// Adds the token of a piece, if it has one.
#[tactic(auto, unfolding(c_model::specs::MonitoredTokens::add))]
fn add(
    alloc: Global,
    reading: &mut Reading,
    place: Place,
    piece: Piece,
    bytes: &[u8],
) -> Result<(), AllocError>
    requires fits { FitsPiece piece }
    requires few { length (seen reading.old.names) < 4294967295 }
    ensures ok { OnOk result (read_of reading.new ≡ add (read_of reading.old) place piece bytes.now) }
    ensures one { OnOk result (length (seen reading.new.names) ≤ length (seen reading.old.names) + 1) }
{
    match piece {
        Piece::Blank => Ok(()),
        Piece::Word => {
            let n = number_name(alloc, &mut reading.names, bytes)?;
            put(reading, place, TokenKind::Word(n as u32))
        }
        Piece::Number(value) => put(reading, place, TokenKind::Number(value as i128, None)),
        Piece::Chars => {
            let values = chars_of(alloc, inside(bytes))?;
            put(reading, place, TokenKind::Chars(Name::new(values)))
        }
        Piece::Mark(mark) => put(reading, place, TokenKind::Mark(mark)),
        Piece::Head => put(reading, place, TokenKind::Head(0, 0)),
    }
}

#[tactic(auto, unfolding(c_model::specs::MonitoredTokens::build))]
fn finish(alloc: Global, reading: Reading, end: Place) -> Result<Tokens, FrontFault>
    ensures { Gives result (build (read_of reading) (Ended end)) }
{
    let Reading { list, names } = reading;
    let names = all_names(alloc, names)?;
    Ok(Tokens { list, names, end })
}

/// The tokens of a monitored text, or the refusal of its first fault: with code 1 at a byte that begins no token, and with
/// code 2 at a name, number, string or directive of no right form.
pub fn mon_tokens(alloc: Global, text: &[u8]) -> Result<Tokens, FrontFault>
    requires { length text.now < 4294967295 }
    ensures exact { MatchResult result (λ tokens. monitored_tokens text.now ≡ Ok (plain_tokens tokens)) (λ fault. Refuses fault (monitored_tokens text.now)) }
{
    let mut reading = Reading {
        list: Vec::new(alloc),
        names: IndexSet::new(alloc),
    };
    let mut place = Place {
        line: 1,
        column: 1,
        offset: 0,
    };
    let mut fresh = true;
    let mut pos = 0;
    'turn: while pos < text.len() {
        let rest = behind(text, pos);
        match piece_at(fresh, rest) {
            Err(fault) => return Err(refuse(alloc, place, fault, rest)),
            Ok(Found { piece, more }) => {
                let bytes = front(rest, more + 1);
                add(alloc, &mut reading, place, piece, bytes)?;
                place = walk(place, bytes);
                fresh = fresh_after(fresh, bytes);
                pos += more + 1;
            }
        }
    }
    finish(alloc, reading, place)
}
