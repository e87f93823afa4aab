//! The tokens of a C text with annotations.

ghost use Rattle.std.specs.Prelude.{◌≡◌, ◌≤◌, ◌<◌, ◌+◌, ◌++◌, length, drop, map, Ok, IfOk, OnOk, MatchResult, vec_len};
ghost use Rattle.c_syntax.specs.Tokens.{plain_token, plain_tokens};
ghost use Rattle.c_model.specs.Pieces.{Ended};
ghost use Rattle.c_model.specs.CTokens.{joined_string, with_string, add, closed, most_tokens, build, tokens_of};
ghost use Rattle.c_lexer.specs.Reading.{seen, read_of, Refuses, Gives};
ghost use Rattle.c_lexer.specs.Source.{FitsPiece};

mod chars;
mod comments;
mod digits;
mod directives;
mod literals;
mod pieces;
mod refusals;
mod words;

use self::chars::{signed_char, string_bytes};
use self::pieces::{mode_after, piece_at};
use self::refusals::refuse;
use crate::bytes::{behind, front};
use crate::names::{all_names, number_name};
use crate::places::{fresh_after, walk};
use crate::reading::{Reading, put};
use c_model::c_tokens::{Fault, Found, Mode, Piece};
use c_syntax::{FrontFault, Name, Place, Token, TokenKind, Tokens};
use indexmap::IndexSet;
use std::alloc::{AllocError, Global};

const MOST_TOKENS: usize = 200_000;

/// What is after the first byte.
fn tail(bytes: &[u8]) -> &[u8]
    ensures { result.now ≡ drop 1 bytes.now }
{
    match bytes {
        [] => bytes,
        [_, rest @ ..] => rest,
    }
}

/// Puts back the last token, with a string after it, which joins it where that is a string.
fn join(list: &mut Vec<Token>, last: Token, place: Place, bytes: Vec<u8>) -> Result<(), AllocError>
    ensures ok { OnOk result (map plain_token list.new.items ≡ map plain_token list.old.items ++ joined_string (plain_token last) place bytes.items) }
    ensures most { OnOk result (vec_len list.new ≤ vec_len list.old + 2) }
    ensures least { OnOk result (vec_len list.old + 1 ≤ vec_len list.new) }
{
    match last {
        Token {
            place: first,
            kind: TokenKind::Chars(name),
        } => {
            let mut all = name.into_bytes();
            all.extend_from_slice(&bytes)?;
            list.push(Token {
                place: first,
                kind: TokenKind::Chars(Name::new(all)),
            })?;
        }
        last => {
            list.push(last)?;
            list.push(Token {
                place,
                kind: TokenKind::Chars(Name::new(bytes)),
            })?;
        }
    }
    Ok(())
}

/// Adds a string.
fn put_string(list: &mut Vec<Token>, place: Place, bytes: Vec<u8>) -> Result<(), AllocError>
    ensures ok { OnOk result (map plain_token list.new.items ≡ with_string (map plain_token list.old.items) place bytes.items) }
    ensures most { OnOk result (vec_len list.new ≤ vec_len list.old + 1) }
    ensures least { OnOk result (vec_len list.old ≤ vec_len list.new) }
{
    match list.pop() {
        None => {
            list.push(Token {
                place,
                kind: TokenKind::Chars(Name::new(bytes)),
            })?;
            Ok(())
        }
        Some(last) => join(list, last, place, bytes),
    }
}

/// Adds the token of a piece, if it has one.
#[tactic(auto, unfolding(c_model::specs::CTokens::add))]
fn add(
    alloc: Global,
    reading: &mut Reading,
    place: Place,
    piece: Piece,
    bytes: &[u8],
) -> Result<(), AllocError>
    requires fits { FitsPiece piece }
    requires fewer { length (seen reading.old.names) ≤ vec_len reading.old.list }
    requires room { vec_len reading.old.list ≤ most_tokens }
    ensures ok { OnOk result (read_of reading.new ≡ add (read_of reading.old) place piece bytes.now) }
    ensures fewer { OnOk result (length (seen reading.new.names) ≤ vec_len reading.new.list) }
{
    match piece {
        Piece::Blank => Ok(()),
        Piece::Open(_) => put(reading, place, TokenKind::AnnotOpen),
        Piece::Close => put(reading, place, TokenKind::AnnotClose),
        Piece::Word => {
            let n = number_name(alloc, &mut reading.names, bytes)?;
            put(reading, place, TokenKind::Word(n as u32))
        }
        Piece::Number(value, t) => put(reading, place, TokenKind::Number(value as i128, t)),
        Piece::Letter(byte) => put(reading, place, TokenKind::Letter(signed_char(byte))),
        Piece::Chars => {
            let values = string_bytes(alloc, tail(bytes))?;
            put_string(&mut reading.list, place, values)
        }
        Piece::Mark(mark) => put(reading, place, TokenKind::Mark(mark)),
    }
}

/// The end of the text, which ends an annotation with `//@`.
fn close(reading: &mut Reading, end: Place, mode: Mode) -> Result<(), AllocError>
    ensures { OnOk result (read_of reading.new ≡ closed (read_of reading.old) end mode) }
{
    match mode {
        Mode::Code | Mode::Block => Ok(()),
        Mode::Line => put(reading, end, TokenKind::AnnotClose),
    }
}

#[tactic(auto, unfolding(c_model::specs::CTokens::build))]
fn finish(alloc: Global, reading: Reading, end: Place, mode: Mode) -> Result<Tokens, FrontFault>
    ensures { Gives result (build (read_of reading) (Ended end mode)) }
{
    let mut reading = reading;
    close(&mut reading, end, mode)?;
    if reading.list.len() > MOST_TOKENS {
        return Err(refuse(alloc, end, Fault::Limit, &[]));
    }
    let Reading { list, names } = reading;
    let names = all_names(alloc, names)?;
    Ok(Tokens { list, names, end })
}

/// The tokens of a C text with annotations, or the refusal of its first fault: with code 1 at a byte that begins no token, with
/// code 2 at a comment, annotation, literal, name or directive of no right form, with code 3 at a word or directive that is outside
/// the profile, and with code 11 at one token too many.
pub fn tokens(alloc: Global, text: &[u8]) -> Result<Tokens, FrontFault>
    requires { length text.now < 4294967295 }
    ensures exact { MatchResult result (λ tokens. tokens_of text.now ≡ Ok (plain_tokens tokens)) (λ fault. Refuses fault (tokens_of text.now)) }
{
    let mut reading = Reading {
        list: Vec::new(alloc),
        names: IndexSet::new(alloc),
    };
    let mut place = Place {
        line: 1,
        column: 1,
        offset: 0,
    };
    let mut fresh = true;
    let mut mode = Mode::Code;
    let mut pos = 0;
    'turn: while pos < text.len() {
        let rest = behind(text, pos);
        match piece_at(mode, fresh, rest) {
            Err(fault) => return Err(refuse(alloc, place, fault, rest)),
            Ok(Found { piece, more }) => {
                let bytes = front(rest, more + 1);
                add(alloc, &mut reading, place, piece, bytes)?;
                if reading.list.len() > MOST_TOKENS {
                    return Err(refuse(alloc, place, Fault::Limit, &[]));
                }
                place = walk(place, bytes);
                fresh = fresh_after(fresh, bytes);
                mode = mode_after(mode, piece);
                pos += more + 1;
            }
        }
    }
    finish(alloc, reading, place, mode)
}
