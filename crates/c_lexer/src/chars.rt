//! String literals: characters, and escapes of three octal digits.

ghost use Rattle.std.specs.Prelude.{◌≡◌, ◌≤◌, ◌<◌, ◌+◌, length, drop, [], Some, None, is_some, unwrap_or, IfSome, IfOk, MatchOption};
ghost use Rattle.c_model.specs.MonitoredTokens.{octal_byte, in_front, chars_of, escape_of, string_at};
ghost use Rattle.c_lexer.specs.Reading.{FitsPiece};

use crate::bytes::{behind, front, is_octal, is_plain, string_len};
use c_model::monitored_tokens::{Fault, Found, Piece};
use std::alloc::{AllocError, Global};

/// The byte of an escape with these digits.
fn octal_byte(a: u8, b: u8, c: u8) -> Option<u8>
    ensures { result ≡ octal_byte a b c }
{
    if !(is_octal(a) && is_octal(b) && is_octal(c)) {
        return None;
    }
    let value = 64 * (a as u16 - 48) + 8 * (b as u16 - 48) + (c as u16 - 48);
    if value <= 255 {
        Some(value as u8)
    } else {
        None
    }
}

/// The byte of the escape after a `\`.
fn escape_at(bytes: &[u8]) -> Option<u8>
    ensures value { MatchOption result (escape_of bytes.now ≡ None) (λ c. escape_of bytes.now ≡ in_front (Some c) (chars_of (drop 3 bytes.now))) }
    ensures within { IfSome result (λ _. 3 ≤ length bytes.now) }
{
    match bytes {
        [a, b, c, ..] => octal_byte(*a, *b, *c),
        _ => None,
    }
}

/// The byte of the character or escape at the front, and how many bytes this takes.
fn char_at(bytes: &[u8]) -> Option<(u8, usize)>
    requires { 0 < length bytes.now }
    ensures value { MatchOption result (chars_of bytes.now ≡ None) (λ c. chars_of bytes.now ≡ in_front (Some c.0) (chars_of (drop c.1 bytes.now))) }
    ensures some { IfSome result (λ c. 0 < c.1) }
    ensures within { IfSome result (λ c. c.1 ≤ length bytes.now) }
{
    match bytes {
        [] => None,
        [b, rest @ ..] => {
            if is_plain(*b) {
                Some((*b, 1))
            } else if *b == 92 {
                match escape_at(rest) {
                    None => None,
                    Some(byte) => Some((byte, 4)),
                }
            } else {
                None
            }
        }
    }
}

/// Whether the bytes are characters and escapes.
fn are_chars(bytes: &[u8]) -> bool
    ensures { result ≡ is_some (chars_of bytes.now) }
{
    let mut rest = bytes;
    'turn: while rest.len() > 0 {
        let Some(found) = char_at(rest) else {
            return false;
        };
        rest = behind(rest, found.1);
    }
    true
}

/// The bytes that characters and escapes stand for; none where the bytes are not these.
pub fn chars_of(alloc: Global, bytes: &[u8]) -> Result<Vec<u8>, AllocError>
    ensures { IfOk result (λ v. v.items ≡ unwrap_or (chars_of bytes.now) []) }
{
    let mut values = Vec::new(alloc);
    let mut rest = bytes;
    'turn: while rest.len() > 0 {
        let Some(found) = char_at(rest) else {
            return Ok(Vec::new(alloc));
        };
        values.push(found.0)?;
        rest = behind(rest, found.1);
    }
    Ok(values)
}

/// A string, given what is after its first quote.
#[tactic(auto, unfolding(c_model::specs::MonitoredTokens::string_at))]
pub fn string_at(bytes: &[u8]) -> Result<Found, Fault>
    ensures value { result ≡ string_at bytes.now }
    ensures within { IfOk result (λ x. x.more ≤ length bytes.now) }
    ensures fits { IfOk result (λ x. FitsPiece x.piece) }
{
    let n = string_len(bytes);
    if n < bytes.len() && are_chars(front(bytes, n)) {
        Ok(Found {
            piece: Piece::Chars,
            more: n + 1,
        })
    } else {
        Err(Fault::Chars)
    }
}
