//! Character and string literals.

ghost use Rattle.std.specs.Prelude.{◌≡◌, ◌≤◌, ◌<◌, ◌+◌, length, take, drop, option_map, IfSome, IfOk};
ghost use Rattle.c_model.specs.Literals.{digits_at, simple_escape, escape_at, unit_at, letter_of, signed_char, unit_in, string_len, string_bytes};
ghost use Rattle.c_lexer.specs.Source.{base_of};

use super::comments::ends_block;
use super::digits::{Base, digits_at};
use crate::bytes::{begins_with, behind, front, is_octal};
use c_model::c_tokens::Mode;
use std::alloc::{AllocError, Global};

/// What the letter or mark after a `\` stands for.
fn simple_escape(c: u8) -> Option<u8>
    ensures { result ≡ simple_escape c }
{
    if c == 110 {
        Some(10)
    } else if c == 116 {
        Some(9)
    } else if c == 114 {
        Some(13)
    } else if c == 97 {
        Some(7)
    } else if c == 98 {
        Some(8)
    } else if c == 102 {
        Some(12)
    } else if c == 118 {
        Some(11)
    } else if c == 92 || c == 39 || c == 34 || c == 63 {
        Some(c)
    } else {
        None
    }
}

/// The first three bytes, or all where they are fewer.
fn first_three(bytes: &[u8]) -> &[u8]
    ensures value { result.now ≡ take 3 bytes.now }
    ensures within { length result.now ≤ length bytes.now }
{
    if bytes.len() < 3 {
        bytes
    } else {
        front(bytes, 3)
    }
}

/// The byte of digits of an escape, and how many they are.
fn byte_at(base: Base, bytes: &[u8]) -> Option<(u8, usize)>
    ensures value { result ≡ digits_at (base_of base) 255 bytes.now }
    ensures within { IfSome result (λ x. x.1 ≤ length bytes.now) }
{
    match digits_at(base, 255, bytes) {
        None => None,
        Some((value, n)) => Some((value as u8, n)),
    }
}

/// An escape, given what is after its `\`: its byte, and how many bytes it has there.
#[tactic(auto, unfolding(c_model::specs::Literals::escape_at))]
fn escape_at(bytes: &[u8]) -> Option<(u8, usize)>
    ensures value { result ≡ escape_at bytes.now }
    ensures within { IfSome result (λ x. x.1 ≤ length bytes.now) }
{
    match bytes {
        [] => None,
        [c, rest @ ..] => {
            if is_octal(*c) {
                byte_at(Base::Octal, first_three(bytes))
            } else if *c == 120 {
                match byte_at(Base::Hexadecimal, rest) {
                    None => None,
                    Some((byte, n)) => Some((byte, n + 1)),
                }
            } else {
                match simple_escape(*c) {
                    None => None,
                    Some(byte) => Some((byte, 1)),
                }
            }
        }
    }
}

/// A byte or an escape: its byte, and how many bytes are after its first.
#[tactic(auto, unfolding(c_model::specs::Literals::unit_at))]
fn unit_at(bytes: &[u8]) -> Option<(u8, usize)>
    ensures value { result ≡ unit_at bytes.now }
    ensures within { IfSome result (λ x. x.1 < length bytes.now) }
{
    match bytes {
        [] => None,
        [b, rest @ ..] => {
            if *b == 10 {
                None
            } else if *b == 92 {
                escape_at(rest)
            } else {
                Some((*b, 0))
            }
        }
    }
}

/// A character literal, given what is after its first quote: its byte, and how many bytes it has there.
#[tactic(auto, unfolding(c_model::specs::Literals::letter_of))]
pub fn letter_of(bytes: &[u8]) -> Option<(u8, usize)>
    ensures value { result ≡ letter_of bytes.now }
    ensures within { IfSome result (λ x. x.1 ≤ length bytes.now) }
{
    if begins_with(b"'", bytes) {
        return None;
    }
    match unit_at(bytes) {
        None => None,
        Some((byte, more)) => {
            if begins_with(b"'", behind(bytes, more + 1)) {
                Some((byte, more + 2))
            } else {
                None
            }
        }
    }
}

/// The value of a byte as a signed `char`.
pub fn signed_char(b: u8) -> i8
    ensures { result ≡ signed_char b }
{
    if b < 128 {
        b as i8
    } else {
        (b as i16 - 256) as i8
    }
}

/// The same inside a string literal.
fn unit_in(mode: Mode, bytes: &[u8]) -> Option<(u8, usize)>
    ensures value { result ≡ unit_in mode bytes.now }
    ensures within { IfSome result (λ x. x.1 < length bytes.now) }
{
    if ends_block(mode, bytes) {
        None
    } else {
        unit_at(bytes)
    }
}

/// How many bytes a string literal has, given what is after its first quote.
#[tactic(auto, using(crate::proofs::Strings::len_stops, crate::proofs::Strings::len_breaks))]
pub fn string_len(mode: Mode, bytes: &[u8]) -> Option<usize>
    ensures value { result ≡ string_len mode 0 bytes.now }
    ensures within { IfSome result (λ n. n ≤ length bytes.now) }
{
    let mut n = 0;
    'turn: loop {
        let rest = behind(bytes, n);
        if begins_with(b"\"", rest) {
            return Some(n + 1);
        }
        let Some((_, more)) = unit_in(mode, rest) else {
            return None;
        };
        n += more + 1;
    }
}

/// The bytes that a string literal stands for, given what is after its first quote.
#[tactic(auto, using(crate::proofs::Strings::bytes_stop, crate::proofs::Strings::bytes_break))]
pub fn string_bytes(alloc: Global, bytes: &[u8]) -> Result<Vec<u8>, AllocError>
    ensures { IfOk result (λ v. v.items ≡ string_bytes 0 bytes.now) }
{
    let mut values = Vec::new(alloc);
    let mut n = 0;
    'turn: loop {
        let rest = behind(bytes, n);
        if begins_with(b"\"", rest) {
            return Ok(values);
        }
        let Some((byte, more)) = unit_at(rest) else {
            return Ok(values);
        };
        values.push(byte)?;
        n += more + 1;
    }
}
