//! Integer literals.

ghost use Rattle.std.specs.Prelude.{◌≡◌, ◌≤◌, length, pos, nat_eq, IfSome};
ghost use Rattle.c_model.specs.Integers.{fits};
ghost use Rattle.c_model.specs.MonitoredTokens.{greatest_literal};
ghost use Rattle.c_model.specs.Literals.{is_u, is_l, suffix_of, types_of, first_fitting, body_of, literal_of};
ghost use Rattle.c_lexer.specs.Source.{base_of};

use super::digits::{Base, digits_at};
use crate::bytes::{begins_with, behind};
use c_syntax::CInt;

const MOST: u128 = 170_141_183_460_469_231_731_687_303_715_884_105_727;

fn is_u(b: u8) -> bool
    ensures { result ≡ is_u b }
{
    b == 117 || b == 85
}

fn is_l(b: u8) -> bool
    ensures { result ≡ is_l b }
{
    b == 108 || b == 76
}

/// Whether a suffix has a `u`, and whether it has an `l`.
#[tactic(auto, unfolding(c_model::specs::Literals::suffix_of))]
fn suffix_of(bytes: &[u8]) -> Option<(bool, bool)>
    ensures { result ≡ suffix_of bytes.now }
{
    match bytes {
        [] => Some((false, false)),
        [a] => {
            if is_u(*a) {
                Some((true, false))
            } else if is_l(*a) {
                Some((false, true))
            } else {
                None
            }
        }
        [a, b] => {
            if (is_u(*a) && is_l(*b)) || (is_l(*a) && is_u(*b)) {
                Some((true, true))
            } else if is_l(*a) && *a == *b {
                Some((false, true))
            } else {
                None
            }
        }
        [a, b, c] => {
            if (is_u(*a) && is_l(*b) && *b == *c) || (is_l(*a) && *a == *b && is_u(*c)) {
                Some((true, true))
            } else {
                None
            }
        }
        [_, _, _, _, ..] => None,
    }
}

fn fits(t: CInt, value: u128) -> bool
    ensures { result ≡ fits t (pos value) }
{
    match t {
        CInt::I8 => value < 128,
        CInt::U8 => value < 256,
        CInt::I16 => value < 32_768,
        CInt::U16 => value < 65_536,
        CInt::I32 => value < 2_147_483_648,
        CInt::U32 => value < 4_294_967_296,
        CInt::I64 => value < 9_223_372_036_854_775_808,
        CInt::U64 => value < 18_446_744_073_709_551_616,
    }
}

fn first_fitting(types: &[CInt], value: u128) -> Option<CInt>
    ensures { result ≡ first_fitting types.now value }
{
    let mut rest = types;
    'turn: while let [t, after @ ..] = rest {
        if fits(*t, value) {
            return Some(*t);
        }
        rest = after;
    }
    None
}

/// The type of a literal.
fn type_of(decimal: bool, unsigned: bool, long: bool, value: u128) -> Option<CInt>
    ensures { result ≡ first_fitting (types_of decimal unsigned long) value }
{
    match (decimal, unsigned, long) {
        (true, false, false) => first_fitting(&[CInt::I32, CInt::I64], value),
        (true, false, true) => first_fitting(&[CInt::I64], value),
        (false, false, false) => {
            first_fitting(&[CInt::I32, CInt::U32, CInt::I64, CInt::U64], value)
        }
        (false, false, true) => first_fitting(&[CInt::I64, CInt::U64], value),
        (_, true, false) => first_fitting(&[CInt::U32, CInt::U64], value),
        (_, true, true) => first_fitting(&[CInt::U64], value),
    }
}

fn is_decimal(base: Base) -> bool
    ensures { result ≡ nat_eq (base_of base) 10 }
{
    match base {
        Base::Decimal => true,
        Base::Octal | Base::Hexadecimal => false,
    }
}

/// The value and the type of digits with a suffix.
#[tactic(auto, unfolding(c_model::specs::Literals::body_of))]
fn body_of(base: Base, bytes: &[u8]) -> Option<(u128, Option<CInt>)>
    ensures value { result ≡ body_of (base_of base) bytes.now }
    ensures small { IfSome result (λ x. x.0 ≤ greatest_literal) }
{
    let (value, n) = digits_at(base, MOST, bytes)?;
    let (unsigned, long) = suffix_of(behind(bytes, n))?;
    Some((value, type_of(is_decimal(base), unsigned, long, value)))
}

/// The value and the type of a literal, where all of the bytes are one.
#[tactic(auto, unfolding(c_model::specs::Literals::literal_of))]
pub fn literal_of(bytes: &[u8]) -> Option<(u128, Option<CInt>)>
    ensures value { result ≡ literal_of bytes.now }
    ensures small { IfSome result (λ x. x.0 ≤ greatest_literal) }
{
    if begins_with(b"0x", bytes) || begins_with(b"0X", bytes) {
        body_of(Base::Hexadecimal, behind(bytes, 2))
    } else if begins_with(b"0", bytes) {
        body_of(Base::Octal, bytes)
    } else {
        body_of(Base::Decimal, bytes)
    }
}
