//! Numbers in a base.

ghost use Rattle.std.specs.Prelude.{◌≡◌, ◌≤◌, ◌<◌, ◌+◌, ◌*◌, length, IfSome, MatchOption};
ghost use Rattle.std.specs.Char.{digit_value};
ghost use Rattle.c_model.specs.MonitoredTokens.{greatest_literal};
ghost use Rattle.c_model.specs.Literals.{is_digit_of, digits_len, value_within, digits_at};
ghost use Rattle.c_lexer.specs.Source.{base_of};

use crate::bytes::front;

#[derive(Clone, Copy)]
pub enum Base {
    Octal,
    Decimal,
    Hexadecimal,
}

/// The value of a digit; 36 where it is none.
fn digit_value(b: u8) -> u8
    ensures value { result ≡ digit_value b }
    ensures small { result ≤ 36 }
{
    if b < 48 {
        36
    } else if b < 58 {
        b - 48
    } else if b < 65 {
        36
    } else if b < 91 {
        b - 55
    } else if b < 97 {
        36
    } else if b < 123 {
        b - 87
    } else {
        36
    }
}

fn radix(base: Base) -> u8
    ensures { result ≡ base_of base }
{
    match base {
        Base::Octal => 8,
        Base::Decimal => 10,
        Base::Hexadecimal => 16,
    }
}

fn is_digit_of(base: Base, b: u8) -> bool
    ensures { result ≡ is_digit_of (base_of base) b }
{
    digit_value(b) < radix(base)
}

/// How many digits of the base stand at the front.
fn digits_len(base: Base, bytes: &[u8]) -> usize
    ensures run { result ≡ digits_len (base_of base) bytes.now }
    ensures within { result ≤ length bytes.now }
{
    bytes.iter().take_while(|b| is_digit_of(base, **b)).count()
}

/// The value with a 0 after it, where that is at most so much.
fn times_base(base: Base, most: u128, value: u128) -> Option<u128>
    ensures { MatchOption result (most < value * base_of base) (λ v. (v ≡ value * base_of base) × (v ≤ most)) }
{
    match base {
        Base::Octal => {
            if value > most / 8 {
                None
            } else {
                Some(value * 8)
            }
        }
        Base::Decimal => {
            if value > most / 10 {
                None
            } else {
                Some(value * 10)
            }
        }
        Base::Hexadecimal => {
            if value > most / 16 {
                None
            } else {
                Some(value * 16)
            }
        }
    }
}

/// The value with one more digit, where it is at most so much.
fn more_digits(base: Base, most: u128, value: u128, digit: u8) -> Option<u128>
    requires most { most ≤ greatest_literal }
    ensures { MatchOption result (most < value * base_of base + digit) (λ v. (v ≡ value * base_of base + digit) × (v ≤ most)) }
{
    match times_base(base, most, value) {
        None => None,
        Some(tens) => {
            let next = tens + digit as u128;
            if next > most { None } else { Some(next) }
        }
    }
}

/// The number that digits write, where it is at most so much.
#[tactic(auto, using(crate::proofs::Values::past_the_most, crate::proofs::Values::last_value))]
fn value_within(base: Base, most: u128, digits: &[u8]) -> Option<u128>
    requires most { most ≤ greatest_literal }
    ensures value { result ≡ value_within (base_of base) most digits.now }
    ensures small { IfSome result (λ v. v ≤ most) }
{
    let mut value: u128 = 0;
    let mut rest = digits;
    'turn: while let [b, after @ ..] = rest {
        let Some(next) = more_digits(base, most, value, digit_value(*b)) else {
            return None;
        };
        value = next;
        rest = after;
    }
    Some(value)
}

/// The number that the digits at the front write, where it is at most so much, and how many they are.
#[tactic(auto, unfolding(c_model::specs::Literals::digits_at))]
pub fn digits_at(base: Base, most: u128, bytes: &[u8]) -> Option<(u128, usize)>
    requires most { most ≤ greatest_literal }
    ensures value { result ≡ digits_at (base_of base) most bytes.now }
    ensures small { IfSome result (λ d. d.0 ≤ most) }
    ensures within { IfSome result (λ d. d.1 ≤ length bytes.now) }
    ensures some { IfSome result (λ d. 0 < d.1) }
{
    let n = digits_len(base, bytes);
    if n == 0 {
        return None;
    }
    match value_within(base, most, front(bytes, n)) {
        None => None,
        Some(value) => Some((value, n)),
    }
}
