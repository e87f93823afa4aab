//! Decimal numbers.

ghost use Rattle.std.specs.Prelude.{◌≡◌, ◌≤◌, ◌<◌, ◌+◌, ◌*◌, length, IfSome, IfOk, MatchOption};
ghost use Rattle.c_model.specs.MonitoredTokens.{greatest_literal, literal_of, number_at};
ghost use Rattle.c_lexer.specs.Reading.{FitsPiece};

use crate::bytes::{is_digit, literal_len};
use c_model::monitored_tokens::{Fault, Found, Piece};

const MOST: u128 = 170_141_183_460_469_231_731_687_303_715_884_105_727;

/// The value with one more digit, where it is at most 2^127 - 1.
fn more_digits(value: u128, digit: u8) -> Option<u128>
    requires { digit < 10 }
    ensures { MatchOption result (greatest_literal < 10 * value + digit) (λ v. (v ≡ 10 * value + digit) × (v ≤ greatest_literal)) }
{
    let digit = digit as u128;
    if value > (MOST - digit) / 10 {
        None
    } else {
        Some(10 * value + digit)
    }
}

/// The value of decimal digits, where they are nothing else and it is at most 2^127 - 1.
#[tactic(auto, unfolding(c_model::specs::MonitoredTokens::literal_of), using(crate::proofs::Digits::digit_rules))]
fn literal_of(bytes: &[u8]) -> Option<u128>
    ensures value { result ≡ literal_of bytes.now }
    ensures fits { IfSome result (λ v. v ≤ greatest_literal) }
{
    let mut value: u128 = 0;
    let mut rest = bytes;
    'turn: while let [b, after @ ..] = rest {
        if !is_digit(*b) {
            return None;
        }
        let Some(next) = more_digits(value, *b - 48) else {
            return None;
        };
        value = next;
        rest = after;
    }
    Some(value)
}

#[tactic(auto, unfolding(c_model::specs::MonitoredTokens::number_at))]
pub fn number_at(bytes: &[u8]) -> Result<Found, Fault>
    requires { 0 < length bytes.now }
    ensures value { result ≡ number_at bytes.now }
    ensures within { IfOk result (λ x. x.more < length bytes.now) }
    ensures fits { IfOk result (λ x. FitsPiece x.piece) }
{
    let n = literal_len(bytes);
    match literal_of(&bytes[..n]) {
        None => Err(Fault::Number),
        Some(value) => Ok(Found {
            piece: Piece::Number(value),
            more: n.saturating_sub(1),
        }),
    }
}
