//! The piece at the front of what is left of a monitored text.

ghost use Rattle.std.specs.Prelude.{◌≡◌, ◌≤◌, ◌<◌, length, map, drop, IfOk};
ghost use Rattle.c_model.specs.MonitoredTokens.{word_at, head_at, first_mark, marks, piece_at};
ghost use Rattle.c_lexer.specs.Reading.{FitsPiece};

use crate::bytes::{begins_with, behind, ends_line, is_blank, is_digit, is_nondigit, word_len};
use crate::chars::string_at;
use crate::numbers::number_at;
use c_model::monitored_tokens::{Fault, Found, Piece};
use c_model::punctuator::SPELLINGS;

const MOST_IN_NAME: usize = 255;

#[tactic(auto, unfolding(c_model::specs::MonitoredTokens::word_at))]
fn word_at(bytes: &[u8]) -> Result<Found, Fault>
    requires { 0 < length bytes.now }
    ensures value { result ≡ word_at bytes.now }
    ensures within { IfOk result (λ x. x.more < length bytes.now) }
    ensures fits { IfOk result (λ x. FitsPiece x.piece) }
{
    let n = word_len(bytes);
    if n > MOST_IN_NAME {
        Err(Fault::Name)
    } else {
        Ok(Found {
            piece: Piece::Word,
            more: n.saturating_sub(1),
        })
    }
}

/// The directive at the front, which is its whole line without the blanks at its ends.
#[tactic(auto, unfolding(c_model::specs::MonitoredTokens::head_at, c_model::specs::MonitoredTokens::head_line))]
fn head_at(bytes: &[u8]) -> Result<Found, Fault>
    ensures value { result ≡ head_at bytes.now }
    ensures within { IfOk result (λ x. x.more < length bytes.now) }
    ensures fits { IfOk result (λ x. FitsPiece x.piece) }
{
    if begins_with(b"#include <e_acsl.h>", bytes) && ends_line(behind(bytes, 19)) {
        Ok(Found {
            piece: Piece::Head,
            more: 18,
        })
    } else {
        Err(Fault::Directive)
    }
}

/// The first of the table that begins the bytes.
fn first_mark(table: &[&[u8]], bytes: &[u8]) -> Result<Found, Fault>
    requires few { length table.now < 256 }
    requires some { 0 < length bytes.now }
    ensures value { result ≡ first_mark 0 (map (λ w. w.now) table.now) bytes.now }
    ensures within { IfOk result (λ x. x.more < length bytes.now) }
    ensures fits { IfOk result (λ x. FitsPiece x.piece) }
{
    let mut i: usize = 0;
    'turn: while i < table.len() {
        let mark = table[i];
        if begins_with(mark, bytes) {
            return Ok(Found {
                piece: Piece::Mark(i as u8),
                more: mark.len().saturating_sub(1),
            });
        }
        i += 1;
    }
    Err(Fault::Byte)
}

/// The longest punctuator that begins the bytes.
#[tactic(auto, unfolding(c_model::specs::MonitoredTokens::marks))]
fn mark_at(bytes: &[u8]) -> Result<Found, Fault>
    requires { 0 < length bytes.now }
    ensures value { result ≡ first_mark 0 marks bytes.now }
    ensures within { IfOk result (λ x. x.more < length bytes.now) }
    ensures fits { IfOk result (λ x. FitsPiece x.piece) }
{
    first_mark(SPELLINGS, bytes)
}

/// The piece at the front, given whether only blanks stand before it in its line.
#[tactic(auto, unfolding(c_model::specs::MonitoredTokens::piece_at))]
pub fn piece_at(fresh: bool, bytes: &[u8]) -> Result<Found, Fault>
    ensures value { result ≡ piece_at fresh bytes.now }
    ensures within { IfOk result (λ x. x.more < length bytes.now) }
    ensures fits { IfOk result (λ x. FitsPiece x.piece) }
{
    match bytes {
        [] => Err(Fault::Byte),
        [b, rest @ ..] => {
            if is_blank(*b) {
                Ok(Found {
                    piece: Piece::Blank,
                    more: 0,
                })
            } else if is_nondigit(*b) {
                word_at(bytes)
            } else if is_digit(*b) {
                number_at(bytes)
            } else if *b == 34 {
                string_at(rest)
            } else if fresh && *b == 35 {
                head_at(bytes)
            } else {
                mark_at(bytes)
            }
        }
    }
}
