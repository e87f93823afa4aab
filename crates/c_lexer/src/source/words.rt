//! Names, and the words that are outside the profile.

ghost use Rattle.std.specs.Prelude.{◌≡◌, ◌≤◌, ◌<◌, length, map, bytes_eq, IfOk};
ghost use Rattle.std.specs.List.{list_any};
ghost use Rattle.c_model.specs.Pieces.{outside_in_c, outside_in_annotations, backslash_names, is_reserved, is_outside, begins_with_nondigit, begins_name, word};
ghost use Rattle.c_model.specs.Pieces.{word_at};
ghost use Rattle.c_lexer.specs.Source.{FitsPiece};

use super::comments::is_code;
use crate::bytes::{begins_with, is_nondigit, word_len};
use c_model::c_tokens::{Fault, Found, Mode, Piece};

const MOST_IN_NAME: usize = 255;

/// Whether it is one of the words.
pub fn is_among(words: &[&[u8]], word: &[u8]) -> bool
    ensures { result ≡ list_any (bytes_eq word.now) (map (λ w. w.now) words.now) }
{
    let mut rest = words;
    'turn: while let [w, after @ ..] = rest {
        if word == *w {
            return true;
        }
        rest = after;
    }
    false
}

#[tactic(auto, unfolding(c_model::specs::Pieces::outside_in_c))]
fn is_outside_in_c(word: &[u8]) -> bool
    ensures { result ≡ list_any (bytes_eq word.now) outside_in_c }
{
    is_among(
        &[
            b"auto",
            b"register",
            b"extern",
            b"inline",
            b"restrict",
            b"volatile",
            b"goto",
            b"union",
            b"float",
            b"double",
            b"_Bool",
            b"_Complex",
            b"_Imaginary",
        ],
        word,
    )
}

#[tactic(auto, unfolding(c_model::specs::Pieces::outside_in_annotations))]
fn is_outside_in_annotations(word: &[u8]) -> bool
    ensures { result ≡ list_any (bytes_eq word.now) outside_in_annotations }
{
    is_among(
        &[
            b"real",
            b"ghost",
            b"axiomatic",
            b"axiom",
            b"inductive",
            b"lemma",
            b"logic",
            b"predicate",
            b"check",
            b"admit",
            b"decreases",
            b"terminates",
            b"allocates",
            b"frees",
            b"exits",
            b"breaks",
            b"continues",
            b"returns",
        ],
        word,
    )
}

#[tactic(auto, unfolding(c_model::specs::Pieces::backslash_names))]
fn is_backslash_name(word: &[u8]) -> bool
    ensures { result ≡ list_any (bytes_eq word.now) backslash_names }
{
    is_among(
        &[
            b"\\forall",
            b"\\exists",
            b"\\old",
            b"\\at",
            b"\\result",
            b"\\null",
            b"\\true",
            b"\\false",
            b"\\nothing",
            b"\\from",
            b"\\valid",
            b"\\valid_read",
            b"\\initialized",
            b"\\base_addr",
            b"\\block_length",
            b"\\offset",
            b"\\separated",
        ],
        word,
    )
}

/// Whether the word begins as those that are kept for monitored programs.
fn is_reserved(word: &[u8]) -> bool
    ensures { result ≡ is_reserved word.now }
{
    begins_with(b"__e_acsl_", word) || begins_with(b"__gen_e_acsl_", word)
}

#[tactic(auto, unfolding(c_model::specs::Pieces::is_outside))]
fn is_outside(mode: Mode, word: &[u8]) -> bool
    ensures { result ≡ is_outside mode word.now }
{
    if is_reserved(word) {
        true
    } else if is_code(mode) {
        is_outside_in_c(word)
    } else {
        is_outside_in_annotations(word) || (begins_with(b"\\", word) && !is_backslash_name(word))
    }
}

fn begins_with_nondigit(bytes: &[u8]) -> bool
    ensures { result ≡ begins_with_nondigit bytes.now }
{
    match bytes {
        [] => false,
        [b, ..] => is_nondigit(*b),
    }
}

pub fn begins_name(mode: Mode, bytes: &[u8]) -> bool
    ensures { result ≡ begins_name mode bytes.now }
{
    match bytes {
        [] => false,
        [b, rest @ ..] => {
            is_nondigit(*b) || (!is_code(mode) && *b == 92 && begins_with_nondigit(rest))
        }
    }
}

/// The name at the front.
pub fn word(bytes: &[u8]) -> &[u8]
    ensures value { result.now ≡ word bytes.now }
    ensures within { length result.now ≤ length bytes.now }
{
    match bytes {
        [] => bytes,
        [_, rest @ ..] => &bytes[..word_len(rest) + 1],
    }
}

#[tactic(auto, unfolding(c_model::specs::Pieces::word_at))]
pub fn word_at(mode: Mode, bytes: &[u8]) -> Result<Found, Fault>
    requires { 0 < length bytes.now }
    ensures value { result ≡ word_at mode bytes.now }
    ensures within { IfOk result (λ x. x.more < length bytes.now) }
    ensures fits { IfOk result (λ x. FitsPiece x.piece) }
{
    let word = word(bytes);
    if word.len() > MOST_IN_NAME {
        Err(Fault::Name)
    } else if is_outside(mode, word) {
        Err(Fault::OutsideWord)
    } else {
        Ok(Found {
            piece: Piece::Word,
            more: word.len().saturating_sub(1),
        })
    }
}
