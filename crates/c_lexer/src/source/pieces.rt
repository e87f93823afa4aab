//! The piece at the front of what is left of a C text with annotations.

ghost use Rattle.std.specs.Prelude.{◌≡◌, ◌≤◌, ◌<◌, ◌+◌, length, map, drop, IfOk, IfSome};
ghost use Rattle.c_model.specs.MonitoredTokens.{marks};
ghost use Rattle.c_model.specs.Pieces.{is_dotted, number_at, letter_at, string_at, first_mark, annotation_marks, c_mark_at, mark_at, comment_at, open_block};
ghost use Rattle.c_model.specs.Pieces.{open_line, other_at, directive_at, piece_at, mode_after};
ghost use Rattle.c_lexer.specs.Source.{FitsPiece};

use super::chars::{letter_of, string_len};
use super::comments::{
    blank_block, block_len, comment_len, ends_block, is_blank_line, is_code, is_gap, is_line,
};
use super::directives::{directive_fault, directive_line};
use super::literals::literal_of;
use super::words::{begins_name, word_at};
use crate::bytes::{begins_with, behind, front, is_digit, line_len, word_len};
use c_model::c_tokens::{Fault, Found, Mode, Piece};
use c_model::punctuator::SPELLINGS;

/// Whether a `.` stands there that no literal may have after it.
fn is_dotted(mode: Mode, bytes: &[u8]) -> bool
    ensures { result ≡ is_dotted mode bytes.now }
{
    begins_with(b".", bytes) && (is_code(mode) || !begins_with(b"..", bytes))
}

#[tactic(auto, unfolding(c_model::specs::Pieces::number_at))]
fn number_at(mode: Mode, bytes: &[u8]) -> Result<Found, Fault>
    requires { 0 < length bytes.now }
    ensures value { result ≡ number_at mode bytes.now }
    ensures within { IfOk result (λ x. x.more < length bytes.now) }
    ensures fits { IfOk result (λ x. FitsPiece x.piece) }
{
    let n = word_len(bytes);
    if is_dotted(mode, behind(bytes, n)) {
        return Err(Fault::Number);
    }
    match literal_of(front(bytes, n)) {
        None => Err(Fault::Number),
        Some((value, t)) => Ok(Found {
            piece: Piece::Number(value, t),
            more: n.saturating_sub(1),
        }),
    }
}

#[tactic(auto, unfolding(c_model::specs::Pieces::letter_at))]
fn letter_at(bytes: &[u8]) -> Result<Found, Fault>
    ensures value { result ≡ letter_at bytes.now }
    ensures within { IfOk result (λ x. x.more ≤ length bytes.now) }
    ensures fits { IfOk result (λ x. FitsPiece x.piece) }
{
    match letter_of(bytes) {
        None => Err(Fault::Letter),
        Some((byte, more)) => Ok(Found {
            piece: Piece::Letter(byte),
            more,
        }),
    }
}

#[tactic(auto, unfolding(c_model::specs::Pieces::string_at))]
fn string_at(mode: Mode, bytes: &[u8]) -> Result<Found, Fault>
    ensures value { result ≡ string_at mode bytes.now }
    ensures within { IfOk result (λ x. x.more ≤ length bytes.now) }
    ensures fits { IfOk result (λ x. FitsPiece x.piece) }
{
    match string_len(mode, bytes) {
        None => Err(Fault::Chars),
        Some(more) => Ok(Found {
            piece: Piece::Chars,
            more,
        }),
    }
}

/// The first of the table that begins the bytes, numbered from so much on.
fn first_mark(first: u8, table: &[&[u8]], bytes: &[u8]) -> Option<Found>
    requires few { first + length table.now < 256 }
    requires some { 0 < length bytes.now }
    ensures value { result ≡ first_mark first (map (λ w. w.now) table.now) bytes.now }
    ensures within { IfSome result (λ x. x.more < length bytes.now) }
    ensures fits { IfSome result (λ x. FitsPiece x.piece) }
{
    let mut i: usize = 0;
    'turn: while i < table.len() {
        let mark = table[i];
        if begins_with(mark, bytes) {
            return Some(Found {
                piece: Piece::Mark(first + i as u8),
                more: mark.len().saturating_sub(1),
            });
        }
        i += 1;
    }
    None
}

/// The longest operator of C that begins the bytes.
#[tactic(auto, unfolding(c_model::specs::MonitoredTokens::marks, c_model::specs::Pieces::c_mark_at))]
fn c_mark_at(bytes: &[u8]) -> Result<Found, Fault>
    requires { 0 < length bytes.now }
    ensures value { result ≡ c_mark_at bytes.now }
    ensures within { IfOk result (λ x. x.more < length bytes.now) }
    ensures fits { IfOk result (λ x. FitsPiece x.piece) }
{
    let found = first_mark(0, SPELLINGS, bytes);
    match found {
        None => Err(Fault::Byte),
        Some(found) => Ok(found),
    }
}

/// The longest operator that begins the bytes.
#[tactic(auto, unfolding(c_model::specs::Pieces::annotation_marks, c_model::specs::Pieces::mark_at))]
fn mark_at(mode: Mode, bytes: &[u8]) -> Result<Found, Fault>
    requires { 0 < length bytes.now }
    ensures value { result ≡ mark_at mode bytes.now }
    ensures within { IfOk result (λ x. x.more < length bytes.now) }
    ensures fits { IfOk result (λ x. FitsPiece x.piece) }
{
    if is_code(mode) {
        return c_mark_at(bytes);
    }
    match first_mark(45, &[b"<==>", b"==>", b"^^", b".."], bytes) {
        None => c_mark_at(bytes),
        Some(found) => Ok(found),
    }
}

/// A comment, given what is after its `/*`.
#[tactic(auto, unfolding(c_model::specs::Pieces::comment_at))]
fn comment_at(bytes: &[u8]) -> Result<Found, Fault>
    ensures value { result ≡ comment_at bytes.now }
    ensures within { IfOk result (λ x. x.more ≤ length bytes.now + 1) }
    ensures fits { IfOk result (λ x. FitsPiece x.piece) }
{
    match block_len(bytes) {
        None => Err(Fault::Comment),
        Some(n) => Ok(Found {
            piece: Piece::Blank,
            more: n + 1,
        }),
    }
}

/// An annotation, given what is after its `/*@`: its beginning, or all of it where it has no token.
#[tactic(auto, unfolding(c_model::specs::Pieces::open_block))]
fn open_block(bytes: &[u8]) -> Result<Found, Fault>
    ensures value { result ≡ open_block bytes.now }
    ensures within { IfOk result (λ x. x.more ≤ length bytes.now + 2) }
    ensures fits { IfOk result (λ x. FitsPiece x.piece) }
{
    match block_len(bytes) {
        None => Err(Fault::Comment),
        Some(_) => match blank_block(bytes) {
            None => Ok(Found {
                piece: Piece::Open(Mode::Block),
                more: 2,
            }),
            Some(n) => Ok(Found {
                piece: Piece::Blank,
                more: n + 2,
            }),
        },
    }
}

/// An annotation, given what is after its `//@`: its beginning, or all of it where it has no token.
#[tactic(auto, unfolding(c_model::specs::Pieces::open_line))]
fn open_line(bytes: &[u8]) -> Result<Found, Fault>
    ensures value { result ≡ open_line bytes.now }
    ensures within { IfOk result (λ x. x.more ≤ length bytes.now + 2) }
    ensures fits { IfOk result (λ x. FitsPiece x.piece) }
{
    if is_blank_line(bytes) {
        Ok(Found {
            piece: Piece::Blank,
            more: line_len(bytes) + 2,
        })
    } else {
        Ok(Found {
            piece: Piece::Open(Mode::Line),
            more: 2,
        })
    }
}

/// A comment, the beginning of an annotation, or an operator.
#[tactic(auto, unfolding(c_model::specs::Pieces::other_at))]
fn other_at(mode: Mode, bytes: &[u8]) -> Result<Found, Fault>
    requires { 0 < length bytes.now }
    ensures value { result ≡ other_at mode bytes.now }
    ensures within { IfOk result (λ x. x.more < length bytes.now) }
    ensures fits { IfOk result (λ x. FitsPiece x.piece) }
{
    if is_code(mode) && begins_with(b"/*@", bytes) {
        open_block(behind(bytes, 3))
    } else if is_code(mode) && begins_with(b"//@", bytes) {
        open_line(behind(bytes, 3))
    } else if is_code(mode) && begins_with(b"/*", bytes) {
        comment_at(behind(bytes, 2))
    } else if begins_with(b"//", bytes) {
        Ok(Found {
            piece: Piece::Blank,
            more: comment_len(mode, bytes).saturating_sub(1),
        })
    } else {
        mark_at(mode, bytes)
    }
}

/// A directive, given what is after its `#`.
#[tactic(auto, unfolding(c_model::specs::Pieces::directive_at))]
fn directive_at(bytes: &[u8]) -> Result<Found, Fault>
    ensures value { result ≡ directive_at bytes.now }
    ensures within { IfOk result (λ x. x.more ≤ length bytes.now) }
    ensures fits { IfOk result (λ x. FitsPiece x.piece) }
{
    match directive_fault(directive_line(bytes)) {
        None => Ok(Found {
            piece: Piece::Blank,
            more: line_len(bytes),
        }),
        Some(fault) => Err(fault),
    }
}

/// The piece at the front, given where it stands and whether only blanks stand before it in its line.
#[tactic(auto, unfolding(c_model::specs::Pieces::piece_at))]
pub fn piece_at(mode: Mode, fresh: bool, bytes: &[u8]) -> Result<Found, Fault>
    ensures value { result ≡ piece_at mode fresh bytes.now }
    ensures within { IfOk result (λ x. x.more < length bytes.now) }
    ensures fits { IfOk result (λ x. FitsPiece x.piece) }
{
    let [b, rest @ ..] = bytes else {
        return Err(Fault::Byte);
    };
    if is_line(mode) && *b == 10 {
        Ok(Found {
            piece: Piece::Close,
            more: 0,
        })
    } else if ends_block(mode, bytes) {
        Ok(Found {
            piece: Piece::Close,
            more: 1,
        })
    } else if is_gap(mode, *b) {
        Ok(Found {
            piece: Piece::Blank,
            more: 0,
        })
    } else if begins_name(mode, bytes) {
        word_at(mode, bytes)
    } else if is_digit(*b) {
        number_at(mode, bytes)
    } else if *b == 39 {
        letter_at(rest)
    } else if *b == 34 {
        string_at(mode, rest)
    } else if is_code(mode) && fresh && *b == 35 {
        directive_at(rest)
    } else {
        other_at(mode, bytes)
    }
}

/// Where the bytes after a piece stand.
pub fn mode_after(mode: Mode, piece: Piece) -> Mode
    ensures { result ≡ mode_after mode piece }
{
    match piece {
        Piece::Open(opened) => opened,
        Piece::Close => Mode::Code,
        Piece::Blank
        | Piece::Word
        | Piece::Number(..)
        | Piece::Letter(_)
        | Piece::Chars
        | Piece::Mark(_) => mode,
    }
}
