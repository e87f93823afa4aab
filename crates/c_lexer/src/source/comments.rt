//! Where a byte stands, comments, and how far annotations go.

ghost use Rattle.std.specs.Prelude.{◌≡◌, ◌≤◌, length, IfSome, IsTrue, false};
ghost use Rattle.c_model.specs.Comments.{is_code, is_block, is_line, is_gap, ends_block, block_len, comment_len, comment_behind, blank_block, is_blank_line};

use crate::bytes::{begins_with, in_line, is_blank};
use c_model::c_tokens::Mode;

pub fn is_code(mode: Mode) -> bool
    ensures { result ≡ is_code mode }
{
    match mode {
        Mode::Code => true,
        Mode::Block | Mode::Line => false,
    }
}

fn is_block(mode: Mode) -> bool
    ensures { result ≡ is_block mode }
{
    match mode {
        Mode::Block => true,
        Mode::Code | Mode::Line => false,
    }
}

pub fn is_line(mode: Mode) -> bool
    ensures { result ≡ is_line mode }
{
    match mode {
        Mode::Line => true,
        Mode::Code | Mode::Block => false,
    }
}

/// Whether the byte is a blank there.
pub fn is_gap(mode: Mode, b: u8) -> bool
    ensures { result ≡ is_gap mode b }
{
    is_blank(b) || (!is_code(mode) && b == 64)
}

/// Whether the annotation ends there.
pub fn ends_block(mode: Mode, bytes: &[u8]) -> bool
    ensures value { result ≡ ends_block mode bytes.now }
    ensures bound { IsTrue result → 2 ≤ length bytes.now }
{
    is_block(mode) && begins_with(b"*/", bytes)
}

/// How many bytes there are up to the first `*/` and with it.
pub fn block_len(bytes: &[u8]) -> Option<usize>
    ensures value { result ≡ block_len bytes.now }
    ensures within { IfSome result (λ n. n ≤ length bytes.now) }
{
    let mut n = 0;
    let mut rest = bytes;
    'turn: while let [_, after @ ..] = rest {
        if begins_with(b"*/", rest) {
            return Some(n + 2);
        }
        n += 1;
        rest = after;
    }
    None
}

/// How many bytes a comment with `//` has.
pub fn comment_len(mode: Mode, bytes: &[u8]) -> usize
    ensures value { result ≡ comment_len mode bytes.now }
    ensures within { result ≤ length bytes.now }
{
    let mut n = 0;
    let mut rest = bytes;
    'turn: while let [b, after @ ..] = rest {
        if *b == 10 || ends_block(mode, rest) {
            return n;
        }
        n += 1;
        rest = after;
    }
    n
}

/// Whether a comment is open after the first byte; none where this begins a token.
fn comment_behind(is_open: bool, bytes: &[u8]) -> Option<bool>
    ensures { result ≡ comment_behind is_open bytes.now }
{
    match bytes {
        [] => None,
        [b, ..] => {
            if is_open {
                Some(in_line(*b))
            } else if is_gap(Mode::Block, *b) {
                Some(false)
            } else if begins_with(b"//", bytes) {
                Some(true)
            } else {
                None
            }
        }
    }
}

/// How many bytes there are after `/*@` up to the first `*/` and with it, where they have no token.
pub fn blank_block(bytes: &[u8]) -> Option<usize>
    ensures value { result ≡ blank_block false bytes.now }
    ensures within { IfSome result (λ n. n ≤ length bytes.now) }
{
    let mut is_open = false;
    let mut n = 0;
    let mut rest = bytes;
    'turn: while let [_, after @ ..] = rest {
        if ends_block(Mode::Block, rest) {
            return Some(n + 2);
        }
        let Some(next) = comment_behind(is_open, rest) else {
            return None;
        };
        is_open = next;
        n += 1;
        rest = after;
    }
    None
}

/// Whether the bytes after `//@` have no token up to the line's end.
pub fn is_blank_line(bytes: &[u8]) -> bool
    ensures { result ≡ is_blank_line bytes.now }
{
    let mut rest = bytes;
    'turn: while let [b, after @ ..] = rest {
        if *b == 10 {
            return true;
        }
        if !is_gap(Mode::Line, *b) {
            return begins_with(b"//", rest);
        }
        rest = after;
    }
    true
}
