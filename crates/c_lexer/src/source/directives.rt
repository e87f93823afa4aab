//! Directives.

ghost use Rattle.std.specs.Prelude.{◌≡◌, ◌≤◌, ◌||◌, length, take, None, Some, if◌then◌else◌, bytes_eq};
ghost use Rattle.std.specs.List.{prefix_len, list_all, list_any};
ghost use Rattle.c_model.specs.declared.c_tokens.Fault.TheVariants.{Directive};
ghost use Rattle.c_model.specs.Characters.{is_blank, is_digit};
ghost use Rattle.c_model.specs.Directives.{past_blanks, front_word, past_word, directive_line, is_file, ends_marker, is_marker, headers, len_before, is_closed};
ghost use Rattle.c_model.specs.Directives.{include_fault, directive_fault};

use super::chars::string_len;
use super::words::is_among;
use crate::bytes::{behind, front, is_blank, is_digit, line_len, word_len};
use c_model::c_tokens::{Fault, Mode};

fn blanks_len(bytes: &[u8]) -> usize
    ensures run { result ≡ prefix_len is_blank bytes.now }
    ensures within { result ≤ length bytes.now }
{
    bytes.iter().take_while(|b| is_blank(**b)).count()
}

fn number_len(bytes: &[u8]) -> usize
    ensures run { result ≡ prefix_len is_digit bytes.now }
    ensures within { result ≤ length bytes.now }
{
    bytes.iter().take_while(|b| is_digit(**b)).count()
}

/// What is after the blanks at the front.
fn past_blanks(bytes: &[u8]) -> &[u8]
    ensures value { result.now ≡ past_blanks bytes.now }
    ensures within { length result.now ≤ length bytes.now }
{
    behind(bytes, blanks_len(bytes))
}

/// The letters, digits and `_` at the front.
pub fn front_word(bytes: &[u8]) -> &[u8]
    ensures value { result.now ≡ front_word bytes.now }
{
    front(bytes, word_len(bytes))
}

/// What is after these, and after blanks.
fn past_word(bytes: &[u8]) -> &[u8]
    ensures { result.now ≡ past_word bytes.now }
{
    past_blanks(behind(bytes, word_len(bytes)))
}

/// The line after a `#`, without the blanks at its front.
pub fn directive_line(bytes: &[u8]) -> &[u8]
    ensures { result.now ≡ directive_line bytes.now }
{
    past_blanks(front(bytes, line_len(bytes)))
}

fn are_flags(bytes: &[u8]) -> bool
    ensures { result ≡ list_all (λ b. is_blank b || is_digit b) bytes.now }
{
    bytes.iter().all(|b| is_blank(*b) || is_digit(*b))
}

fn are_blanks(bytes: &[u8]) -> bool
    ensures { result ≡ list_all is_blank bytes.now }
{
    bytes.iter().all(|b| is_blank(*b))
}

/// Whether the bytes are a file's name and flags, or none.
#[tactic(auto, unfolding(c_model::specs::Directives::is_file))]
fn is_file(bytes: &[u8]) -> bool
    ensures { result ≡ is_file bytes.now }
{
    match bytes {
        [] => true,
        [b, rest @ ..] => {
            if *b != 34 {
                return false;
            }
            match string_len(Mode::Code, rest) {
                None => false,
                Some(n) => are_flags(behind(rest, n)),
            }
        }
    }
}

/// Whether the bytes may stand after a marker's number.
#[tactic(auto, unfolding(c_model::specs::Directives::ends_marker))]
fn ends_marker(bytes: &[u8]) -> bool
    ensures { result ≡ ends_marker bytes.now }
{
    match bytes {
        [] => true,
        [b, rest @ ..] => is_blank(*b) && is_file(past_blanks(rest)),
    }
}

/// Whether the bytes are a line marker's number and what may stand after it.
fn is_marker(bytes: &[u8]) -> bool
    ensures { result ≡ is_marker bytes.now }
{
    let n = number_len(bytes);
    0 < n && ends_marker(behind(bytes, n))
}

/// How many bytes stand before the first byte c.
fn len_before(c: u8, bytes: &[u8]) -> usize
    ensures run { result ≡ len_before c bytes.now }
    ensures within { result ≤ length bytes.now }
{
    bytes.iter().take_while(|b| **b != c).count()
}

/// Whether there is a byte c with only blanks after the first.
fn is_closed(c: u8, bytes: &[u8]) -> bool
    ensures { result ≡ is_closed c bytes.now }
{
    let n = len_before(c, bytes);
    n < bytes.len() && are_blanks(behind(bytes, n + 1))
}

/// Whether the text between `<` and `>` is one of the headers.
#[tactic(auto, unfolding(c_model::specs::Directives::headers))]
fn is_header(bytes: &[u8]) -> bool
    ensures { result ≡ list_any (bytes_eq (take (len_before 62 bytes.now) bytes.now)) headers }
{
    let name = front(bytes, len_before(62, bytes));
    is_among(&[b"stdio.h", b"stdlib.h", b"stddef.h", b"limits.h"], name)
}

/// What is wrong with `#include`, given what is after the word.
#[tactic(auto, unfolding(c_model::specs::Directives::include_fault))]
fn include_fault(bytes: &[u8]) -> Option<Fault>
    ensures { result ≡ include_fault bytes.now }
{
    match bytes {
        [] => Some(Fault::Directive),
        [b, rest @ ..] => {
            if *b == 60 && is_closed(62, rest) {
                if is_header(rest) {
                    None
                } else {
                    Some(Fault::OutsideDirective)
                }
            } else if *b == 34 && is_closed(34, rest) {
                Some(Fault::OutsideDirective)
            } else {
                Some(Fault::Directive)
            }
        }
    }
}

fn marker_fault(bytes: &[u8]) -> Option<Fault>
    ensures { result ≡ (if is_marker bytes.now then None else Some Directive) }
{
    if is_marker(bytes) {
        None
    } else {
        Some(Fault::Directive)
    }
}

/// What is wrong with a directive, given its line.
#[tactic(auto, unfolding(c_model::specs::Directives::directive_fault))]
pub fn directive_fault(bytes: &[u8]) -> Option<Fault>
    ensures { result ≡ directive_fault bytes.now }
{
    match bytes {
        [] => None,
        [b, ..] => {
            let word = front_word(bytes);
            if is_digit(*b) {
                marker_fault(bytes)
            } else if word == b"line".as_slice() {
                marker_fault(past_word(bytes))
            } else if word == b"include".as_slice() {
                include_fault(past_word(bytes))
            } else {
                Some(Fault::OutsideDirective)
            }
        }
    }
}
