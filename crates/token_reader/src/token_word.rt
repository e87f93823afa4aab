//! How tokens are named where they are refused.

ghost use Rattle.std.specs.Prelude.{◌≡◌, map, slice_get, unsigned_abs, IfOk};
ghost use Rattle.std.specs.Fmt.{decimal};
ghost use Rattle.c_syntax.specs.Tokens.{plain_token_kind};
ghost use Rattle.c_model.specs.MonitoredTokens.{marks};
ghost use Rattle.c_model.specs.Pieces.{annotation_marks};
ghost use Rattle.c_model.specs.TokenWords.{or_nothing, mark_word, token_word, word_at};
ghost use Rattle.token_reader.specs.Reading.{plain_list};

use c_model::punctuator::{COUNT, SPELLINGS};
use c_syntax::{Name, Token, TokenKind};
use std::alloc::{AllocError, Global};

/// The text of this number in the table, or nothing.
fn entry<'a>(table: &[&'a [u8]], number: u8) -> &'a [u8]
    ensures { result.now ≡ or_nothing (slice_get (map (λ w. w.now) table.now) number) }
{
    match table.get(number as usize) {
        Some(text) => *text,
        None => b"",
    }
}

/// A punctuator by its number (C99 6.4.6).
#[tactic(auto, unfolding(c_model::specs::MonitoredTokens::marks))]
fn spelling(mark: u8) -> &'static [u8]
    ensures { result.now ≡ or_nothing (slice_get marks mark) }
{
    entry(SPELLINGS, mark)
}

/// A punctuator of annotations alone by its number among these.
#[tactic(auto, unfolding(c_model::specs::Pieces::annotation_marks))]
fn annotation_spelling(mark: u8) -> &'static [u8]
    ensures { result.now ≡ or_nothing (slice_get annotation_marks mark) }
{
    entry(&[b"<==>", b"==>", b"^^", b".."], mark)
}

/// A punctuator by its number, those of annotations alone after the others.
#[tactic(auto, unfolding(c_model::specs::MonitoredTokens::marks))]
fn mark_word(mark: u8) -> &'static [u8]
    ensures { result.now ≡ mark_word mark }
{
    if mark < COUNT {
        spelling(mark)
    } else {
        annotation_spelling(mark - COUNT)
    }
}

fn decimal(alloc: Global, value: i128) -> Result<Vec<u8>, AllocError>
    ensures { IfOk result (λ v. v.items ≡ decimal (unsigned_abs value)) }
{
    let magnitude = value.unsigned_abs();
    let text = format!(in alloc; "{magnitude}")?;
    Vec::from_slice(alloc, text.as_bytes())
}

#[tactic(auto, unfolding(c_model::specs::MonitoredTokens::head_line))]
fn token_word(alloc: Global, names: &[Name], kind: &TokenKind) -> Result<Vec<u8>, AllocError>
    ensures { IfOk result (λ v. v.items ≡ token_word names.now (plain_token_kind kind.now)) }
{
    match kind {
        TokenKind::Word(number) => match names.get(*number as usize) {
            Some(name) => Vec::from_slice(alloc, name.bytes()),
            None => Ok(Vec::new(alloc)),
        },
        TokenKind::Number(value, _) => decimal(alloc, *value),
        TokenKind::Letter(_) => Vec::from_slice(alloc, b"character"),
        TokenKind::Chars(_) => Vec::from_slice(alloc, b"string"),
        TokenKind::Mark(mark) => Vec::from_slice(alloc, mark_word(*mark)),
        TokenKind::AnnotOpen => Vec::from_slice(alloc, b"annotation"),
        TokenKind::AnnotClose => Vec::from_slice(alloc, b"end of annotation"),
        TokenKind::Head(_, _) => Vec::from_slice(alloc, b"#include <e_acsl.h>"),
    }
}

/// How the first of tokens is named where it is refused, or the end of the text.
pub fn refused_word(alloc: Global, names: &[Name], tokens: &[Token]) -> Result<Vec<u8>, AllocError>
    ensures { IfOk result (λ v. v.items ≡ word_at names.now (plain_list tokens.now)) }
{
    match tokens {
        [] => Vec::from_slice(alloc, b"end of file"),
        [token, ..] => token_word(alloc, names, &token.kind),
    }
}
