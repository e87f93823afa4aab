//! The string literals of a text (C99 6.4.5).

ghost use Rattle.std.specs.Prelude.{◌≡◌, map, IfOk};
ghost use Rattle.c_syntax.specs.Programs.{plain_text};
ghost use Rattle.c_model.specs.ProgramGrammar.{texts_of};
ghost use Rattle.token_reader.specs.Reading.{plain_list};

use c_syntax::{Name, Place, Text, Token, TokenKind};
use std::alloc::{AllocError, Global};

fn text_at(alloc: Global, place: Place, bytes: &[u8]) -> Result<Text, AllocError>
    ensures place { IfOk result (λ t. t.place ≡ place) }
    ensures bytes { IfOk result (λ t. t.bytes ≡ bytes.now) }
{
    let bytes = Name::new(Vec::from_slice(alloc, bytes)?);
    Ok(Text { place, bytes })
}

/// The string literals among tokens.
pub fn texts_of(alloc: Global, tokens: &[Token]) -> Result<Vec<Text>, AllocError>
    ensures { IfOk result (λ v. map plain_text v.items ≡ texts_of (plain_list tokens.now)) }
{
    let mut texts = Vec::new(alloc);
    let mut rest = tokens;
    'turn: while let [token, after @ ..] = rest {
        if let TokenKind::Chars(bytes) = &token.kind {
            texts.push(text_at(alloc, token.place, bytes.bytes())?)?;
        }
        rest = after;
    }
    Ok(texts)
}
