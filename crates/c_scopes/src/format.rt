//! The format of printf (C99 7.19.6.1).

ghost use Rattle.std.specs.Prelude.{◌≡◌, [], ◌∷◌, ◌++◌, ◌<◌, ◌≤◌, IfOk, IfSome, OnOk, length, map, option_map};
ghost use Rattle.c_model.specs.Formats.{long_directive, directive, pieces_of};
ghost use Rattle.c_scopes.specs.Pieces.{Puts, PutsPart, directed, plain_piece, text_pieces};

use c_syntax::CInt;
use std::alloc::{AllocError, Global};
use std::mem::replace;

/// What a format prints, in parts.
#[derive(Drop)]
pub enum Piece {
    /// Bytes as they stand.
    Bytes(Vec<u8>),
    /// A number of the type in decimal.
    Number(CInt),
    Character,
    /// The bytes of a string.
    String,
}

/// What stands behind a `%`.
#[derive(Clone, Copy, PartialEq, Eq, Debug)]
enum Specifier {
    Percent,
    Number(CInt),
    Character,
    String,
}

/// The directive behind `%l`, and what follows it.
fn long_directive(bytes: &[u8]) -> Option<(Specifier, &[u8])>
    ensures piece { directed result ≡ long_directive bytes.now }
    ensures shorter { IfSome result (λ d. length d.1.now < length bytes.now) }
{
    match bytes {
        [] => None,
        [b, rest @ ..] => {
            if *b == b'd' {
                Some((Specifier::Number(CInt::I64), rest))
            } else if *b == b'u' {
                Some((Specifier::Number(CInt::U64), rest))
            } else {
                None
            }
        }
    }
}

/// The directive behind `%`, and what follows it.
fn directive(bytes: &[u8]) -> Option<(Specifier, &[u8])>
    ensures piece { directed result ≡ directive bytes.now }
    ensures shorter { IfSome result (λ d. length d.1.now < length bytes.now) }
{
    match bytes {
        [] => None,
        [b, rest @ ..] => {
            if *b == b'%' {
                Some((Specifier::Percent, rest))
            } else if *b == b'd' {
                Some((Specifier::Number(CInt::I32), rest))
            } else if *b == b'u' {
                Some((Specifier::Number(CInt::U32), rest))
            } else if *b == b'c' {
                Some((Specifier::Character, rest))
            } else if *b == b's' {
                Some((Specifier::String, rest))
            } else if *b == b'l' {
                long_directive(rest)
            } else {
                None
            }
        }
    }
}

/// Puts text behind the pieces, where there is any.
fn put_text(pieces: &mut Vec<Piece>, text: Vec<u8>) -> Result<(), AllocError>
    ensures { OnOk result (map plain_piece pieces.new.items ≡ map plain_piece pieces.old.items ++ text_pieces text.items) }
{
    if text.is_empty() {
        return Ok(());
    }
    pieces.push(Piece::Bytes(text))?;
    Ok(())
}

/// Puts the text so far and then a piece behind the pieces.
fn put_piece(
    alloc: Global,
    pieces: &mut Vec<Piece>,
    text: &mut Vec<u8>,
    piece: Piece,
) -> Result<(), AllocError>
    ensures pieces { OnOk result (map plain_piece pieces.new.items
        ≡ (map plain_piece pieces.old.items ++ text_pieces text.old.items) ++ plain_piece piece ∷ []) }
    ensures text { text.new.items ≡ [] }
{
    put_text(pieces, replace(text, Vec::new(alloc)))?;
    pieces.push(piece)?;
    Ok(())
}

/// Puts a directive behind the text that stands before it.
fn put_directive(
    alloc: Global,
    pieces: &mut Vec<Piece>,
    text: &mut Vec<u8>,
    specifier: Specifier,
) -> Result<(), AllocError>
    ensures { OnOk result (Puts specifier (map plain_piece pieces.old.items) text.old.items (map plain_piece pieces.new.items) text.new.items) }
{
    match specifier {
        Specifier::Percent => {
            text.push(b'%')?;
            Ok(())
        }
        Specifier::Number(k) => put_piece(alloc, pieces, text, Piece::Number(k)),
        Specifier::Character => put_piece(alloc, pieces, text, Piece::Character),
        Specifier::String => put_piece(alloc, pieces, text, Piece::String),
    }
}

/// Puts the first part of a format behind the pieces and the text so far. Gives what follows it, and nothing where it is wrong.
#[tactic(auto, using(crate::proofs::FormatParts::plain_more))]
fn put_part<'a>(
    alloc: Global,
    pieces: &mut Vec<Piece>,
    text: &mut Vec<u8>,
    b: u8,
    behind: &'a [u8],
) -> Result<Option<&'a [u8]>, AllocError>
    ensures parts { IfOk result (λ rest. PutsPart (pieces_of (b ∷ behind.now)) (map plain_piece pieces.old.items) text.old.items
        (map plain_piece pieces.new.items) text.new.items rest) }
    ensures shorter { IfOk result (λ rest. IfSome rest (λ rest. length rest.now ≤ length behind.now)) }
{
    if b == 0 {
        return Ok(Some(&[]));
    }
    if b != b'%' {
        text.push(b)?;
        return Ok(Some(behind));
    }
    match directive(behind) {
        None => Ok(None),
        Some((found, after)) => {
            put_directive(alloc, pieces, text, found)?;
            Ok(Some(after))
        }
    }
}

/// The pieces of a format, which ends at its first 0, and none where a directive is wrong.
pub fn pieces_of(alloc: Global, bytes: &[u8]) -> Result<Option<Vec<Piece>>, AllocError>
    ensures { IfOk result (λ found. option_map (λ v. map plain_piece v.items) found ≡ pieces_of bytes.now) }
{
    let mut pieces = Vec::new(alloc);
    let mut text = Vec::new(alloc);
    let mut rest = bytes;
    'turn: while let [b, behind @ ..] = rest {
        match put_part(alloc, &mut pieces, &mut text, *b, behind)? {
            None => return Ok(None),
            Some(after) => rest = after,
        }
    }
    put_text(&mut pieces, text)?;
    Ok(Some(pieces))
}
