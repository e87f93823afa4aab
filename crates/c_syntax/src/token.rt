//! The tokens of a text (C99 6.4).

use crate::name::Name;
use crate::place::Place;
use crate::types::CInt;

/// The kind of a token.
#[derive(Drop)]
pub enum TokenKind {
    /// A name or keyword (C99 6.4.1, 6.4.2), by its number in `Tokens::names`.
    Word(u32),
    /// An integer literal by its value, at most 2^127 - 1, with the type that C99 6.4.4.1 gives it where there is one.
    Number(i128, Option<CInt>),
    /// A character literal by its value as a signed `char` (C99 6.4.4.4).
    Letter(i8),
    /// A string literal by its bytes, without the 0 after them (C99 6.4.5).
    Chars(Name),
    /// A punctuator (C99 6.4.6), by its place in the list of all, from 0.
    Mark(u8),
    /// What begins an annotation: `/*@` or `//@`.
    AnnotOpen,
    /// What ends it: `*/`, or the end of the line or of the text.
    AnnotClose,
    /// A line that begins with `#`: its kind, and the place of its text in the list of the kind's texts.
    Head(u8, u32),
}

/// A token at its first byte.
#[derive(Drop)]
pub struct Token {
    pub place: Place,
    pub kind: TokenKind,
}

/// The tokens of a text.
#[derive(Drop)]
pub struct Tokens {
    /// The tokens in order.
    pub list: Vec<Token>,
    /// The distinct names of the text in order of first use.
    pub names: Vec<Name>,
    /// The place after the last byte.
    pub end: Place,
}
