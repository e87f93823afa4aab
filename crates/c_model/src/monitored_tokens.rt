//! The pieces of a monitored text, which its tokens are made of, and how a piece is broken.

pub mod laws;

/// What a piece of the text is.
#[derive(Clone, Copy, PartialEq, Eq, Debug)]
pub enum Piece {
    Blank,
    /// A name or keyword, by the bytes that it has in the text.
    Word,
    /// A decimal number, by its value.
    Number(u128),
    /// A string literal, by the bytes that it has in the text.
    Chars,
    /// A punctuator, by its place in the list of all, from 0.
    Mark(u8),
    /// The line `#include <e_acsl.h>`.
    Head,
}

/// A piece at the front of a text, with so many bytes after its first.
#[derive(Clone, Copy, PartialEq, Eq, Debug)]
pub struct Found {
    pub piece: Piece,
    pub more: usize,
}

/// Why no piece begins at a byte.
#[derive(Clone, Copy, PartialEq, Eq, Debug)]
pub enum Fault {
    /// No piece begins with the byte.
    Byte,
    /// The name is too long.
    Name,
    /// It is no decimal number, or too large a one.
    Number,
    /// The string is not closed, or not all characters and escapes.
    Chars,
    /// The line is another directive.
    Directive,
}
