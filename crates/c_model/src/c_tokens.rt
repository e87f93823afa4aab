//! The pieces of a C text with annotations, which its tokens are made of, and how a piece is broken.

use c_syntax::CInt;

pub mod laws;

/// Where a byte stands: in C, in an annotation that `/*@` began, or in one that `//@` began.
#[derive(Clone, Copy, PartialEq, Eq, Debug)]
pub enum Mode {
    Code,
    Block,
    Line,
}

/// What a piece of the text is.
#[derive(Clone, Copy, PartialEq, Eq, Debug)]
pub enum Piece {
    /// A blank, a comment, a directive that is read as a blank line, or an annotation without a token.
    Blank,
    /// What begins an annotation.
    Open(Mode),
    /// What ends it.
    Close,
    /// A name or keyword, by the bytes that it has in the text.
    Word,
    /// An integer literal, by its value and the type that it has by C99 6.4.4.1.
    Number(u128, Option<CInt>),
    /// A character literal, by its byte.
    Letter(u8),
    /// A string literal, by the bytes that it has in the text.
    Chars,
    /// An operator or punctuator, by its place in the list of all, from 0.
    Mark(u8),
}

/// A piece at the front of a text, with so many bytes after its first.
#[derive(Clone, Copy, PartialEq, Eq, Debug)]
pub struct Found {
    pub piece: Piece,
    pub more: usize,
}

/// Why no piece begins at a byte, or why its token is not put.
#[derive(Clone, Copy, PartialEq, Eq, Debug)]
pub enum Fault {
    /// No piece begins with the byte.
    Byte,
    /// The comment or annotation is not closed.
    Comment,
    /// The name is too long.
    Name,
    /// It is no integer literal, or too large a one.
    Number,
    /// It is no character literal.
    Letter,
    /// The string literal is not closed, or not all bytes and escapes.
    Chars,
    /// The directive is known, and ends in another way than it does.
    Directive,
    /// The word is outside the profile.
    OutsideWord,
    /// The directive is outside the profile.
    OutsideDirective,
    /// It is one token too many.
    Limit,
}
