//! Types (C99 6.2.5), and the words for memory that trees and meanings share.

use crate::expression::Expr;
use crate::place::Place;

/// An integer type of the profile by its width in bits and its sign. `char` is `I8`, `long` and `long long` are `I64`.
#[derive(Clone, Copy, PartialEq, Eq, Debug)]
pub enum CInt {
    I8,
    U8,
    I16,
    U16,
    I32,
    U32,
    I64,
    U64,
}

/// A type of C. Typing leaves one of the first five.
#[derive(Drop)]
#[cycle(expr)]
pub enum CType {
    /// `void` (C99 6.2.5 p19).
    Void,
    /// An integer type.
    Int(CInt),
    /// A pointer to this type.
    Ptr(Box<CType>),
    /// An array of elements of this type.
    Array(Box<CType>, Length),
    /// The struct type with this number in `Program::structs`.
    Struct(u32),
    /// The type that a `typedef` of this name declares.
    Named(u32),
    /// `struct` with a tag, at its place.
    StructTag(u32, Place),
    /// `enum` with a tag, at its place.
    EnumTag(u32, Place),
}

/// The length of an array. Typing leaves a count.
#[derive(Drop)]
#[cycle(expr)]
pub enum Length {
    /// `[]`
    Left,
    Written(Box<Expr>),
    Count(u32),
}

/// Where the block of an object stands: with the globals, with the string literals, on the stack or in the heap.
#[derive(Clone, Copy, PartialEq, Eq, Debug)]
pub enum BlockKind {
    Global,
    Literal,
    Stack,
    Heap,
}

/// What has run full where a run stops for want of room.
#[derive(Clone, Copy, PartialEq, Eq, Debug)]
pub enum Segment {
    Heap,
    Stack,
    Frames,
    Numbers,
}

/// How an annotation is broken.
#[derive(Clone, Copy, PartialEq, Eq, Debug)]
pub enum How {
    False,
    Undefined,
}

/// The width of a signed integer type of an annotation's code, in bits.
#[derive(Clone, Copy, PartialEq, Eq, Debug)]
pub enum Width {
    W32,
    W64,
    W128,
}
