//! The words of C (C99 6.4.1), and those that name an integer type (C99 6.7.2).

use c_syntax::CInt;
use c_syntax::logic::{BlockFact, MemoryQuestion, Quantifier};

/// A keyword (C99 6.4.1).
#[derive(Clone, Copy, PartialEq, Eq, Debug)]
pub enum Keyword {
    Char,
    Short,
    Int,
    Long,
    Signed,
    Unsigned,
    Void,
    Const,
    Static,
    If,
    Else,
    While,
    Do,
    For,
    Break,
    Continue,
    Return,
    Sizeof,
    Struct,
    Enum,
    Typedef,
    Switch,
    Case,
    Default,
    /// A keyword that no production has.
    Kept,
}

/// What the name of a type denotes (C99 6.7.7).
#[derive(Clone, Copy, PartialEq, Eq, Debug)]
pub enum TypeName {
    /// An integer type of the library (C99 7.17).
    Library(CInt),
    /// A type that a `typedef` of the file declares.
    Declared,
    /// One with a name that is a word of clauses, which it still is.
    DeclaredClause(ClauseWord),
}

/// A word of the clauses of annotations, which is a name besides (ACSL 2.3, 2.4).
#[derive(Clone, Copy, PartialEq, Eq, Debug)]
pub enum ClauseWord {
    Assert,
    Requires,
    Assumes,
    Ensures,
    /// `behavior`, before the name of one.
    Behavior,
    Complete,
    Disjoint,
    /// `behaviors`, behind `complete` and `disjoint`.
    Behaviors,
    /// `assigns`, before what is passed over.
    Assigns,
    /// `loop`, before the word of a clause of a loop.
    Loop,
    Invariant,
    Variant,
}

/// A word that begins with `\` (ACSL 2.2).
#[derive(Clone, Copy, PartialEq, Eq, Debug)]
pub enum LogicWord {
    /// `\true` or `\false`.
    Truth(bool),
    /// `\null`
    Null,
    /// `\base_addr`, `\block_length` or `\offset`.
    Told(BlockFact),
    /// `\valid`, `\valid_read` or `\initialized`.
    Asks(MemoryQuestion),
    /// `\separated`
    Separated,
    /// `\result`
    Result,
    /// `\old`
    Old,
    /// `\at`
    At,
    /// `\forall` or `\exists`.
    Quantifier(Quantifier),
    /// A word that no production has.
    Kept,
}

/// What a word is.
#[derive(Clone, Copy, PartialEq, Eq, Debug)]
pub enum Word {
    Keyword(Keyword),
    TypeName(TypeName),
    /// A word of clauses, which is a name besides.
    Clause(ClauseWord),
    /// `integer`, which is a name of C and a type of annotations.
    Integer,
    /// A word of annotations that begins with `\`.
    Logic(LogicWord),
    Name,
}

/// What is said of a sign.
#[derive(Clone, Copy, PartialEq, Eq, Debug)]
pub enum SignWords {
    Nothing,
    Signed,
    Unsigned,
}

/// What is said of a size, in any order.
#[derive(Clone, Copy, PartialEq, Eq, Debug)]
pub enum SizeWords {
    Nothing,
    Char,
    Short,
    ShortInt,
    Int,
    Long,
    LongInt,
    LongLong,
    LongLongInt,
}

/// The words that are read so far of those that name an integer type.
#[derive(Clone, Copy, PartialEq, Eq, Debug)]
pub struct IntegerWords {
    pub sign: SignWords,
    pub size: SizeWords,
}
