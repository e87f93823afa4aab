//! The words of monitored C.

ghost use Rattle.std.specs.Prelude.{◌≡◌};
ghost use Rattle.c_model.specs.Reports.{kind_word};

use crate::tree::MonType;
use c_syntax::Kind;

/// A name of the runtime.
#[derive(Clone, Copy, PartialEq, Eq, Debug)]
pub enum Runtime {
    Step,
    Assert,
    PutChar,
    GetChar,
    Exit,
    PrintText,
    PrintSigned,
    PrintUnsigned,
    PrintString,
    StoreBlock,
    DeleteBlock,
    Copy,
    Number,
    Valid,
    ValidRead,
    Initialized,
    Pointer,
    Inside,
    BaseAddr,
    BlockLength,
    Offset,
    Separated,
    Malloc,
    Calloc,
    Free,
    /// A name that is kept for the runtime, and that no call has.
    Kept,
}

/// What a word is.
#[derive(Clone, Copy, PartialEq, Eq, Debug)]
pub enum Word {
    TypeName(MonType),
    /// The word of a constant: a type's name in capitals.
    Constant(MonType),
    Void,
    If,
    Else,
    While,
    Goto,
    Return,
    Static,
    Const,
    Char,
    /// `__e_acsl_initialize`, the mark of a stored number.
    Initialize,
    /// `__e_acsl_initialize_ptr`, the mark of a stored pointer.
    InitializePointer,
    Runtime(Runtime),
    Name,
}

/// The word of a kind of annotation, in a monitored text and in the line of a broken one.
pub fn kind_word(kind: Kind) -> &'static str
    ensures { result.now ≡ kind_word kind }
{
    match kind {
        Kind::Assert => "assert",
        Kind::Requires => "requires",
        Kind::Assumes => "assumes",
        Kind::Ensures => "ensures",
        Kind::Complete => "complete",
        Kind::Disjoint => "disjoint",
        Kind::Invariant => "invariant",
        Kind::Variant => "variant",
        Kind::Rte => "rte",
    }
}
