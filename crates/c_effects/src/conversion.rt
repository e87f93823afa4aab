//! The types that values and operators have (C99 6.3.1).

ghost use Rattle.std.specs.Prelude.{◌≡◌};
ghost use Rattle.c_syntax.specs.Ctypes.{plain_type};
ghost use Rattle.c_model.specs.Conversions.{operation_type};
ghost use Rattle.c_effects.specs.Expressions.{operand_type, register_type, value_type};

use c_conversions::conversion::{common, is_shift, promoted};
use c_syntax::{BinOp, CInt, CType};
use mon_syntax::MonType;

/// The type of a register that holds values of the type.
pub fn register_type(k: CInt) -> MonType
    ensures { result ≡ register_type k }
{
    match k {
        CInt::I8 => MonType::I8,
        CInt::U8 => MonType::U8,
        CInt::I16 => MonType::I16,
        CInt::U16 => MonType::U16,
        CInt::I32 => MonType::I32,
        CInt::U32 => MonType::U32,
        CInt::I64 => MonType::I64,
        CInt::U64 => MonType::U64,
    }
}

/// The type of a value: of an integer or a pointer. No other type has values.
pub fn value_type(t: &CType) -> MonType
    ensures { result ≡ value_type (plain_type t.now) }
{
    match t {
        CType::Int(k) => register_type(*k),
        CType::Ptr(_) => MonType::Ptr,
        _ => MonType::I32,
    }
}

/// The type in which operators take a value.
pub fn operand_type(t: MonType) -> MonType
    ensures { result ≡ operand_type t }
{
    match t {
        MonType::I8 | MonType::U8 | MonType::I16 | MonType::U16 => MonType::I32,
        MonType::I32 => MonType::I32,
        MonType::U32 => MonType::U32,
        MonType::I64 => MonType::I64,
        MonType::U64 => MonType::U64,
        MonType::I128 => MonType::I128,
        // a pointer is compared as it is
        MonType::Ptr => MonType::Ptr,
    }
}

/// The type in which an operator computes on operands of two types (C99 6.3.1.8, 6.5.7 p3).
pub fn operation_type(op: BinOp, k: CInt, l: CInt) -> CInt
    ensures { result ≡ operation_type op k l }
{
    if is_shift(op) {
        promoted(k)
    } else {
        common(k, l)
    }
}
