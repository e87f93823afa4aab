//! Types of registers.

ghost use Rattle.std.specs.Prelude.{◌≡◌, IsTrue};
ghost use Rattle.mon_syntax.specs.Valid.{is_arithmetic, is_whole, has_operator, has_constant};

use mon_syntax::{MonOp, MonType};

/// Whether operators work on numbers of the type.
pub fn is_arithmetic(kind: MonType) -> bool
    ensures { result ≡ is_arithmetic kind }
{
    match kind {
        MonType::I8 | MonType::U8 | MonType::I16 | MonType::U16 | MonType::Ptr => false,
        MonType::I32 | MonType::U32 | MonType::I64 | MonType::U64 | MonType::I128 => true,
    }
}

/// Whether the type is one of whole numbers.
pub fn is_whole(kind: MonType) -> bool
    ensures { result ≡ is_whole kind }
{
    kind != MonType::Ptr
}

/// Whether the operator works on a first operand of the type.
pub fn has_operator(op: MonOp, kind: MonType) -> bool
    ensures { result ≡ has_operator op kind }
{
    if kind != MonType::Ptr {
        return is_arithmetic(kind);
    }
    match op {
        MonOp::Add | MonOp::Sub => true,
        MonOp::Eq | MonOp::Ne | MonOp::Lt | MonOp::Le | MonOp::Gt | MonOp::Ge => true,
        MonOp::Mul | MonOp::Div | MonOp::Rem | MonOp::Shl | MonOp::Shr => false,
        MonOp::And | MonOp::Or | MonOp::Xor => false,
    }
}

/// Whether a constant of the type has the value: one of the type, but not the least `i128`, and of a pointer 0 alone.
pub fn has_constant(kind: MonType, value: i128) -> bool
    ensures { result ≡ has_constant kind value }
{
    match kind {
        MonType::I8 => -128 <= value && value <= 127,
        MonType::U8 => 0 <= value && value <= 255,
        MonType::I16 => -32_768 <= value && value <= 32_767,
        MonType::U16 => 0 <= value && value <= 65_535,
        MonType::I32 => -2_147_483_648 <= value && value <= 2_147_483_647,
        MonType::U32 => 0 <= value && value <= 4_294_967_295,
        MonType::I64 => -9_223_372_036_854_775_808 <= value && value <= 9_223_372_036_854_775_807,
        MonType::U64 => 0 <= value && value <= 18_446_744_073_709_551_615,
        MonType::I128 => value != i128::MIN,
        MonType::Ptr => value == 0,
    }
}
