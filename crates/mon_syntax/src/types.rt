//! Types of registers, and of what operators give.

ghost use Rattle.std.specs.Prelude.{◌≡◌};
ghost use Rattle.mon_syntax.specs.Checking.{same_type};
ghost use Rattle.mon_syntax.specs.Arithmetic.{access_bytes, byte_count, copy_bytes, is_pointer};
ghost use Rattle.mon_syntax.specs.Valid.{is_relation, result_type, second_type};
ghost use Rattle.raw_seg.specs.Bytes.{IsWidth};

use crate::tree::{AccessSize, CopySize, MonOp, MonType};

/// Whether it is the same type.
pub fn same_type(first: MonType, second: MonType) -> bool
    ensures { result ≡ same_type first second }
{
    first == second
}

/// Whether it is the type of pointers.
pub fn is_pointer(kind: MonType) -> bool
    ensures { result ≡ is_pointer kind }
{
    kind == MonType::Ptr
}

fn is_relation(op: MonOp) -> bool
    ensures { result ≡ is_relation op }
{
    match op {
        MonOp::Eq | MonOp::Ne | MonOp::Lt | MonOp::Le | MonOp::Gt | MonOp::Ge => true,
        MonOp::Add | MonOp::Sub | MonOp::Mul | MonOp::Div | MonOp::Rem => false,
        MonOp::Shl | MonOp::Shr | MonOp::And | MonOp::Or | MonOp::Xor => false,
    }
}

/// The type that an operator gives on operands of a type. Two pointers have a distance of type i64.
pub fn result_type(op: MonOp, kind: MonType) -> MonType
    ensures { result ≡ result_type op kind }
{
    if is_relation(op) {
        return MonType::I32;
    }
    match (op, kind) {
        (MonOp::Sub, MonType::Ptr) => MonType::I64,
        _ => kind,
    }
}

/// The type of an operator's second operand, where the first one has a type.
pub fn second_type(op: MonOp, kind: MonType) -> MonType
    ensures { result ≡ second_type op kind }
{
    match (op, kind) {
        (MonOp::Add, MonType::Ptr) => MonType::I64,
        _ => kind,
    }
}

/// The bytes that a value of a type takes in memory.
pub fn byte_count(kind: MonType) -> usize
    ensures exact { result ≡ byte_count kind }
    ensures width { IsWidth result }
{
    match kind {
        MonType::I8 | MonType::U8 => 1,
        MonType::I16 | MonType::U16 => 2,
        MonType::I32 | MonType::U32 => 4,
        MonType::I64 | MonType::U64 | MonType::Ptr => 8,
        MonType::I128 => 16,
    }
}

/// The bytes that a question asks about.
pub fn access_bytes(size: AccessSize) -> usize
    ensures exact { result ≡ access_bytes size }
    ensures width { IsWidth result }
{
    match size {
        AccessSize::One => 1,
        AccessSize::Two => 2,
        AccessSize::Four => 4,
        AccessSize::Eight => 8,
        AccessSize::Sixteen => 16,
    }
}

/// The bytes that a copy takes.
pub fn copy_bytes(size: CopySize) -> usize
    ensures exact { result ≡ copy_bytes size }
    ensures width { IsWidth result }
{
    match size {
        CopySize::One => 1,
        CopySize::Two => 2,
        CopySize::Four => 4,
        CopySize::Eight => 8,
    }
}
