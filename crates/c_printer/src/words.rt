//! Words and marks.

ghost use Rattle.std.specs.Prelude.{◌≡◌};
ghost use Rattle.mon_syntax.specs.Names.{constant_word, type_word};
ghost use Rattle.mon_syntax.specs.Text.{memory_word, operator_mark, result_word};

use mon_syntax::{MemoryCall, MonOp, MonType};

pub fn type_word(t: MonType) -> &'static str
    ensures { result.now ≡ type_word t }
{
    match t {
        MonType::I8 => "i8",
        MonType::U8 => "u8",
        MonType::I16 => "i16",
        MonType::U16 => "u16",
        MonType::I32 => "i32",
        MonType::U32 => "u32",
        MonType::I64 => "i64",
        MonType::U64 => "u64",
        MonType::I128 => "i128",
        MonType::Ptr => "ptr",
    }
}

/// The word of a function's result.
pub fn result_word(kind: Option<MonType>) -> &'static str
    ensures { result.now ≡ result_word kind }
{
    match kind {
        Some(t) => type_word(t),
        None => "void",
    }
}

pub fn constant_word(t: MonType) -> &'static str
    ensures { result.now ≡ constant_word t }
{
    match t {
        MonType::I8 => "I8",
        MonType::U8 => "U8",
        MonType::I16 => "I16",
        MonType::U16 => "U16",
        MonType::I32 => "I32",
        MonType::U32 => "U32",
        MonType::I64 => "I64",
        MonType::U64 => "U64",
        MonType::I128 => "I128",
        MonType::Ptr => "PTR",
    }
}

pub fn operator_mark(op: MonOp) -> &'static str
    ensures { result.now ≡ operator_mark op }
{
    match op {
        MonOp::Add => "+",
        MonOp::Sub => "-",
        MonOp::Mul => "*",
        MonOp::Div => "/",
        MonOp::Rem => "%",
        MonOp::Shl => "<<",
        MonOp::Shr => ">>",
        MonOp::And => "&",
        MonOp::Or => "|",
        MonOp::Xor => "^",
        MonOp::Eq => "==",
        MonOp::Ne => "!=",
        MonOp::Lt => "<",
        MonOp::Le => "<=",
        MonOp::Gt => ">",
        MonOp::Ge => ">=",
    }
}

/// The name of a call on the memory.
pub fn memory_word(f: MemoryCall) -> &'static str
    ensures { result.now ≡ memory_word f }
{
    match f {
        MemoryCall::StoreBlock => "__e_acsl_store_block",
        MemoryCall::DeleteBlock => "__e_acsl_delete_block",
        MemoryCall::Copy(_) => "__e_acsl_copy",
        MemoryCall::Number(_) => "__e_acsl_number",
        MemoryCall::Valid(_) => "__e_acsl_valid",
        MemoryCall::ValidRead(_) => "__e_acsl_valid_read",
        MemoryCall::Initialized(_) => "__e_acsl_initialized",
        MemoryCall::Pointer => "__e_acsl_pointer",
        MemoryCall::Inside => "__e_acsl_inside",
        MemoryCall::BaseAddr => "__e_acsl_base_addr",
        MemoryCall::BlockLength => "__e_acsl_block_length",
        MemoryCall::Offset => "__e_acsl_offset",
        MemoryCall::Separated => "__e_acsl_separated",
        MemoryCall::Malloc => "__e_acsl_malloc",
        MemoryCall::Calloc => "__e_acsl_calloc",
        MemoryCall::Free => "__e_acsl_free",
    }
}
