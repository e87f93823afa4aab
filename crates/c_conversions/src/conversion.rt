//! The types that operands are converted to (C99 6.3.1.1, 6.3.1.8), and what types have a meaning where.

ghost use Rattle.std.specs.Prelude.{◌≡◌, option_map};
ghost use Rattle.c_syntax.specs.Ctypes.{plain_length, plain_type};
ghost use Rattle.c_model.specs.Integers.{fits, integer_type, is_signed, width};
ghost use Rattle.c_model.specs.Conversions.{common, is_relation, is_shift, promoted, result_type, wider};
ghost use Rattle.c_model.specs.Meaning.{is_array, is_pointer};
ghost use Rattle.c_model.specs.ExpressionTyping.{are_compatible, are_integers, is_character, is_difference, is_equality, is_scalar, is_step, is_struct};
ghost use Rattle.c_model.specs.ExpressionTyping.{is_void, pointed, points_to_void, same_int, same_length, same_type};

use c_syntax::{BinOp, CInt, CType, Length};

fn same_int(k: CInt, l: CInt) -> bool
    ensures { result ≡ same_int k l }
{
    k == l
}

/// Whether two lengths are one count.
fn same_length(n: &Length, m: &Length) -> bool
    ensures { result ≡ same_length (plain_length n.now) (plain_length m.now) }
{
    match (n, m) {
        (Length::Count(n), Length::Count(m)) => *n == *m,
        _ => false,
    }
}

/// Whether two types of a typed text are one.
pub fn same_type(t: &CType, u: &CType) -> bool
    ensures { result ≡ same_type (plain_type t.now) (plain_type u.now) }
{
    match (t, u) {
        (CType::Void, CType::Void) => true,
        (CType::Int(k), CType::Int(l)) => same_int(*k, *l),
        (CType::Ptr(t), CType::Ptr(u)) => same_type(t, u),
        (CType::Array(t, n), CType::Array(u, m)) => same_length(n, m) && same_type(t, u),
        (CType::Struct(n), CType::Struct(m)) => *n == *m,
        _ => false,
    }
}

/// Whether a condition may have the type (C99 6.2.5 p21).
pub fn is_scalar(t: &CType) -> bool
    ensures { result ≡ is_scalar (plain_type t.now) }
{
    matches!(t, CType::Int(_) | CType::Ptr(_))
}

pub fn is_void(t: &CType) -> bool
    ensures { result ≡ is_void (plain_type t.now) }
{
    matches!(t, CType::Void)
}

pub fn is_struct(t: &CType) -> bool
    ensures { result ≡ is_struct (plain_type t.now) }
{
    matches!(t, CType::Struct(_))
}

pub fn is_pointer(t: &CType) -> bool
    ensures { result ≡ is_pointer (plain_type t.now) }
{
    matches!(t, CType::Ptr(_))
}

pub fn is_array(t: &CType) -> bool
    ensures { result ≡ is_array (plain_type t.now) }
{
    matches!(t, CType::Array(..))
}

/// Whether strings fill arrays of the type (C99 6.2.5 p15, 6.7.8 p14).
pub fn is_character(t: &CType) -> bool
    ensures { result ≡ is_character (plain_type t.now) }
{
    matches!(t, CType::Int(CInt::I8 | CInt::U8))
}

/// The type that is pointed to, where the type is a pointer's.
pub fn pointed(t: &CType) -> Option<&CType>
    ensures { option_map (λ u. plain_type u.now) result ≡ pointed (plain_type t.now) }
{
    match t {
        CType::Ptr(t) => Some(t),
        _ => None,
    }
}

/// The integer type that it is, where it is one.
pub fn integer_type(t: &CType) -> Option<CInt>
    ensures { result ≡ integer_type (plain_type t.now) }
{
    match t {
        CType::Int(k) => Some(*k),
        _ => None,
    }
}

pub fn points_to_void(t: &CType) -> bool
    ensures { result ≡ points_to_void (plain_type t.now) }
{
    match t {
        CType::Ptr(t) => is_void(t),
        _ => false,
    }
}

/// Two pointers of one type, or one of them to void (C99 6.5.9 p2, 6.5.16.1).
pub fn are_compatible(t: &CType, u: &CType) -> bool
    ensures { result ≡ are_compatible (plain_type t.now) (plain_type u.now) }
{
    (is_pointer(t) && is_pointer(u)) && (same_type(t, u) || points_to_void(t) || points_to_void(u))
}

pub fn are_integers(t: &CType, u: &CType) -> bool
    ensures { result ≡ are_integers (plain_type t.now) (plain_type u.now) }
{
    integer_type(t).is_some() && integer_type(u).is_some()
}

/// Whether values of the type can be negative.
pub fn is_signed(k: CInt) -> bool
    ensures { result ≡ is_signed k }
{
    match k {
        CInt::I8 | CInt::I16 | CInt::I32 | CInt::I64 => true,
        CInt::U8 | CInt::U16 | CInt::U32 | CInt::U64 => false,
    }
}

/// The bits of the type.
pub fn width(k: CInt) -> u8
    ensures { result ≡ width k }
{
    match k {
        CInt::I8 | CInt::U8 => 8,
        CInt::I16 | CInt::U16 => 16,
        CInt::I32 | CInt::U32 => 32,
        CInt::I64 | CInt::U64 => 64,
    }
}

/// Whether the type has the value.
pub fn fits(k: CInt, n: i128) -> bool
    ensures { result ≡ fits k n }
{
    match k {
        CInt::I8 => i128::from(i8::MIN) <= n && n <= i128::from(i8::MAX),
        CInt::U8 => 0 <= n && n <= i128::from(u8::MAX),
        CInt::I16 => i128::from(i16::MIN) <= n && n <= i128::from(i16::MAX),
        CInt::U16 => 0 <= n && n <= i128::from(u16::MAX),
        CInt::I32 => i128::from(i32::MIN) <= n && n <= i128::from(i32::MAX),
        CInt::U32 => 0 <= n && n <= i128::from(u32::MAX),
        CInt::I64 => i128::from(i64::MIN) <= n && n <= i128::from(i64::MAX),
        CInt::U64 => 0 <= n && n <= i128::from(u64::MAX),
    }
}

/// The integer promotions (C99 6.3.1.1 p2).
pub fn promoted(k: CInt) -> CInt
    ensures { result ≡ promoted k }
{
    match k {
        CInt::I8 | CInt::U8 | CInt::I16 | CInt::U16 | CInt::I32 => CInt::I32,
        CInt::U32 => CInt::U32,
        CInt::I64 => CInt::I64,
        CInt::U64 => CInt::U64,
    }
}

/// The one of two promoted types that both are converted to.
pub fn wider(k: CInt, l: CInt) -> CInt
    ensures { result ≡ wider k l }
{
    if width(k) < width(l) {
        l
    } else if width(l) < width(k) {
        k
    } else if is_signed(k) {
        l
    } else {
        k
    }
}

/// The usual arithmetic conversions (C99 6.3.1.8).
pub fn common(k: CInt, l: CInt) -> CInt
    ensures { result ≡ common k l }
{
    wider(promoted(k), promoted(l))
}

/// `<<` and `>>`, whose operands keep their own types (C99 6.5.7 p3).
pub fn is_shift(op: BinOp) -> bool
    ensures { result ≡ is_shift op }
{
    matches!(op, BinOp::Shl | BinOp::Shr)
}

/// `<`, `==` and the like, whose result is an `int` (C99 6.5.8, 6.5.9).
pub fn is_relation(op: BinOp) -> bool
    ensures { result ≡ is_relation op }
{
    matches!(
        op,
        BinOp::Eq | BinOp::Ne | BinOp::Lt | BinOp::Le | BinOp::Gt | BinOp::Ge
    )
}

/// The type of an operator's result, from those of its operands.
pub fn result_type(op: BinOp, k: CInt, l: CInt) -> CInt
    ensures { result ≡ result_type op k l }
{
    if is_relation(op) {
        CInt::I32
    } else if is_shift(op) {
        promoted(k)
    } else {
        common(k, l)
    }
}

/// `+`, and `-` where the integer stands on its right: they go on by elements (C99 6.5.6 p8).
pub fn is_step(op: BinOp, right: bool) -> bool
    ensures { result ≡ is_step op right }
{
    match op {
        BinOp::Add => true,
        BinOp::Sub => right,
        _ => false,
    }
}

pub fn is_equality(op: BinOp) -> bool
    ensures { result ≡ is_equality op }
{
    matches!(op, BinOp::Eq | BinOp::Ne)
}

pub fn is_difference(op: BinOp) -> bool
    ensures { result ≡ is_difference op }
{
    matches!(op, BinOp::Sub)
}
