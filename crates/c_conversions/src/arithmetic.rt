//! Operators on the values of constant expressions (C99 6.6): on numbers of 128 bits.

ghost use Rattle.std.specs.Prelude.{◌≡◌, ℕ, ◌^◌, Some, ◌+ℤ◌, ◌-ℤ◌, ◌*ℤ◌, suc, ◌-◌, ◌*◌, ◌<◌, pos, negsuc, nat_le, if◌then◌else◌};
ghost use Rattle.c_syntax.specs.Ctypes.{plain_type};
ghost use Rattle.c_syntax.specs.Layouts.{int_size};
ghost use Rattle.c_model.specs.Integers.{bits_of, convert, operate, operate_in};
ghost use Rattle.c_model.specs.Integers.{operate_one, operate_one_in, remainder_in, result_in, result_of, truth};
ghost use Rattle.c_model.specs.Operators.{quotient};
ghost use Rattle.c_conversions.specs.Shifts.{shift_count, shifted_left, shifted_right};

use crate::conversion::{fits, integer_type, is_signed, width};
use c_syntax::{BinOp, CInt, CType, UnOp};

/// The bits of a value in the type, as a number: two's complement.
#[tactic(auto, using(crate::proofs::Wrapped::bits_by))]
fn bits_of(k: CInt, z: i128) -> u64
    ensures exact { result ≡ bits_of k z }
    ensures small { result < 256 ^ int_size k }
{
    match k {
        CInt::I8 | CInt::U8 => z.rem_euclid(256) as u64,
        CInt::I16 | CInt::U16 => z.rem_euclid(65_536) as u64,
        CInt::I32 | CInt::U32 => z.rem_euclid(4_294_967_296) as u64,
        CInt::I64 | CInt::U64 => z.rem_euclid(18_446_744_073_709_551_616) as u64,
    }
}

/// The signed value of bits, of which half begin with a 0.
fn signed(bits: u64, half: u64) -> i128
    requires { bits < 2 * half }
    ensures { result ≡ (if nat_le half bits then negsuc (2 * half - suc bits) else pos bits) }
{
    if half <= bits {
        i128::from(bits) - 2 * i128::from(half)
    } else {
        i128::from(bits)
    }
}

/// A value converted to the type (C99 6.3.1.3).
pub fn convert(k: CInt, z: i128) -> i128
    ensures { result ≡ convert k z }
{
    let bits = bits_of(k, z);
    match k {
        CInt::U8 | CInt::U16 | CInt::U32 | CInt::U64 => i128::from(bits),
        CInt::I8 => signed(bits, 128),
        CInt::I16 => signed(bits, 32_768),
        CInt::I32 => signed(bits, 2_147_483_648),
        CInt::I64 => signed(bits, 9_223_372_036_854_775_808),
    }
}

/// 1 for true, 0 for false.
pub fn truth(b: bool) -> i128
    ensures { result ≡ truth b }
{
    i128::from(b)
}

/// A result in the type: a signed one has to fit (C99 6.5 p5), an unsigned one wraps (C99 6.2.5 p9).
fn result_in(k: CInt, z: i128) -> Option<i128>
    ensures { result ≡ result_in k z }
{
    if is_signed(k) {
        if fits(k, z) { Some(z) } else { None }
    } else {
        Some(convert(k, z))
    }
}

/// `x + y`.
fn sum(k: CInt, x: i128, y: i128) -> Option<i128>
    ensures { result ≡ result_in k (x +ℤ y) }
{
    if is_signed(k) {
        match x.checked_add(y) {
            None => None,
            Some(z) => result_in(k, z),
        }
    } else {
        Some(convert(k, x.wrapping_add(y)))
    }
}

/// `x - y`.
fn difference(k: CInt, x: i128, y: i128) -> Option<i128>
    ensures { result ≡ result_in k (x -ℤ y) }
{
    if is_signed(k) {
        match x.checked_sub(y) {
            None => None,
            Some(z) => result_in(k, z),
        }
    } else {
        Some(convert(k, x.wrapping_sub(y)))
    }
}

/// `x * y`.
fn product(k: CInt, x: i128, y: i128) -> Option<i128>
    ensures { result ≡ result_in k (x *ℤ y) }
{
    if is_signed(k) {
        match x.checked_mul(y) {
            None => None,
            Some(z) => result_in(k, z),
        }
    } else {
        Some(convert(k, x.wrapping_mul(y)))
    }
}

/// `x / y` (C99 6.5.5 p6).
fn quotient(k: CInt, x: i128, y: i128) -> Option<i128>
    ensures { result ≡ result_of k (quotient x y) }
{
    if y == 0 {
        return None;
    }
    if is_signed(k) {
        match x.checked_div(y) {
            None => None,
            Some(z) => result_in(k, z),
        }
    } else {
        Some(convert(k, x.wrapping_div(y)))
    }
}

/// `x % y`, where the quotient is a value of the type.
fn remainder(k: CInt, x: i128, y: i128) -> Option<i128>
    ensures { result ≡ remainder_in k x y }
{
    match quotient(k, x, y) {
        None => None,
        Some(_) => Some(x.wrapping_rem(y)),
    }
}

/// A count of bits of the type: not negative, and less than its width (C99 6.5.7 p3).
fn shift_count(k: CInt, y: i128) -> Option<u32>
    ensures exact { result ≡ shift_count k y }
    ensures small { (n : ℕ) → result ≡ Some n → n < 64 }
{
    if 0 <= y && y < i128::from(width(k)) {
        Some(y as u32)
    } else {
        None
    }
}

fn power(n: u32) -> i128
    requires { n < 64 }
    ensures { result ≡ pos (2 ^ n) }
{
    i128::from(1_u64 << n)
}

/// `x << y` (C99 6.5.7 p4).
fn shifted_left(k: CInt, x: i128, y: i128) -> Option<i128>
    ensures { result ≡ shifted_left k x (shift_count k y) }
{
    match shift_count(k, y) {
        None => None,
        Some(n) => { if x < 0 { None } else { product(k, x, power(n)) } }
    }
}

/// `x >> y` (C99 6.5.7 p5).
fn shifted_right(k: CInt, x: i128, y: i128) -> Option<i128>
    ensures { result ≡ shifted_right x (shift_count k y) }
{
    match shift_count(k, y) {
        None => None,
        Some(n) => Some(x >> n),
    }
}

/// An operator on two values of one type.
fn operate_in(k: CInt, op: BinOp, x: i128, y: i128) -> Option<i128>
    ensures { result ≡ operate_in k op x y }
{
    match op {
        BinOp::Add => sum(k, x, y),
        BinOp::Sub => difference(k, x, y),
        BinOp::Mul => product(k, x, y),
        BinOp::Div => quotient(k, x, y),
        BinOp::Rem => remainder(k, x, y),
        BinOp::Shl => shifted_left(k, x, y),
        BinOp::Shr => shifted_right(k, x, y),
        BinOp::BitAnd => Some(x & y),
        BinOp::BitOr => Some(x | y),
        BinOp::BitXor => Some(x ^ y),
        BinOp::Eq => Some(truth(x == y)),
        BinOp::Ne => Some(truth(x != y)),
        BinOp::Lt => Some(truth(x < y)),
        BinOp::Le => Some(truth(x <= y)),
        BinOp::Gt => Some(truth(x > y)),
        BinOp::Ge => Some(truth(x >= y)),
    }
}

/// The same in a type.
pub fn operate(t: &CType, op: BinOp, x: i128, y: i128) -> Option<i128>
    ensures { result ≡ operate (plain_type t.now) op x y }
{
    match integer_type(t) {
        None => None,
        Some(k) => operate_in(k, op, x, y),
    }
}

/// An operator on a value of the type (C99 6.5.3.3).
fn operate_one_in(k: CInt, op: UnOp, x: i128) -> Option<i128>
    ensures { result ≡ operate_one_in k op x }
{
    match op {
        UnOp::Plus => Some(x),
        UnOp::Minus => difference(k, 0, x),
        UnOp::Not => Some(truth(x == 0)),
        UnOp::Flip => result_in(k, !x),
        UnOp::Deref | UnOp::Address => None,
    }
}

/// The same in a type.
pub fn operate_one(t: &CType, op: UnOp, x: i128) -> Option<i128>
    ensures { result ≡ operate_one (plain_type t.now) op x }
{
    match integer_type(t) {
        None => None,
        Some(k) => operate_one_in(k, op, x),
    }
}
