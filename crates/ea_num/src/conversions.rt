//! The width of a range, and the conversion of a value to an integer type.

ghost use Rattle.std.specs.Prelude.{◌≡◌, ◌&&◌, ◌^◌, nat_lt, pos};
ghost use Rattle.std.specs.Int.Signed.{mag};
ghost use Rattle.c_syntax.specs.Layouts.{int_size};
ghost use Rattle.c_model.specs.Integers.{is_signed};
ghost use Rattle.c_model.specs.Ranges.{width_of_range, wrapped};
ghost use Rattle.c_model.specs.TermRanges.{is_inside, type_range};

use crate::bits::magnitude;
use c_syntax::{CInt, Range, Width};

/// The least width whose signed type has both bounds.
pub fn width_of(r: Range) -> Width
    ensures { result ≡ width_of_range r }
{
    if has_bits(r, 1 << 31) {
        Width::W32
    } else if has_bits(r, 1 << 63) {
        Width::W64
    } else {
        Width::W128
    }
}

// Whether neither bound is as far from 0 as the power of 2, or -1 less.
fn has_bits(r: Range, power: u128) -> bool
    ensures { result ≡ (nat_lt (mag r.lo) power && nat_lt (mag r.hi) power) }
{
    magnitude(r.lo) < power && magnitude(r.hi) < power
}

/// The values of an integer type (C99 6.2.6.2).
pub fn type_range(k: CInt) -> Range
    ensures { result ≡ type_range k }
{
    let (lo, hi) = match k {
        CInt::I8 => (i128::from(i8::MIN), i128::from(i8::MAX)),
        CInt::U8 => (0, i128::from(u8::MAX)),
        CInt::I16 => (i128::from(i16::MIN), i128::from(i16::MAX)),
        CInt::U16 => (0, i128::from(u16::MAX)),
        CInt::I32 => (i128::from(i32::MIN), i128::from(i32::MAX)),
        CInt::U32 => (0, i128::from(u32::MAX)),
        CInt::I64 => (i128::from(i64::MIN), i128::from(i64::MAX)),
        CInt::U64 => (0, i128::from(u64::MAX)),
    };
    Range { lo, hi }
}

/// Whether each number of the first range lies in the second.
pub fn is_inside(a: Range, b: Range) -> bool
    ensures { result ≡ is_inside a b }
{
    b.lo <= a.lo && a.hi <= b.hi
}

/// The value of the type `to` that is congruent to `v` modulo 2 to the power of the type's bits (C99 6.3.1.3, where a
/// value that a signed type does not have is converted as in two's complement).
pub fn wrap(to: CInt, v: i128) -> i128
    ensures { result ≡ wrapped to v }
{
    let count = value_count(to);
    let bits = v.rem_euclid(count);
    if is_signed(to) && count / 2 <= bits {
        bits - count
    } else {
        bits
    }
}

// The number of values of the type.
fn value_count(to: CInt) -> i128
    ensures { result ≡ pos (256 ^ int_size to) }
{
    match to {
        CInt::I8 | CInt::U8 => 1 << 8,
        CInt::I16 | CInt::U16 => 1 << 16,
        CInt::I32 | CInt::U32 => 1 << 32,
        CInt::I64 | CInt::U64 => 1 << 64,
    }
}

fn is_signed(to: CInt) -> bool
    ensures { result ≡ is_signed to }
{
    match to {
        CInt::I8 | CInt::I16 | CInt::I32 | CInt::I64 => true,
        CInt::U8 | CInt::U16 | CInt::U32 | CInt::U64 => false,
    }
}
