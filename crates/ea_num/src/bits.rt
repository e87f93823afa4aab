//! Bitwise operators on infinite two's complement.

ghost use Rattle.std.specs.Prelude.{◌≡◌, ◌-◌, ◌^◌, ◌≤◌, pos};
ghost use Rattle.std.specs.Int.Signed.{mag};
ghost use Rattle.c_model.specs.Ranges.{IsRange, bits_range, bits_of_both, bitwise_and_range, bitwise_or_range, bitwise_xor_range};

use crate::products::{are_nonnegative, is_nonnegative};
use c_syntax::Range;

/// The range of `a & b`.
pub fn bit_and(a: Range, b: Range) -> Option<Range>
    requires left { IsRange a }
    requires right { IsRange b }
    ensures { result ≡ bitwise_and_range a b }
{
    Some(match (is_nonnegative(a), is_nonnegative(b)) {
        (true, true) => Range {
            lo: 0,
            hi: a.hi.min(b.hi),
        },
        (true, false) => Range { lo: 0, hi: a.hi },
        (false, true) => Range { lo: 0, hi: b.hi },
        (false, false) => of_bits(a, b, bits_of_both(a, b)),
    })
}

/// The range of `a | b`.
pub fn bit_or(a: Range, b: Range) -> Option<Range>
    requires left { IsRange a }
    requires right { IsRange b }
    ensures { result ≡ bitwise_or_range a b }
{
    Some(of_bits(a, b, bits_of_both(a, b)))
}

/// The range of `a ^ b`.
pub fn bit_xor(a: Range, b: Range) -> Option<Range>
    requires left { IsRange a }
    requires right { IsRange b }
    ensures { result ≡ bitwise_xor_range a b }
{
    Some(of_bits(a, b, bits_of_both(a, b)))
}

// The numbers of so many bits, without a sign where both operands have none.
fn of_bits(a: Range, b: Range, bits: u32) -> Range
    requires { bits ≤ 127 }
    ensures { result ≡ bits_range a b bits }
{
    let hi = greatest_of_bits(bits);
    if are_nonnegative(a, b) {
        Range { lo: 0, hi }
    } else {
        Range { lo: -hi - 1, hi }
    }
}

// The greatest number of so many bits.
fn greatest_of_bits(bits: u32) -> i128
    requires { bits ≤ 127 }
    ensures { result ≡ pos (2 ^ bits - 1) }
{
    ((1u128 << bits) - 1) as i128
}

// The least number of bits that hold both ranges, without the sign bit.
fn bits_of_both(a: Range, b: Range) -> u32
    ensures value { result ≡ bits_of_both a b }
    ensures bound { result ≤ 127 }
{
    let most = magnitude(a.lo)
        .max(magnitude(a.hi))
        .max(magnitude(b.lo).max(magnitude(b.hi)));
    128 - most.leading_zeros()
}

// The number, or its complement where it is negative.
pub(crate) fn magnitude(x: i128) -> u128
    ensures { result ≡ mag x }
{
    if x < 0 { !x as u128 } else { x as u128 }
}
