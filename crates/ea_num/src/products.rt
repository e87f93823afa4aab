//! Products, quotients and remainders.

ghost use Rattle.std.specs.Prelude.{◌≡◌, ◌&&◌, ◌<◌, ◌^◌, pos, neg_ℤ, ◌≤ℤ◌, unsigned_abs};
ghost use Rattle.c_model.specs.Ranges.{IsRange, product_range, quotient_range, remainder_range, greatest_abs, from_to};
ghost use Rattle.c_model.specs.Ranges as ranges;

use c_syntax::Range;

// The least number of signed 128 bits, whose quotient by -1 has no such bits.
const LEAST: i128 = i128::MIN;

/// The range of `a * b`.
pub fn mul(a: Range, b: Range) -> Option<Range>
    requires left { IsRange a }
    requires right { IsRange b }
    ensures { result ≡ product_range a b }
{
    let low_low = a.lo.checked_mul(b.lo)?;
    let low_high = a.lo.checked_mul(b.hi)?;
    let high_low = a.hi.checked_mul(b.lo)?;
    let high_high = a.hi.checked_mul(b.hi)?;
    Some(hull_of_four(low_low, low_high, high_low, high_high))
}

/// The range of `a / b`, rounded toward zero; none where `a` has the least number of signed 128 bits.
pub fn div(a: Range, b: Range) -> Option<Range>
    requires left { IsRange a }
    requires right { IsRange b }
    ensures { result ≡ quotient_range a b }
{
    if a.lo == LEAST {
        return None;
    }
    if are_nonnegative(a, b) {
        Some(Range { lo: 0, hi: a.hi })
    } else {
        Some(around_zero(greatest_abs(a)))
    }
}

/// The range of `a % b`, which has the sign of `a`; none where `a` has the least number of signed 128 bits.
pub fn rem(a: Range, b: Range) -> Option<Range>
    requires left { IsRange a }
    requires right { IsRange b }
    ensures { result ≡ remainder_range a b }
{
    if a.lo == LEAST {
        return None;
    }
    let most = greatest_abs(b).saturating_sub(1) as i128;
    Some(Range {
        lo: least_remainder(a.lo, most),
        hi: greatest_remainder(a.hi, most),
    })
}

// The least remainder of dividends from `lo` on, where none is more than `most` away from 0.
fn least_remainder(lo: i128, most: i128) -> i128
    requires { pos 0 ≤ℤ most }
    ensures { result ≡ ranges.least_remainder lo (unsigned_abs most) }
{
    if lo < 0 { lo.max(-most) } else { 0 }
}

// The greatest remainder of dividends up to `hi`, where none is more than `most` away from 0.
fn greatest_remainder(hi: i128, most: i128) -> i128
    requires { pos 0 ≤ℤ most }
    ensures { result ≡ ranges.greatest_remainder hi (unsigned_abs most) }
{
    if hi > 0 { hi.min(most) } else { 0 }
}

// The numbers that are at most so far from 0.
fn around_zero(most: u128) -> Range
    requires { most < 2 ^ 127 }
    ensures { result ≡ from_to (neg_ℤ (pos most)) (pos most) }
{
    let hi = most as i128;
    Range { lo: -hi, hi }
}

// Whether the range has no negative number.
pub(crate) fn is_nonnegative(r: Range) -> bool
    ensures { result ≡ ranges.is_nonnegative r }
{
    r.lo >= 0
}

// The greatest absolute value of the range.
fn greatest_abs(r: Range) -> u128
    ensures { result ≡ greatest_abs r }
{
    r.lo.unsigned_abs().max(r.hi.unsigned_abs())
}

// The range from the least to the greatest of the numbers.
pub(crate) fn hull_of_four(a: i128, b: i128, c: i128, d: i128) -> Range
    ensures { result ≡ ranges.hull_of_four a b c d }
{
    Range {
        lo: a.min(b).min(c.min(d)),
        hi: a.max(b).max(c.max(d)),
    }
}

// Whether neither range has a negative number.
pub(crate) fn are_nonnegative(a: Range, b: Range) -> bool
    ensures { result ≡ (ranges.is_nonnegative a && ranges.is_nonnegative b) }
{
    is_nonnegative(a) && is_nonnegative(b)
}
