//! Shifts of numbers with infinitely many bits.

ghost use Rattle.std.specs.Prelude.{◌≡◌, ◌≤ℤ◌, pos};
ghost use Rattle.c_model.specs.Ranges.{IsRange, shift_left_range, shift_right_range};
ghost use Rattle.c_model.specs.Ranges as ranges;

use crate::products::{hull_of_four, mul};
use c_syntax::Range;

// The largest count of a shift to the left whose power of 2 has signed 128 bits.
const LARGEST_COUNT: i128 = 126;

/// The range of `a << k`, for the counts of `k` that are not negative; none where `k` has a count above 126.
pub fn shl(a: Range, k: Range) -> Option<Range>
    requires left { IsRange a }
    requires count { IsRange k }
    ensures { result ≡ shift_left_range a k }
{
    if k.hi > LARGEST_COUNT {
        return None;
    }
    let powers = Range {
        lo: power_of_count(k.lo),
        hi: power_of_count(k.hi),
    };
    mul(a, powers)
}

/// The range of `a >> k`, rounded down, for the counts of `k` that are not negative.
pub fn shr(a: Range, k: Range) -> Option<Range>
    requires left { IsRange a }
    requires count { IsRange k }
    ensures { result ≡ shift_right_range a k }
{
    Some(hull_of_four(
        shifted_by_count(a.lo, k.lo),
        shifted_by_count(a.lo, k.hi),
        shifted_by_count(a.hi, k.lo),
        shifted_by_count(a.hi, k.hi),
    ))
}

// 2 to the power of the count, a negative one raised to 0.
fn power_of_count(k: i128) -> i128
    requires { k ≤ℤ pos 126 }
    ensures { result ≡ ranges.power_of_count k }
{
    1 << k.max(0) as u32
}

// The number shifted to the right, by a count put into 0 to 127.
fn shifted_by_count(x: i128, k: i128) -> i128
    ensures { result ≡ ranges.shifted_by_count x k }
{
    x >> k.clamp(0, 127) as u32
}
