// The marks in the first word of a unit: bit i is set if byte i is of a number or a piece, and bit 16 + i if it is a piece or a loose one.

ghost use Rattle.std.specs.Prelude.{◌≡◌, ℕ, ◌+◌, ◌-◌, ◌/◌, ◌^◌, ◌<◌, ◌≤◌, ◌⊎◌};
ghost use Rattle.std.specs.Int.{bit_at};
ghost use Rattle.shadow_segments.specs.Shadow.{NumberByte, PieceByte, is_written, is_piece, is_plain, is_number, test_of};
ghost use Rattle.shadow_segments.specs.Words.{ones, all_from, mark_at, mark_by, HasMarks, HasTaken, HasCopied};

use crate::Asked;

// What 1 counts in the second bits of a unit, and in both.
const SECOND: u64 = 0x1_0000;

const BOTH: u64 = 0x1_0001;

/// Whether each of these bytes of a unit is so.
#[inline(always)]
pub fn passes(asked: Asked, state: u64, from: u32, to: u32) -> bool
    requires order { from ≤ to }
    requires small { to ≤ 16 }
    ensures { result ≡ all_from (test_of asked) state from (to - from) }
{
    match asked {
        Asked::Written => are_written(state, from, to),
        Asked::Pieces => are_pieces(state, from, to),
        Asked::Plain => are_plain(state, from, to),
        Asked::Number => are_numbers(state, from, to),
    }
}

// In a test the word is shifted and not the mask, which then is a number if the width is known.

/// Whether these bytes of a unit are written.
#[inline(always)]
fn are_written(state: u64, from: u32, to: u32) -> bool
    requires order { from ≤ to }
    requires small { to ≤ 16 }
    ensures { result ≡ all_from is_written state from (to - from) }
{
    let low = ones(0, to - from);
    ((state | state / SECOND) >> from) & low == low
}

/// Whether these bytes of a unit are pieces, and not loose.
#[inline(always)]
fn are_pieces(state: u64, from: u32, to: u32) -> bool
    requires order { from ≤ to }
    requires small { to ≤ 16 }
    ensures { result ≡ all_from is_piece state from (to - from) }
{
    let low = ones(0, to - from);
    ((state & state / SECOND) >> from) & low == low
}

/// Whether none of these bytes of a unit is a piece, also no loose one.
#[inline(always)]
fn are_plain(state: u64, from: u32, to: u32) -> bool
    requires order { from ≤ to }
    requires small { to ≤ 16 }
    ensures { result ≡ all_from is_plain state from (to - from) }
{
    let low = ones(0, to - from);
    (state >> (16 + from)) & low == 0
}

/// Whether these bytes of a unit are written by numbers.
#[inline(always)]
fn are_numbers(state: u64, from: u32, to: u32) -> bool
    requires order { from ≤ to }
    requires small { to ≤ 16 }
    ensures { result ≡ all_from is_number state from (to - from) }
{
    let low = ones(0, to - from);
    (state >> from) & (low * BOTH) == low
}

/// The bits from `from` up to `to`.
#[inline(always)]
fn ones(from: u32, to: u32) -> u64
    requires order { from ≤ to }
    requires small { to ≤ 16 }
    ensures { result ≡ ones from to }
{
    let count = to - from;
    ((1u64 << count) - 1) << from
}

/// These bytes of a unit are of numbers.
#[inline(always)]
pub fn with_numbers(state: u64, from: u32, to: u32) -> u64
    requires order { from ≤ to }
    requires small { to ≤ 16 }
    ensures { HasMarks state result from to NumberByte }
{
    let low = ones(from, to);
    (state | low) & !(low * SECOND)
}

/// These bytes of a unit are pieces.
#[inline(always)]
pub fn with_pieces(state: u64, from: u32, to: u32) -> u64
    requires order { from ≤ to }
    requires small { to ≤ 16 }
    ensures { HasMarks state result from to PieceByte }
{
    let low = ones(from, to);
    state | low | low * SECOND
}

/// The marks of `count` bytes of a unit, as a copy of `n` bytes takes them: the first bits, and the second.
#[inline(always)]
fn taken_marks(source: u64, from: u32, n: u32, count: u32) -> (u64, u64)
    requires inside { from + count ≤ 16 }
    ensures marks { HasTaken source from n count result.0 result.1 }
    ensures small { (result.0 < 65536) × (result.1 < 65536) }
{
    let low = ones(0, count);
    let pointers = (source >> (16 + from)) & low;
    let written = (source >> from) & low;
    if n < 8 {
        (written & !pointers, pointers)
    } else {
        (written, pointers)
    }
}

/// The marks of `count` bytes of a unit are these.
#[inline(always)]
fn put_marks(target: u64, to: u32, count: u32, written: u64, pointers: u64) -> u64
    requires inside { to + count ≤ 16 }
    requires small { (written < 65536) × (pointers < 65536) }
    requires none { (i : ℕ) → count ≤ i → (bit_at written i ≡ 0) × (bit_at pointers i ≡ 0) }
    ensures number { result / 2 ^ 32 ≡ target / 2 ^ 32 }
    ensures here { (i : ℕ) → i < count → mark_at result (to + i) ≡ mark_by (bit_at written i) (bit_at pointers i) }
    ensures others { (i : ℕ) → i < 16 → (i < to) ⊎ (to + count ≤ i) → mark_at result i ≡ mark_at target i }
{
    let low = ones(to, to + count);
    target & !(low | low * SECOND) | written << to | pointers << (16 + to)
}

/// The marks of `count` bytes, copied from a unit to another, of a copy of `n` bytes.
#[inline(always)]
pub fn copied(source: u64, from: u32, target: u64, to: u32, n: u32, count: u32) -> u64
    requires inside { (from + count ≤ 16) × (to + count ≤ 16) }
    ensures { HasCopied source from target result to n count }
{
    let (written, pointers) = taken_marks(source, from, n, count);
    put_marks(target, to, count, written, pointers)
}
