// The marks of bytes in a row, unit by unit.

ghost use Rattle.std.specs.Prelude.{◌≡◌, ◌+◌, ◌-◌, ◌*◌, ◌%◌, ◌^◌, ◌<◌, ◌≤◌, length, min};
ghost use Rattle.shadow_segments.specs.Shadow.{NumberByte, PieceByte, with_marks, all_in, is_written, is_piece, is_plain, test_of, touched};

use crate::{Asked, Shadow};
use raw_seg::steps::Steps;
use std::sync::ledger::Ledger;

impl Shadow {
    /// The bytes from `from` up to `to` are written by numbers.
    pub fn set_written(&mut self, from: u32, to: u32)
        requires order { from ≤ to }
        requires inside { to ≤ 16 * length self.old.notes }
        ensures { self.new ≡ with_marks self.old from (to - from) NumberByte }
    {
        if from < to {
            for unit in from / 16..(to - 1) / 16 + 1 {
                self.set_number_in(unit as usize, start_in(unit, from), end_in(unit, to));
            }
        }
    }

    /// The eight bytes from here on are the pieces of a pointer.
    #[inline(always)]
    pub fn set_pointer(&mut self, at: u32)
        requires aligned { at % 8 ≡ 0 }
        requires inside { at + 8 ≤ 16 * length self.old.notes }
        ensures { self.new ≡ with_marks self.old at 8 PieceByte }
    {
        self.set_pieces_in(at as usize / 16, at % 16, at % 16 + 8);
    }

    /// Whether each byte from `from` up to `to` is written.
    pub fn all_written<L: Ledger>(&self, from: u32, to: u32, steps: &mut Steps<L>) -> bool
        requires order { from ≤ to }
        requires inside { to ≤ 16 * length self.now.notes }
        ensures value { result ≡ all_in is_written self.now.marks from (to - from) }
        ensures steps { steps.new ≤ steps.old + 2 * touched from to }
    {
        self.all(Asked::Written, from, to, steps)
    }

    /// Whether each byte from `from` up to `to` is a piece of a pointer, and not loose.
    pub fn all_pointer<L: Ledger>(&self, from: u32, to: u32, steps: &mut Steps<L>) -> bool
        requires order { from ≤ to }
        requires inside { to ≤ 16 * length self.now.notes }
        ensures value { result ≡ all_in is_piece self.now.marks from (to - from) }
        ensures steps { steps.new ≤ steps.old + 2 * touched from to }
    {
        self.all(Asked::Pieces, from, to, steps)
    }

    /// Whether no byte from `from` up to `to` is a piece, also no loose one.
    pub fn no_pointer<L: Ledger>(&self, from: u32, to: u32, steps: &mut Steps<L>) -> bool
        requires order { from ≤ to }
        requires inside { to ≤ 16 * length self.now.notes }
        ensures value { result ≡ all_in is_plain self.now.marks from (to - from) }
        ensures steps { steps.new ≤ steps.old + 2 * touched from to }
    {
        self.all(Asked::Plain, from, to, steps)
    }

    /// Whether each byte from `from` up to `to` is so.
    #[inline(always)]
    fn all<L: Ledger>(&self, asked: Asked, from: u32, to: u32, steps: &mut Steps<L>) -> bool
        requires order { from ≤ to }
        requires inside { to ≤ 16 * length self.now.notes }
        ensures value { result ≡ all_in (test_of asked) self.now.marks from (to - from) }
        ensures steps { steps.new ≤ steps.old + touched from to }
    {
        if from < to {
            for unit in from / 16..(to - 1) / 16 + 1 {
                if !self.all_in_unit(
                    asked,
                    unit as usize,
                    start_in(unit, from),
                    end_in(unit, to),
                    steps,
                ) {
                    return false;
                }
            }
        }
        true
    }
}

/// The first byte of a unit that lies in a range.
#[inline(always)]
fn start_in(unit: u32, from: u32) -> u32
    requires { 16 * unit < 2 ^ 32 }
    ensures { result ≡ from - 16 * unit }
{
    from.saturating_sub(16 * unit)
}

/// The end of what lies in a range of a unit's bytes.
#[inline(always)]
fn end_in(unit: u32, to: u32) -> u32
    requires { 16 * unit ≤ to }
    ensures { result ≡ min (to - 16 * unit) 16 }
{
    (to - 16 * unit).min(16)
}
