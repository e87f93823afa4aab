// The marks of one unit's bytes, by one word.

ghost use Rattle.std.specs.Prelude.{◌≡◌, ◌+◌, ◌-◌, ◌*◌, ◌^◌, ◌<◌, ◌≤◌, length, IfSome, MatchBool};
ghost use Rattle.std.specs.Bool.{OnTrue};
ghost use Rattle.shadow_segments.specs.Shadow.{NumberByte, PieceByte, with_marks, with_part, all_in, test_of};

use crate::bits::{copied, passes, with_numbers, with_pieces};
use crate::{Asked, Shadow};
use raw_seg::steps::Steps;
use std::sync::ledger::Ledger;

impl Shadow {
    /// The bytes from `from` up to `to` of a unit are written by a number.
    #[inline(always)]
    pub fn set_number_in(&mut self, unit: usize, from: u32, to: u32)
        requires inside { unit < length self.old.notes }
        requires order { from ≤ to }
        requires small { to ≤ 16 }
        ensures { self.new ≡ with_marks self.old (16 * unit + from) (to - from) NumberByte }
    {
        let state = self.words.peek(unit);
        self.words.set_state(unit, with_numbers(state, from, to));
    }

    /// The same if the unit's words were written before. `false` if not, and then nothing changes.
    #[inline(always)]
    pub fn set_number_again(&mut self, unit: usize, from: u32, to: u32) -> bool
        requires unit { unit < 2 ^ 32 }
        requires order { from ≤ to }
        requires small { to ≤ 16 }
        ensures inside { OnTrue result (unit < length self.old.notes) }
        ensures marks { MatchBool result (self.new ≡ with_marks self.old (16 * unit + from) (to - from) NumberByte) (self.new ≡ self.old) }
    {
        if self.words.has(unit) {
            self.set_number_in(unit, from, to);
            true
        } else {
            false
        }
    }

    /// The bytes from `from` up to `to` of a unit are pieces of a pointer.
    #[inline(always)]
    pub fn set_pieces_in(&mut self, unit: usize, from: u32, to: u32)
        requires inside { unit < length self.old.notes }
        requires order { from ≤ to }
        requires small { to ≤ 16 }
        ensures { self.new ≡ with_marks self.old (16 * unit + from) (to - from) PieceByte }
    {
        let state = self.words.peek(unit);
        self.words.set_state(unit, with_pieces(state, from, to));
    }

    /// Copies the marks of `count` bytes of a unit, as they stood, of a copy of `n` bytes.
    #[inline(always)]
    pub fn copy_in(&mut self, unit_from: usize, from: u32, unit: usize, to: u32, n: u32, count: u32)
        requires inside { (unit_from < length self.old.notes) × (unit < length self.old.notes) }
        requires small { (from + count ≤ 16) × (to + count ≤ 16) }
        ensures { self.new ≡ with_part self.old self.old.marks (16 * unit_from + from) (16 * unit + to) n count }
    {
        let source = self.words.peek(unit_from);
        let target = self.words.peek(unit);
        self.words
            .set_state(unit, copied(source, from, target, to, n, count));
    }

    /// Copies the marks of `count` bytes of a unit of another shadow, of a copy of `n` bytes.
    #[inline(always)]
    pub fn take_in(
        &mut self,
        other: &Shadow,
        unit_from: usize,
        from: u32,
        unit: usize,
        to: u32,
        n: u32,
        count: u32,
    )
        requires inside { (unit_from < length other.now.notes) × (unit < length self.old.notes) }
        requires small { (from + count ≤ 16) × (to + count ≤ 16) }
        ensures { self.new ≡ with_part self.old other.now.marks (16 * unit_from + from) (16 * unit + to) n count }
    {
        let source = other.words.peek(unit_from);
        let target = self.words.peek(unit);
        self.words
            .set_state(unit, copied(source, from, target, to, n, count));
    }

    /// Whether each byte from `from` up to `to` of a unit is so, by one word.
    #[inline(always)]
    pub fn all_in_unit<L: Ledger>(
        &self,
        asked: Asked,
        unit: usize,
        from: u32,
        to: u32,
        steps: &mut Steps<L>,
    ) -> bool
        requires inside { unit < length self.now.notes }
        requires order { from ≤ to }
        requires small { to ≤ 16 }
        ensures value { result ≡ all_in (test_of asked) self.now.marks (16 * unit + from) (to - from) }
        ensures step { steps.new ≡ steps.old + 1 }
    {
        passes(asked, self.words.state(unit, steps), from, to)
    }

    /// The same where that word is written, and `None` where it isn't.
    #[inline(always)]
    pub fn all_in_unit_written<L: Ledger>(
        &self,
        asked: Asked,
        unit: usize,
        from: u32,
        to: u32,
        steps: &mut Steps<L>,
    ) -> Option<bool>
        requires inside { unit < length self.now.notes }
        requires order { from ≤ to }
        requires small { to ≤ 16 }
        ensures value { IfSome result (λ holds. holds ≡ all_in (test_of asked) self.now.marks (16 * unit + from) (to - from)) }
        ensures step { steps.new ≡ steps.old + 1 }
    {
        let state = self.words.written_state(unit, steps)?;
        Some(passes(asked, state, from, to))
    }
}
