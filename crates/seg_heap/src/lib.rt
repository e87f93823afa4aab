// Placement of blocks in the heap's segment.
#![tactic(auto)]

ghost use Rattle.std.specs.Prelude.{◌≡◌, ℕ, ◌≤◌, [], IfOk, IfSome, IfNone, MatchOption};
ghost use Rattle.seg_heap.specs.Placement.{IsFree, IsLeastPlace, AreApart, IsStart, with_block, without_block};

use std::alloc::{AllocError, Global};
use std::marker::Model;

pub mod gaps;
mod nodes;
pub mod numbers;

use gaps::Gaps;
use numbers::Numbers;

/// The heap's segment: which places are taken, and where the next block goes. Blocks and gaps cover it, one after the other.
#[derive(Drop)]
pub struct Placer {
    units: u32,
    // One more than the length of the block that begins at a unit, 0 where none does.
    starts: Numbers,
    // The units of the gap that ends where a block begins. It says nothing of other units.
    before: Numbers,
    gaps: Gaps,
}

impl Model for Placer {
    ghost use Rattle.seg_heap.specs.Placement.{Heap};
    ghost use Rattle.seg_heap.specs.Tiles.{Keeps, heap_of};

    ghost Value = { Heap };

    ghost view = { λ p. heap_of p.units p.starts };

    ghost invariant = { λ p. Keeps p.units p.starts p.before p.gaps };
}

impl Placer {
    /// An empty segment of so many units of 16 bytes. The memory for its records is reserved here, and none later.
    pub fn new(alloc: Global, units: u32) -> Result<Placer, AllocError>
        requires { units ≤ 16777216 }
        ensures { IfOk result (λ placer. (placer.units ≡ units) × (placer.live ≡ [])) }
    {
        let starts = Numbers::new(alloc, units)?;
        let before = Numbers::new(alloc, units)?;
        let mut gaps = Gaps::new(alloc, units)?;
        gaps.set(0, units);
        Ok(Placer {
            units,
            starts,
            before,
            gaps,
        })
    }

    /// Takes the least place, in bytes, for a block of this length. `None` where no place fits.
    pub fn take(&mut self, length: u64) -> Option<u32>
        ensures least { MatchOption result ((place : ℕ) → ¬ IsFree self.old length place) (IsLeastPlace self.old length) }
        ensures taken { IfSome result (λ place. self.new ≡ with_block self.old place length) }
        ensures full { IfNone result (self.new ≡ self.old) }
        ensures apart { AreApart self.new }
    {
        let size = 16 * u64::from(self.units);
        if length >= size {
            return None;
        }
        let count = (length / 16 + 1) as u32;
        let first = match self.gaps.first(count) {
            Some(first) => first,
            None => return None,
        };
        let rest = self.gaps.at(first) - count;
        self.gaps.set(first, 0);
        self.gaps.set(first + count, rest);
        self.before.set(first, 0);
        self.before.set(first + count + rest, rest);
        self.starts.set(first, length as u32 + 1);
        Some(16 * first)
    }

    /// Gives up the block that begins at this place.
    pub fn give(&mut self, place: u32)
        requires { IsStart self.old place }
        ensures given { self.new ≡ without_block self.old place }
        ensures apart { AreApart self.new }
    {
        let unit = place / 16;
        let count = (self.starts.at(unit) - 1) / 16 + 1;
        let front = self.before.at(unit);
        let back = self.gaps.at(unit + count);
        let gap = front + count + back;
        self.gaps.set(unit + count, 0);
        self.gaps.set(unit - front, gap);
        self.before.set(unit - front + gap, gap);
        self.starts.set(unit, 0);
    }
}
