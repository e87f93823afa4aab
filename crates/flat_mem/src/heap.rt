// Births on the heap.

ghost use Rattle.std.specs.Prelude.{◌≡◌, ℕ, ◌+◌, ◌≤◌, ◌^◌, IfOk, MatchResult, length};
ghost use Rattle.shadow_segments.specs.Shadow.{longest_segment};
ghost use Rattle.mon_syntax.specs.declared.spot.RegionName.TheVariants.{Heap};
ghost use Rattle.mon_syntax.specs.Memory.{Gives};
ghost use Rattle.mon_syntax.specs.Flat.{heap_block, pointer_to, zeroed_block};
ghost use Rattle.flat_mem.specs.Births.{Bears, unborn};

use crate::address::pointer_to;
use crate::{BirthFault, FlatMem};
use c_syntax::{BlockKind, Segment};
use mon_syntax::RegionName;
use shadow_segments::BlockNote;

impl FlatMem {
    /// The birth of a block on the heap that holds zeros, all written.
    pub fn zeroed_birth(&mut self, len: u64) -> Result<u64, BirthFault>
        ensures { Bears (zeroed_block (heap_block self.old len) len) self.old self.new result }
    {
        match self.heap_place(len) {
            Ok(at) => {
                self.heap.fill_with(at, len as u32, &[]);
                Ok(pointer_to(self.births, RegionName::Heap, at))
            }
            Err(fault) => Err(fault),
        }
    }

    /// What is full at the birth of a block that is longer than any heap.
    pub fn full_for_any(&self) -> BirthFault
        ensures { (n : ℕ) → 2 ^ 64 ≤ n → heap_block self.now n ≡ unborn result }
    {
        // A use of a field tells the check how long the heap is.
        let _ = self.heap.len();
        if self.births < u32::MAX {
            BirthFault::Full(Segment::Heap)
        } else {
            BirthFault::Full(Segment::Numbers)
        }
    }

    pub(crate) fn heap_birth(&mut self, len: u64) -> Result<u64, BirthFault>
        ensures { Bears (heap_block self.old len) self.old self.new result }
    {
        match self.heap_place(len) {
            Ok(at) => Ok(pointer_to(self.births, RegionName::Heap, at)),
            Err(fault) => Err(fault),
        }
    }

    /// The birth of a block on the heap: its place.
    fn heap_place(&mut self, n: u64) -> Result<u32, BirthFault>
        ensures answer { MatchResult result
            (λ at. heap_block self.old n ≡ Gives (pointer_to (self.old.births + 1) Heap at) self.new)
            (λ why. (heap_block self.old n ≡ unborn why) × (self.new ≡ self.old)) }
        ensures room { IfOk result (λ at. at + n ≤ length self.new.heap.bytes) }
        ensures small { length self.new.heap.bytes ≤ longest_segment }
    {
        // A use of a field tells the check how long the heap is.
        let _ = self.heap.len();
        if self.births == u32::MAX {
            return Err(BirthFault::Full(Segment::Numbers));
        }
        match self.places.take(n) {
            Some(at) => {
                self.births += 1;
                self.heap.birth(BlockNote {
                    base: at,
                    length: n as u32,
                    number: self.births,
                    kind: BlockKind::Heap,
                });
                Ok(at)
            }
            None => Err(BirthFault::Full(Segment::Heap)),
        }
    }
}
