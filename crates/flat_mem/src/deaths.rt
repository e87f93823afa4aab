// Deaths.

ghost use Rattle.std.specs.Prelude.{◌≡◌};
ghost use Rattle.shadow_segments.specs.Shadow.{IsLiveBase};
ghost use Rattle.mon_syntax.specs.declared.spot.RegionName.TheVariants.{Stack, Heap};
ghost use Rattle.mon_syntax.specs.declared.spot.Spot.TheVariants.{In};
ghost use Rattle.mon_syntax.specs.Flat.{spot_at};
ghost use Rattle.flat_mem.specs.Deaths.{IsYoungest, MayDie, died};

use crate::FlatMem;
use crate::address::spot_at;
use mon_syntax::{RegionName, Spot};

impl FlatMem {
    /// The death of the block that begins at this address: the youngest live stack block, which the stack then ends before, or a live
    /// heap block.
    #[inline(always)]
    pub fn death(&mut self, base: u32)
        requires { MayDie self.old (spot_at base) }
        ensures { self.new ≡ died self.old (spot_at base) }
    {
        match spot_at(base) {
            Spot::In(RegionName::Stack, at) => self.stack_death(at),
            Spot::In(RegionName::Heap, at) => self.heap_death(at),
            _ => {}
        }
    }

    #[inline(always)]
    fn stack_death(&mut self, at: u32)
        requires { IsYoungest self.old at }
        ensures { self.new ≡ died self.old (In Stack at) }
    {
        // A use of a field tells the check how long the segment is.
        let _ = self.stack.len();
        self.stack.death(at);
        self.top = at;
    }

    // Out of line: within the loop over instructions it would be too long.
    #[inline(never)]
    fn heap_death(&mut self, at: u32)
        requires { IsLiveBase self.old.heap.shadow.notes at }
        ensures { self.new ≡ died self.old (In Heap at) }
    {
        self.places.give(at);
        self.heap.death(at);
    }
}
