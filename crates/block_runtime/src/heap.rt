// Births and deaths on the heap.

ghost use Rattle.std.specs.Prelude.{◌≡◌};
ghost use Rattle.mon_syntax.specs.declared.spot.RegionName.TheVariants.{Heap};
ghost use Rattle.mon_syntax.specs.declared.spot.Spot.TheVariants.{In};
ghost use Rattle.mon_syntax.specs.Flat.{flat_calloc, flat_free, flat_malloc, free_by, spot_at, zeroed_block};
ghost use Rattle.mon_syntax.specs.Questions.{live_at};
ghost use Rattle.block_runtime.specs.Replies.{Answers, Changes};

use crate::address::{address_of, number_of};
use crate::{RunFault, Runtime};
use c_syntax::BlockKind;
use flat_mem::BirthFault;
use flat_mem::address::spot_at;
use mon_syntax::{RegionName, Spot};

impl Runtime {
    /// `__e_acsl_malloc(n)`
    pub fn malloc(&mut self, n: u64) -> Result<u64, RunFault>
        ensures { Answers (flat_malloc self.old n) self.old self.new result }
    {
        if n == 0 {
            return Ok(0);
        }
        match self.memory.birth(BlockKind::Heap, n) {
            Ok(p) => Ok(p),
            Err(BirthFault::Full(full)) => Err(RunFault::Full(full)),
        }
    }

    /// `__e_acsl_calloc(n, m)`
    pub fn calloc(&mut self, n: u64, m: u64) -> Result<u64, RunFault>
        ensures { Answers (flat_calloc self.old n m) self.old self.new result }
    {
        match n.checked_mul(m) {
            Some(size) => self.zeroed_block(size),
            None => match self.memory.full_for_any() {
                BirthFault::Full(full) => Err(RunFault::Full(full)),
            },
        }
    }

    /// `__e_acsl_free(P)`
    pub fn free(&mut self, p: u64) -> Result<(), RunFault>
        ensures { Changes (flat_free self.old p) self.old self.new result }
    {
        if p == 0 {
            return Ok(());
        }
        let address = address_of(p);
        match spot_at(address) {
            Spot::In(RegionName::Heap, at) => self.free_at(address, at, number_of(p)),
            _ => Err(RunFault::Fault),
        }
    }

    /// The birth of a block on the heap that holds zeros, all written.
    fn zeroed_block(&mut self, size: u64) -> Result<u64, RunFault>
        ensures { Answers (zeroed_block (flat_malloc self.old size) size) self.old self.new result }
    {
        if size == 0 {
            return Ok(0);
        }
        match self.memory.zeroed_birth(size) {
            Ok(p) => Ok(p),
            Err(BirthFault::Full(full)) => Err(RunFault::Full(full)),
        }
    }

    /// The death of the block with this number whose start is this address, a place of the heap.
    fn free_at(&mut self, address: u32, at: u32, number: u32) -> Result<(), RunFault>
        requires { spot_at address ≡ In Heap at }
        ensures { Changes (free_by self.old at (live_at self.old.heap at number)) self.old self.new result }
    {
        let note = match self.memory.region(RegionName::Heap).live_at(at, number) {
            Some(note) => note,
            None => return Err(RunFault::Fault),
        };
        if note.base != at {
            return Err(RunFault::Fault);
        }
        self.memory.death(address);
        Ok(())
    }
}
