// Births and deaths on the stack, and of globals and literals.

ghost use Rattle.std.specs.Prelude.{◌≡◌, ◌+◌, ◌/◌, ◌<◌, ◌≤◌, Ok, None, Some, get_or, length};
ghost use Rattle.shadow_segments.specs.Shadow.{IsWhole};
ghost use Rattle.c_model.specs.Memory.{rounded, greatest_number};
ghost use Rattle.mon_syntax.specs.declared.spot.RegionName.TheVariants.{Globals, Stack};
ghost use Rattle.mon_syntax.specs.declared.spot.Spot.TheVariants.{In};
ghost use Rattle.mon_syntax.specs.Flat.{delete_by, flat_begin, flat_store_block, flat_delete_block, pointer_to, spot_at};
ghost use Rattle.mon_syntax.specs.Questions.{live_at};
ghost use Rattle.block_runtime.specs.Replies.{Answers, Changes};

use crate::address::{address_of, number_of};
use crate::{RunFault, Runtime};
use c_syntax::BlockKind;
use flat_mem::BirthFault;
use flat_mem::address::spot_at;
use mon_syntax::{RegionName, Spot};
use shadow_segments::BlockNote;

impl Runtime {
    /// `__e_acsl_store_block(n)`
    #[inline(always)]
    pub fn store_block(&mut self, n: u64) -> Result<u64, RunFault>
        ensures { Answers (flat_store_block self.old n) self.old self.new result }
    {
        match self.memory.birth(BlockKind::Stack, n) {
            Ok(p) => Ok(p),
            Err(BirthFault::Full(full)) => Err(RunFault::Full(full)),
        }
    }

    /// `__e_acsl_delete_block(P)`
    #[inline(always)]
    pub fn delete_block(&mut self, p: u64) -> Result<(), RunFault>
        ensures { Changes (flat_delete_block self.old p) self.old self.new result }
    {
        let address = address_of(p);
        match spot_at(address) {
            Spot::In(RegionName::Stack, at) => self.delete_at(address, at, number_of(p)),
            _ => Err(RunFault::Fault),
        }
    }

    /// The death of the block with this number whose start is this address, a place of the stack, if it is the youngest.
    #[inline(always)]
    fn delete_at(&mut self, address: u32, at: u32, number: u32) -> Result<(), RunFault>
        requires { spot_at address ≡ In Stack at }
        ensures { Changes (delete_by self.old at (live_at self.old.stack at number)) self.old self.new result }
    {
        let stack = self.memory.region(RegionName::Stack);
        match stack.live_written(at, number) {
            Some(Some(note)) => self.delete_found(address, at, note),
            Some(None) => Err(RunFault::Fault),
            None => self.delete_behind(address, at, number),
        }
    }

    // The same, also where the block's words aren't written. All of it is done here, so that nothing comes back into what is put in line.
    #[cold]
    #[inline(never)]
    fn delete_behind(&mut self, address: u32, at: u32, number: u32) -> Result<(), RunFault>
        requires { spot_at address ≡ In Stack at }
        ensures { Changes (delete_by self.old at (live_at self.old.stack at number)) self.old self.new result }
    {
        match self.memory.region(RegionName::Stack).live_at(at, number) {
            Some(note) => self.delete_found(address, at, note),
            None => Err(RunFault::Fault),
        }
    }

    // The death of the live block whose units hold this place of the stack, if it begins there and is the youngest.
    #[inline(always)]
    fn delete_found(&mut self, address: u32, at: u32, note: BlockNote) -> Result<(), RunFault>
        requires spot { spot_at address ≡ In Stack at }
        requires there { get_or self.old.stack.shadow.notes (at / 16) None ≡ Some note }
        requires whole { IsWhole self.old.stack.shadow.notes (at / 16) note }
        ensures { Changes (delete_by self.old at (Some note)) self.old self.new result }
    {
        let end = u64::from(at) + (u64::from(note.length) / 16 + 1) * 16;
        if note.base != at || end != u64::from(self.memory.top()) {
            return Err(RunFault::Fault);
        }
        self.memory.death(address);
        Ok(())
    }

    /// The birth of a global or a literal after those before it: it holds these bytes and then zeros, all written.
    pub fn begin(&mut self, kind: BlockKind, len: u64, bytes: &[u8]) -> Result<u64, RunFault>
        requires number { self.old.births < greatest_number }
        requires room { self.old.placed + rounded len ≤ length self.old.globals.bytes }
        requires fits { length bytes.now ≤ len }
        ensures answer { result ≡ Ok (pointer_to (self.old.births + 1) Globals self.old.placed) }
        ensures memory { self.new ≡ flat_begin self.old kind len bytes.now }
    {
        Ok(self.memory.begin(kind, len, bytes))
    }
}
