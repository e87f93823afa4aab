// Births, but for the heap's own.

ghost use Rattle.std.specs.Prelude.{◌≡◌, ◌+◌, ◌<◌, ◌≤◌, length};
ghost use Rattle.mon_syntax.specs.declared.spot.RegionName.TheVariants.{Globals};
ghost use Rattle.mon_syntax.specs.Flat.{flat_begin, flat_store_block, pointer_to};
ghost use Rattle.flat_mem.specs.Births.{Bears, HasRoom, MayBeBorn, flat_birth, global_birth};

use crate::address::pointer_to;
use crate::{BirthFault, FlatMem};
use c_syntax::{BlockKind, Segment};
use mon_syntax::RegionName;
use shadow_segments::BlockNote;

impl FlatMem {
    /// The birth of a block of so many bytes, none of them written: the pointer to its start. A number is asked for first, and then
    /// a place. Globals and literals are born one after the other, and only if there is room.
    #[inline(always)]
    pub fn birth(&mut self, kind: BlockKind, len: u64) -> Result<u64, BirthFault>
        requires { MayBeBorn self.old kind len }
        ensures { Bears (flat_birth self.old kind len) self.old self.new result }
    {
        match kind {
            BlockKind::Stack => self.stack_birth(len),
            BlockKind::Heap => self.heap_birth(len),
            BlockKind::Global => Ok(self.global_birth(BlockKind::Global, len)),
            BlockKind::Literal => Ok(self.global_birth(BlockKind::Literal, len)),
        }
    }

    /// The birth of a global or a literal that holds these bytes and then zeros, all written.
    pub fn begin(&mut self, kind: BlockKind, len: u64, bytes: &[u8]) -> u64
        requires room { HasRoom self.old len }
        requires fits { length bytes.now ≤ len }
        ensures pointer { result ≡ pointer_to (self.old.births + 1) Globals self.old.placed }
        ensures memory { self.new ≡ flat_begin self.old kind len bytes.now }
    {
        // A use of a field tells the check how long the segment is.
        let _ = self.globals.len();
        let base = self.placed;
        let p = self.global_birth(kind, len);
        self.globals.fill_with(base, len as u32, bytes);
        p
    }

    fn global_birth(&mut self, kind: BlockKind, len: u64) -> u64
        requires { HasRoom self.old len }
        ensures pointer { result ≡ pointer_to (self.old.births + 1) Globals self.old.placed }
        ensures memory { self.new ≡ global_birth self.old kind len }
    {
        // A use of a field tells the check how long the segment is.
        let _ = self.globals.len();
        self.births += 1;
        let base = self.placed;
        self.globals.birth(BlockNote {
            base,
            length: len as u32,
            number: self.births,
            kind,
        });
        self.placed += (len / 16 + 1) as u32 * 16;
        pointer_to(self.births, RegionName::Globals, base)
    }

    #[inline(always)]
    fn stack_birth(&mut self, len: u64) -> Result<u64, BirthFault>
        ensures { Bears (flat_store_block self.old len) self.old self.new result }
    {
        if self.births == u32::MAX {
            return Err(BirthFault::Full(Segment::Numbers));
        }
        let units = len / 16 + 1;
        if units > u64::from((self.stack.len() - self.top) / 16) {
            return Err(BirthFault::Full(Segment::Stack));
        }
        let number = self.births + 1;
        let base = self.top;
        self.births = number;
        self.stack.birth(BlockNote {
            base,
            length: len as u32,
            number,
            kind: BlockKind::Stack,
        });
        self.top = base + units as u32 * 16;
        Ok(pointer_to(number, RegionName::Stack, base))
    }
}
