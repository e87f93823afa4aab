// Loads, stores and copies.

ghost use Rattle.std.specs.Prelude.{◌≡◌, None, Some, IfSome, MatchBool, false, true};
ghost use Rattle.std.specs.Bool.{OnTrue};
ghost use Rattle.raw_seg.specs.Bytes.{IsWidth};
ghost use Rattle.mon_syntax.specs.Flat.{flat_load, flat_store, flat_copy, flat_byte, region_length, spot_of};
ghost use Rattle.flat_mem.specs.Stack.{stack_load, stack_store};
ghost use Rattle.block_runtime.specs.Replies.{Changes, Finds};

use crate::address::address_of;
use crate::{RunFault, Runtime};

// What 1 counts above the lowest 64 bits.
const WORD: u128 = 0x1_0000_0000_0000_0000;

impl Runtime {
    /// The number in so many bytes.
    #[inline(always)]
    pub fn load(&self, p: u64, width: usize) -> Result<u128, RunFault>
        requires { IsWidth width }
        ensures { Finds (flat_load self.now p width) result }
    {
        match self.memory.load(address_of(p), width) {
            Some(value) => Ok(value),
            None => Err(RunFault::Fault),
        }
    }

    /// The number in so many bytes of the stack. `None` if they aren't aligned, or aren't inside the stack.
    #[inline(always)]
    pub fn load_from_stack(&self, p: u64, width: usize) -> Option<u128>
        requires { IsWidth width }
        ensures exact { result ≡ stack_load self.now (spot_of p) width }
        ensures found { IfSome result (λ value. flat_load self.now p width ≡ Some value) }
    {
        self.memory.load_from_stack(address_of(p), width)
    }

    /// Stores a number, or a pointer of eight bytes, with its mark.
    #[inline(always)]
    pub fn store(
        &mut self,
        p: u64,
        width: usize,
        value: u128,
        pointer: bool,
    ) -> Result<(), RunFault>
        requires width { IsWidth width }
        requires pointer { pointer ≡ true → width ≡ 8 }
        ensures { Changes (flat_store self.old p width value pointer) self.old self.new result }
    {
        let address = address_of(p);
        let done = if pointer {
            self.memory.save_pointer(address, (value % WORD) as u64)
        } else {
            self.memory.save(address, width, value)
        };
        if done { Ok(()) } else { Err(RunFault::Fault) }
    }

    /// Stores a number with its mark on the stack. `false` if its bytes aren't aligned, or aren't inside the stack, and then nothing changes.
    #[inline(always)]
    pub fn store_on_stack(&mut self, p: u64, width: usize, value: u128) -> bool
        requires { IsWidth width }
        ensures exact { MatchBool result
            (stack_store self.old (spot_of p) width value ≡ Some self.new)
            ((stack_store self.old (spot_of p) width value ≡ None) × (self.new ≡ self.old)) }
        ensures stored { OnTrue result (flat_store self.old p width value false ≡ Some self.new) }
    {
        self.memory.save_on_stack(address_of(p), width, value)
    }

    /// `__e_acsl_copy(P, Q, A)`
    pub fn copy(&mut self, p: u64, q: u64, a: u64) -> Result<(), RunFault>
        requires { IsWidth a }
        ensures { Changes (flat_copy self.old p q a) self.old self.new result }
    {
        if self.memory.copy(address_of(p), address_of(q), a as u32) {
            Ok(())
        } else {
            Err(RunFault::Fault)
        }
    }

    /// How many bytes the region of a pointer has.
    pub fn region_length(&self, p: u64) -> u32
        ensures { result ≡ region_length self.now p }
    {
        self.memory.region_length(address_of(p))
    }

    /// `__e_acsl_print_str(P)` takes the byte that lies so many bytes after P.
    pub fn print_str(&self, p: u64, at: u64) -> Result<u8, RunFault>
        ensures { Finds (flat_byte self.now p at) result }
    {
        match self.memory.byte_after(address_of(p), at) {
            Some(byte) => Ok(byte),
            None => Err(RunFault::Fault),
        }
    }
}
