// Loads, stores and copies.

ghost use Rattle.std.specs.Prelude.{◌≡◌, ◌≢◌, ◌+◌, length, None, Some, IfSome, MatchBool, true, false};
ghost use Rattle.std.specs.Bool.{OnTrue};
ghost use Rattle.raw_seg.specs.Bytes.{IsWidth};
ghost use Rattle.mon_syntax.specs.declared.spot.Spot.TheVariants.{In};
ghost use Rattle.mon_syntax.specs.Regions.{region_load};
ghost use Rattle.mon_syntax.specs.Flat.{ask, copy_spots, load_spot, spot_at, store_spot};
ghost use Rattle.flat_mem.specs.Stack.{stack_load, stack_store};

use crate::FlatMem;
use crate::address::spot_at;
use mon_syntax::{RegionName, Spot};

impl FlatMem {
    /// The number in so many bytes. `None` if they aren't aligned or aren't inside one region.
    #[inline(always)]
    pub fn load(&self, addr: u32, width: usize) -> Option<u128>
        requires { IsWidth width }
        ensures { result ≡ load_spot self.now (spot_at addr) width }
    {
        match spot_at(addr) {
            Spot::Nowhere => None,
            Spot::In(name, at) => self.region(name).load(at, width),
        }
    }

    /// The number in so many bytes of the stack. `None` if they aren't aligned, or aren't inside the stack.
    /// It is short, so that it can be put where it is called: most pointers are to the stack.
    #[inline(always)]
    pub fn load_from_stack(&self, addr: u32, width: usize) -> Option<u128>
        requires { IsWidth width }
        ensures exact { result ≡ stack_load self.now (spot_at addr) width }
        ensures found { IfSome result (λ value. load_spot self.now (spot_at addr) width ≡ Some value) }
    {
        match spot_at(addr) {
            Spot::In(RegionName::Stack, at) => self.stack.load_as(at, width),
            _ => None,
        }
    }

    /// Stores a number with its mark. `false` if its bytes aren't aligned or aren't inside one region, and then nothing changes.
    #[inline(always)]
    pub fn save(&mut self, addr: u32, width: usize, value: u128) -> bool
        requires { IsWidth width }
        ensures { MatchBool result
            (store_spot self.old (spot_at addr) width value false ≡ Some self.new)
            ((store_spot self.old (spot_at addr) width value false ≡ None) × (self.new ≡ self.old)) }
    {
        match spot_at(addr) {
            Spot::Nowhere => false,
            Spot::In(RegionName::Globals, at) => self.globals.store_number(at, width, value),
            Spot::In(RegionName::Stack, at) => self.stack.store_number(at, width, value),
            Spot::In(RegionName::Heap, at) => self.heap.store_number(at, width, value),
        }
    }

    /// Stores a number with its mark on the stack. `false` if its bytes aren't aligned, or aren't inside the stack, and then nothing changes.
    #[inline(always)]
    pub fn save_on_stack(&mut self, addr: u32, width: usize, value: u128) -> bool
        requires { IsWidth width }
        ensures exact { MatchBool result
            (stack_store self.old (spot_at addr) width value ≡ Some self.new)
            ((stack_store self.old (spot_at addr) width value ≡ None) × (self.new ≡ self.old)) }
        ensures stored { OnTrue result (store_spot self.old (spot_at addr) width value false ≡ Some self.new) }
    {
        match spot_at(addr) {
            Spot::In(RegionName::Stack, at) => self.stack.store_number(at, width, value),
            _ => false,
        }
    }

    /// Stores a pointer with its mark, likewise. It isn't put in line always: with it a caller that stores both would be too long for that.
    pub fn save_pointer(&mut self, addr: u32, value: u64) -> bool
        ensures { MatchBool result
            (store_spot self.old (spot_at addr) 8 value true ≡ Some self.new)
            ((store_spot self.old (spot_at addr) 8 value true ≡ None) × (self.new ≡ self.old)) }
    {
        let value = u128::from(value);
        match spot_at(addr) {
            Spot::Nowhere => false,
            Spot::In(RegionName::Globals, at) => self.globals.store_pointer(at, value),
            Spot::In(RegionName::Stack, at) => self.stack.store_pointer(at, value),
            Spot::In(RegionName::Heap, at) => self.heap.store_pointer(at, value),
        }
    }

    /// Copies so many bytes with their marks. `false` if they aren't aligned or aren't inside one region on both sides, and then
    /// nothing changes.
    pub fn copy(&mut self, addr: u32, from: u32, width: u32) -> bool
        requires { IsWidth width }
        ensures { MatchBool result
            (copy_spots self.old (spot_at addr) (spot_at from) width ≡ Some self.new)
            ((copy_spots self.old (spot_at addr) (spot_at from) width ≡ None) × (self.new ≡ self.old)) }
    {
        match (spot_at(addr), spot_at(from)) {
            (Spot::In(name, at), Spot::In(other, from)) => {
                if name == other {
                    self.copy_within(name, at, from, width)
                } else {
                    self.copy_between(name, at, other, from, width)
                }
            }
            _ => false,
        }
    }

    /// How many bytes the region of an address has.
    pub fn region_length(&self, addr: u32) -> u32
        ensures { result ≡ ask self.now (spot_at addr) 0 (λ r at. length r.bytes) }
    {
        match spot_at(addr) {
            Spot::Nowhere => 0,
            Spot::In(name, _) => self.region(name).len(),
        }
    }

    /// The byte that lies so many bytes after an address, in the same region.
    pub fn byte_after(&self, addr: u32, after: u64) -> Option<u8>
        ensures { result ≡ ask self.now (spot_at addr) None (λ r at. region_load r (at + after) 1) }
    {
        match spot_at(addr) {
            Spot::Nowhere => None,
            Spot::In(name, at) => self.region(name).byte_after(at, after),
        }
    }

    /// Copies so many bytes with their marks within a region.
    fn copy_within(&mut self, name: RegionName, at: u32, from: u32, width: u32) -> bool
        requires { IsWidth width }
        ensures { MatchBool result
            (copy_spots self.old (In name at) (In name from) width ≡ Some self.new)
            ((copy_spots self.old (In name at) (In name from) width ≡ None) × (self.new ≡ self.old)) }
    {
        match name {
            RegionName::Globals => self.globals.copy_within(at, from, width),
            RegionName::Stack => self.stack.copy_within(at, from, width),
            RegionName::Heap => self.heap.copy_within(at, from, width),
        }
    }

    /// Copies so many bytes with their marks from a region to another one.
    fn copy_between(
        &mut self,
        name: RegionName,
        at: u32,
        other: RegionName,
        from: u32,
        width: u32,
    ) -> bool
        requires width { IsWidth width }
        requires apart { name ≢ other }
        ensures { MatchBool result
            (copy_spots self.old (In name at) (In other from) width ≡ Some self.new)
            ((copy_spots self.old (In name at) (In other from) width ≡ None) × (self.new ≡ self.old)) }
    {
        match (name, other) {
            (RegionName::Globals, RegionName::Stack) => {
                self.globals.copy_from(at, &self.stack, from, width)
            }
            (RegionName::Globals, _) => self.globals.copy_from(at, &self.heap, from, width),
            (RegionName::Stack, RegionName::Globals) => {
                self.stack.copy_from(at, &self.globals, from, width)
            }
            (RegionName::Stack, _) => self.stack.copy_from(at, &self.heap, from, width),
            (RegionName::Heap, RegionName::Globals) => {
                self.heap.copy_from(at, &self.globals, from, width)
            }
            (RegionName::Heap, _) => self.heap.copy_from(at, &self.stack, from, width),
        }
    }
}
