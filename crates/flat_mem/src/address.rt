// Addresses: where they point, and the pointers to them, which have the number of a block above an address of 32 bits.

ghost use Rattle.std.specs.Prelude.{◌≡◌, ◌+◌, ◌*◌, ◌^◌, ◌≤◌};
ghost use Rattle.shadow_segments.specs.Shadow.{longest_segment};
ghost use Rattle.mon_syntax.specs.Flat.{spot_at, start_of, pointer_to};

use mon_syntax::{RegionName, Spot};

// What 1 counts in the upper half of a pointer.
const UPPER: u64 = 0x1_0000_0000;

const GLOBALS_START: u32 = 0x1000_0000;

pub(crate) const STACK_START: u32 = 0x4000_0000;

const HEAP_START: u32 = 0x8000_0000;

/// Where an address points.
#[inline(always)]
pub fn spot_at(address: u32) -> Spot
    ensures { result ≡ spot_at address }
{
    // Most pointers are to the stack, which one comparison of a difference tells.
    if address >= STACK_START && address < HEAP_START {
        Spot::In(RegionName::Stack, address - STACK_START)
    } else if address < GLOBALS_START {
        Spot::Nowhere
    } else if address < STACK_START {
        Spot::In(RegionName::Globals, address - GLOBALS_START)
    } else {
        Spot::In(RegionName::Heap, address - HEAP_START)
    }
}

/// The address at which a region begins.
#[inline(always)]
fn start_of(name: RegionName) -> u32
    ensures { result ≡ start_of name }
{
    match name {
        RegionName::Globals => GLOBALS_START,
        RegionName::Stack => STACK_START,
        RegionName::Heap => HEAP_START,
    }
}

/// The pointer to a place of a region, with the number of a block.
#[inline(always)]
pub fn pointer_to(number: u32, name: RegionName, at: u32) -> u64
    requires { at ≤ longest_segment }
    ensures { result ≡ pointer_to number name at }
{
    u64::from(number) * UPPER + u64::from(start_of(name) + at)
}
