// Pointers: the number of a block above an address of 32 bits.

ghost use Rattle.std.specs.Prelude.{◌≡◌, ◌/◌, ◌%◌, ◌^◌};
ghost use Rattle.mon_syntax.specs.Flat.{spot_of};

use flat_mem::address::spot_at;
use mon_syntax::Spot;

// What 1 counts in the upper half of a pointer.
const UPPER: u64 = 0x1_0000_0000;

/// Where a pointer points.
#[inline(always)]
pub fn spot_of(p: u64) -> Spot
    ensures { result ≡ spot_of p }
{
    spot_at(address_of(p))
}

/// The address of a pointer.
#[inline(always)]
pub fn address_of(p: u64) -> u32
    ensures { result ≡ p % 2 ^ 32 }
{
    (p % UPPER) as u32
}

/// The number of the block that a pointer names.
#[inline(always)]
pub fn number_of(p: u64) -> u32
    ensures { result ≡ p / 2 ^ 32 }
{
    (p / UPPER) as u32
}
