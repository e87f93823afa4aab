// A number for each unit.

ghost use Rattle.std.specs.Prelude.{◌≡◌, ◌<◌, ◌≤◌, get_or, set, replicate, IfOk};
ghost use Rattle.std.specs.Vec.{vec_capacity, vec_len};
ghost use Rattle.seg_heap.specs.Zeros.{zeros_to};

use std::alloc::{AllocError, Global};
use std::marker::Model;

// Zeros are written for so many units at least, where a number is set for the first time.
const STEP: usize = 1024;

/// A number for each unit of a segment, 0 past its end. Its memory is reserved at once, and written only as far as numbers were set.
#[derive(Drop)]
pub struct Numbers {
    // The first ones. Those behind them are zeros, for which there is room.
    items: Vec<u32>,
    len: usize,
}

impl Model for Numbers {
    ghost use Rattle.std.specs.Prelude.{ℕ, List, ◌≤◌, length};
    ghost use Rattle.std.specs.Vec.{vec_capacity};
    ghost use Rattle.seg_heap.specs.Zeros.{zeros_to};

    ghost Value = { List ℕ };

    ghost view = { λ n. zeros_to n.len n.items.items };

    ghost invariant = { λ n. (length n.items.items ≤ n.len) × (n.len ≤ vec_capacity n.items) };
}

impl Numbers {
    /// So many zeros.
    pub fn new(alloc: Global, units: u32) -> Result<Numbers, AllocError>
        ensures { IfOk result (λ numbers. numbers ≡ replicate units 0) }
    {
        let len = units as usize;
        Ok(Numbers {
            items: Vec::with_capacity(alloc, len)?,
            len,
        })
    }

    #[inline]
    pub fn at(&self, unit: u32) -> u32
        ensures { result ≡ get_or self.now unit 0 }
    {
        let unit = unit as usize;
        if unit < self.items.len() {
            self.items[unit]
        } else {
            0
        }
    }

    /// Nothing is written past the end.
    #[inline]
    pub fn set(&mut self, unit: u32, number: u32)
        ensures { self.new ≡ set self.old unit number }
    {
        let unit = unit as usize;
        if unit < self.items.len() {
            self.items[unit] = number;
        } else if number != 0 && unit < self.len {
            write_zeros(&mut self.items, unit, self.len);
            self.items[unit] = number;
        }
    }
}

// Zeros are written up to this unit at least. There is room for so many numbers.
#[cold]
#[inline(never)]
fn write_zeros(items: &mut Vec<u32>, unit: usize, len: usize)
    requires some { vec_len items.old ≤ unit }
    requires inside { unit < len }
    requires room { len ≤ vec_capacity items.old }
    ensures all { zeros_to len items.new.items ≡ zeros_to len items.old.items }
    ensures to { unit < vec_len items.new }
    ensures inside { vec_len items.new ≤ len }
    ensures room { len ≤ vec_capacity items.new }
{
    // There is room, so no memory is taken.
    let _ = items.resize(unit + (len - unit).min(STEP), 0);
}
