// The gaps of a segment, by the unit at which each begins, in a tree that finds the first one that is long enough.

ghost use Rattle.std.specs.Prelude.{◌≡◌, ℕ, ◌*◌, ◌^◌, ◌<◌, ◌≤◌, ◌+◌, ◌-◌, [], ◌++◌, max, length, get_or, set, drop, replicate, IfOk, MatchOption};
ghost use Rattle.std.specs.Vec.{vec_capacity, vec_len};
ghost use Rattle.seg_heap.specs.Gaps.{IsTree};

use crate::nodes::{first_leaf, set_leaf};
use std::alloc::{AllocError, Global};
use std::marker::Model;

// A block of the tree has so many leaves, and twice as many nodes.
const LEAVES: usize = 1024;

const DEPTH: u32 = 10;

/// The units of the gap that begins at each unit, 0 where none does and past the end. The memory is reserved at once, and written a block
/// at a time, when a gap begins in it for the first time.
#[derive(Drop)]
pub struct Gaps {
    // The tree over the blocks' roots has 2^depth leaves.
    depth: u32,
    top: Vec<u32>,
    // The first blocks. Those behind them are zeros, for which there is room.
    blocks: Vec<[u32; 2048]>,
}

impl Model for Gaps {
    ghost use Rattle.std.specs.Prelude.{ℕ, ◌*◌, ◌^◌, ◌≤◌, List};
    ghost use Rattle.std.specs.Vec.{vec_capacity};
    ghost use Rattle.seg_heap.specs.Gaps.{AreTrees, leaves_of};

    ghost Value = { List ℕ };

    ghost view = { λ g. leaves_of (1024 * 2 ^ g.depth) g.blocks.items };

    ghost invariant = { λ g. AreTrees g.depth g.top.items g.blocks.items × (2 ^ g.depth ≤ vec_capacity g.blocks) };
}

impl Gaps {
    /// No gap among so many units, or some more.
    pub fn new(alloc: Global, units: u32) -> Result<Gaps, AllocError>
        requires { units ≤ 16777216 }
        ensures { IfOk result (λ gaps. (units ≤ length gaps) × (gaps ≡ replicate (length gaps) 0)) }
    {
        let depth = depth_for(units);
        let count = 1usize << depth;
        Ok(Gaps {
            depth,
            top: vec![in alloc; 0u32; 2 * count]?,
            blocks: Vec::with_capacity(alloc, count)?,
        })
    }

    #[inline]
    pub fn at(&self, unit: u32) -> u32
        ensures { result ≡ get_or self.now unit 0 }
    {
        let block = unit as usize / LEAVES;
        if block < self.blocks.len() {
            self.blocks[block][LEAVES + unit as usize % LEAVES]
        } else {
            0
        }
    }

    /// A gap of so many units begins here, or none if it is 0.
    pub fn set(&mut self, unit: u32, units: u32)
        ensures { self.new ≡ set self.old unit units }
    {
        let block = unit as usize / LEAVES;
        if block < 1usize << self.depth {
            reach(&mut self.blocks, block);
            let longest = set_in(&mut self.blocks, block, unit as usize % LEAVES, units);
            set_above(&mut self.top, self.depth, block, longest);
        }
    }

    /// The first unit at which a gap of so many units or more begins.
    pub fn first(&self, count: u32) -> Option<u32>
        requires { 0 < count }
        ensures { MatchOption result
            ((unit : ℕ) → get_or self.now unit 0 < count)
            (λ first. (count ≤ get_or self.now first 0) × ((unit : ℕ) → unit < first → get_or self.now unit 0 < count)) }
    {
        if self.top[1] < count {
            return None;
        }
        let block = first_leaf(&self.top, self.depth, count);
        let unit = first_leaf(&self.blocks[block], DEPTH, count);
        Some((LEAVES * block + unit) as u32)
    }
}

// Zeros are written up to this block at least. There is room for it.
#[inline]
fn reach(blocks: &mut Vec<[u32; 2048]>, block: usize)
    requires room { block < vec_capacity blocks.old }
    ensures blocks { blocks.new.items ≡ blocks.old.items ++ replicate (vec_len blocks.new - vec_len blocks.old) (replicate 2048 0) }
    ensures len { vec_len blocks.new ≡ max (vec_len blocks.old) (block + 1) }
    ensures room { vec_capacity blocks.old ≤ vec_capacity blocks.new }
{
    if blocks.len() <= block {
        write_zeros(blocks, block);
    }
}

// The same, where they aren't written.
#[cold]
#[inline(never)]
fn write_zeros(blocks: &mut Vec<[u32; 2048]>, block: usize)
    requires some { vec_len blocks.old ≤ block }
    requires room { block < vec_capacity blocks.old }
    ensures blocks { blocks.new.items ≡ blocks.old.items ++ replicate (vec_len blocks.new - vec_len blocks.old) (replicate 2048 0) }
    ensures len { vec_len blocks.new ≡ block + 1 }
    ensures room { vec_capacity blocks.old ≤ vec_capacity blocks.new }
{
    // There is room, so no memory is taken.
    let _ = blocks.resize(block + 1, [0; 2048]);
}

// Writes a leaf of a block, and gives the block's root.
#[inline]
fn set_in(blocks: &mut Vec<[u32; 2048]>, block: usize, unit: usize, units: u32) -> u32
    requires there { block < vec_len blocks.old }
    requires inside { unit < 1024 }
    requires tree { IsTree 10 (get_or blocks.old.items block []) }
    ensures tree { IsTree 10 (get_or blocks.new.items block []) }
    ensures leaves { drop 1024 (get_or blocks.new.items block []) ≡ set (drop 1024 (get_or blocks.old.items block [])) unit units }
    ensures others { blocks.new.items ≡ set blocks.old.items block (get_or blocks.new.items block []) }
    ensures root { result ≡ get_or (get_or blocks.new.items block []) 1 0 }
    ensures room { vec_capacity blocks.new ≡ vec_capacity blocks.old }
{
    set_leaf(&mut blocks[block], DEPTH, unit, units);
    blocks[block][1]
}

// Writes a leaf of the tree over the blocks' roots.
#[inline]
fn set_above(top: &mut Vec<u32>, depth: u32, block: usize, longest: u32)
    requires small { depth ≤ 14 }
    requires tree { IsTree depth top.old.items }
    requires inside { block < 2 ^ depth }
    ensures tree { IsTree depth top.new.items }
    ensures leaves { drop (2 ^ depth) top.new.items ≡ set (drop (2 ^ depth) top.old.items) block longest }
{
    set_leaf(top, depth, block, longest);
}

/// How deep a tree over the blocks of so many units is.
fn depth_for(units: u32) -> u32
    requires { units ≤ 16777216 }
    ensures enough { units ≤ 1024 * 2 ^ result }
    ensures small { result ≤ 14 }
{
    for depth in 0..14 {
        if units <= 1024u32 << depth {
            return depth;
        }
    }
    14
}
