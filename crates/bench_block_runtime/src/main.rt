// Passes over the numbers of a block on the stack, and births and deaths of blocks there and on the heap. Each line of input names the work
// of a pass and a number of passes, as `load 100`.
#![tactic(auto)]

use block_runtime::Runtime;
use flat_mem::Sizes;
use std::alloc::{AllocError, Global};
use std::io;

const SIZES: Sizes = Sizes {
    globals: 0,
    stack: 1_048_576,
    heap: 16_777_216,
    frames: 1,
};

// The numbers of a block, of four bytes each.
const PLACES: u64 = 8192;

const BYTES: u64 = 32768;

// What 1 counts above the lowest 64 bits.
const WORD: u128 = 0x1_0000_0000_0000_0000;

// The sizes of blocks that are born and die.
const SCALAR: u64 = 4;

const LARGE: u64 = 1_048_000;

// The length of the only block that fills the heap.
const WHOLE: u64 = 16_777_215;

// How many blocks live on the heap at once.
const SOME: u64 = 30_000;

const MANY: u64 = 60_000;

/// Loads each number.
#[inline(never)]
fn load_all(memory: &Runtime, p: u64, seed: u64) -> u64 {
    let mut folded = seed;
    for i in 0..PLACES {
        if let Ok(value) = memory.load(p.wrapping_add(4 * i), 4) {
            folded = folded.wrapping_mul(3) ^ (value % WORD) as u64;
        }
    }
    folded
}

/// Asks of each number whether it is one, and loads it.
#[inline(never)]
fn check_all(memory: &Runtime, p: u64, seed: u64) -> u64 {
    let mut folded = seed;
    for i in 0..PLACES {
        let at = p.wrapping_add(4 * i);
        if memory.number(at, 0, 4) == Ok(1) {
            if let Ok(value) = memory.load(at, 4) {
                folded = folded.wrapping_mul(3) ^ (value % WORD) as u64;
            }
        }
    }
    folded
}

/// Writes each number, with its mark.
#[inline(never)]
fn store_all(memory: &mut Runtime, p: u64, value: u64) {
    for i in 0..PLACES {
        let _done = memory.store(p.wrapping_add(4 * i), 4, u128::from(value), false);
    }
}

/// The birth and the death of a stack block, as often as there are numbers.
#[inline(never)]
fn live_and_die(memory: &mut Runtime, size: u64, count: u64) -> u64 {
    let mut ended: u64 = 0;
    for _ in 0..count {
        if let Ok(p) = memory.store_block(size) {
            if memory.delete_block(p).is_ok() {
                ended = ended.wrapping_add(1);
            }
        }
    }
    ended
}

/// The birth and the death of a large stack block, and between them those of a small one above it.
#[inline(never)]
fn live_below(memory: &mut Runtime) -> u64 {
    match memory.store_block(LARGE) {
        Ok(p) => {
            let ended = live_and_die(memory, SCALAR, 1);
            if memory.delete_block(p).is_ok() {
                ended.wrapping_add(1)
            } else {
                ended
            }
        }
        Err(_) => 0,
    }
}

/// The birth and the death of a block that fills the heap with zeros.
#[inline(never)]
fn fill_the_heap(memory: &mut Runtime) -> u64 {
    match memory.calloc(WHOLE, 1) {
        Ok(p) => u64::from(memory.free(p).is_ok()),
        Err(_) => 0,
    }
}

/// So many births on the heap, the deaths of every second block, as many births in their places, and the deaths of all.
#[inline(never)]
fn crowd_the_heap(memory: &mut Runtime, blocks: &mut [u64]) -> u64 {
    for p in blocks.iter_mut() {
        *p = memory.malloc(16).unwrap_or(0);
    }
    for (i, p) in blocks.iter().enumerate() {
        if i % 2 == 0 {
            let _died = memory.free(*p);
        }
    }
    for (i, p) in blocks.iter_mut().enumerate() {
        if i % 2 == 0 {
            *p = memory.malloc(15).unwrap_or(0);
        }
    }
    let mut ended: u64 = 0;
    for p in blocks.iter() {
        if memory.free(*p).is_ok() {
            ended = ended.wrapping_add(1);
        }
    }
    ended
}

/// One pass of the work of this name on the heap, which is `calloc`, or with blocks `some` and `many`; else on the stack.
fn heap_pass(memory: &mut Runtime, blocks: &mut [u64], p: u64, work: &str, value: u64) -> u64 {
    match work {
        "calloc" => fill_the_heap(memory),
        "some" | "many" => crowd_the_heap(memory, blocks),
        _ => pass(memory, p, work, value),
    }
}

/// One pass of the work of this name, which is `store`, `check`, `birth`, `large`, `below` or else `load`.
fn pass(memory: &mut Runtime, p: u64, work: &str, value: u64) -> u64 {
    match work {
        "store" => {
            store_all(memory, p, value);
            value
        }
        "check" => check_all(memory, p, value),
        "birth" => live_and_die(memory, SCALAR, PLACES),
        "large" => live_and_die(memory, LARGE, 1),
        "below" => live_below(memory),
        _ => load_all(memory, p, value),
    }
}

/// All passes, folded by exclusive or.
fn run(alloc: Global, work: &str, passes: u64) -> Result<u64, AllocError> {
    let mut memory = Runtime::new(alloc, SIZES)?;
    let mut folded = live_and_die(&mut memory, LARGE, 1);
    let p = memory.store_block(BYTES).unwrap_or(0);
    store_all(&mut memory, p, 0x0102_0304);
    if work == "large" || work == "below" {
        let _died = memory.delete_block(p);
    }
    let count = if work == "many" { MANY } else { SOME };
    let mut blocks = vec![in alloc; 0u64; count as usize]?;
    for value in 0..passes {
        folded ^= heap_pass(&mut memory, &mut blocks, p, work, value);
    }
    Ok(folded)
}

fn main(rt: HostRuntime) -> io::Result<()> {
    for line in rt.lines(rt.alloc()) {
        let line = line?;
        if let Some((work, passes)) = line.as_str().split_once(' ') {
            let folded = run(rt.alloc(), work, passes.parse::<u64>().unwrap_or(0))?;
            println!(rt; "{folded}")?;
        }
    }
    Ok(())
}
