// Passes over the words of a region. Each line of input names the work of a pass and a number of passes, as `read 100`.
#![tactic(auto)]

ghost use Rattle.std.specs.Prelude.{◌≡◌, length};

use raw_seg::Seg;
use std::alloc::{AllocError, Global};
use std::io;

const BYTES: usize = 32768;

const WORDS: usize = 4096;

/// Reads each word, and folds them by exclusive or.
#[inline(never)]
fn read_all(seg: &Seg) -> u64
    requires { length seg.now ≡ BYTES }
{
    let mut folded = 0;
    for i in 0..WORDS {
        folded ^= seg.load(8 * i, 8) as u64;
    }
    folded
}

/// Writes the same number to each word.
#[inline(never)]
fn write_all(seg: &mut Seg, value: u64)
    requires { length seg.old ≡ BYTES }
    ensures { length seg.new ≡ BYTES }
{
    for i in 0..WORDS {
        seg.store(8 * i, 8, u128::from(value));
    }
}

/// Fills the region with zeros.
#[inline(never)]
fn clear(seg: &mut Seg)
    requires { length seg.old ≡ BYTES }
    ensures { length seg.new ≡ BYTES }
{
    seg.fill(0, BYTES, 0);
}

/// One pass of the work of this name, which is `write`, `fill` or else `read`.
fn pass(seg: &mut Seg, work: &str, value: u64) -> u64
    requires { length seg.old ≡ BYTES }
    ensures { length seg.new ≡ BYTES }
{
    match work {
        "write" => write_all(seg, value),
        "fill" => clear(seg),
        _ => return read_all(seg),
    }
    value
}

/// All passes over a region of zeros, folded by exclusive or.
fn run(alloc: Global, work: &str, passes: u64) -> Result<u64, AllocError> {
    let mut seg = Seg::new(alloc, BYTES)?;
    let mut folded = 0;
    for value in 0..passes {
        folded ^= pass(&mut seg, work, value);
    }
    Ok(folded)
}

fn main(rt: HostRuntime) -> io::Result<()> {
    for line in rt.lines(rt.alloc()) {
        let line = line?;
        if let Some((work, passes)) = line.as_str().split_once(' ') {
            let folded = run(rt.alloc(), work, passes.parse::<u64>().unwrap_or(0))?;
            println!(rt; "{folded}")?;
        }
    }
    Ok(())
}
