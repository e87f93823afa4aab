//! How many operands code needs.

ghost use Rattle.std.specs.Prelude.{◌≡◌, ℕ, ℤ, true, ◌+◌, ◌-◌, ◌≤◌, ◌<◌, take};
ghost use Rattle.c_lower.specs.Code.{is_short};
ghost use Rattle.c_lower.specs.Levels.{AreShort};
ghost use Rattle.c_lower.specs.Sound.{operands_of, operands_after, operands_behind};

use c_lower::{Instr, operands_of};

// How many operands there are after an instruction that finds so many.
fn behind(instr: &Instr, count: usize) -> usize
    requires { count < usize.MAX }
    ensures exact { (operands_of instr.now).taken ≤ count → result ≡ operands_after count instr.now }
    ensures most { result ≤ count + 1 }
{
    let operands = operands_of(instr);
    count.saturating_sub(operands.taken) + operands.given
}

// A number of 64 bits is short.
fn short(z: i64)
    ensures { is_short z ≡ true }
{}

// A number that is pushed has 64 bits at most.
fn pushes_short(instr: &Instr)
    ensures { (z : ℤ) → instr.now ≡ Instr.Push z → is_short z ≡ true }
{
    match instr {
        Instr::Push(z) => short(*z),
        _ => {}
    }
}

/// The most operands that there are at a place, counted along the code.
pub fn deepest(code: &[Instr]) -> usize
    ensures needs { (p k : ℕ) → operands_behind 0 (take p code.now) ≡ Some k → k ≤ result }
    ensures short { AreShort code.now }
{
    let mut count = 0;
    let mut most = 0;
    for instr in code {
        pushes_short(instr);
        count = behind(instr, count);
        most = most.max(count);
    }
    most
}
