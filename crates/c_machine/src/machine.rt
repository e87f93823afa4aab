//! What the machine holds, and its operands.

ghost use Rattle.std.specs.Prelude.{◌≡◌, ◌+◌, ◌^◌, ◌≤◌, ◌<◌, ◌∷◌, [], length, slice_set, MatchOption};
ghost use Rattle.c_machine.specs.Held.{from_top, IsFit, Goes};

use block_runtime::Runtime;

/// Where a call goes back to, and where the registers of the call that made it begin.
#[derive(Clone, Copy)]
pub struct Caller {
    pub back: usize,
    pub base: usize,
}

/// Where the machine stands. It is apart from what the machine holds, so that it takes registers of the processor.
#[derive(Clone, Copy)]
pub struct Cursor {
    /// The place of the next instruction.
    pub place: usize,
    /// How many operands there are.
    pub height: usize,
    /// Where the registers of the active call begin.
    pub base: usize,
    /// The steps left.
    pub steps: u64,
}

/// The operands, the registers, the calls and the memory.
#[derive(Drop)]
pub struct Machine {
    /// Room for operands, the lowest first.
    pub operands: Vec<i128>,
    /// The registers of all active calls, those of `main` first.
    pub registers: Vec<i128>,
    /// The calls that wait for another, that of `main` first.
    pub callers: Vec<Caller>,
    /// The memory, with the frames of the active calls.
    pub memory: Runtime,
    /// How many operands the code of a call needs.
    pub deepest: usize,
    /// Where the machine stands, for an instruction that is done out of line.
    pub cursor: Cursor,
}

impl Machine {
    /// Gives a register a value, where there is one.
    #[inline(always)]
    pub fn set(&mut self, at: usize, z: i128)
        ensures value { self.new.registers.items ≡ slice_set self.old.registers.items at z }
        ensures others { self.new ≡ record self.old { registers = self.new.registers } }
    {
        if at < self.registers.len() {
            self.registers[at] = z;
        }
    }

    /// Gives a register a value, where it is known that there is one.
    #[inline(always)]
    pub fn set_within(&mut self, at: usize, z: i128)
        requires { at < length self.old.registers.items }
        ensures value { self.new.registers.items ≡ slice_set self.old.registers.items at z }
        ensures others { self.new ≡ record self.old { registers = self.new.registers } }
    {
        self.registers[at] = z;
    }
}

impl Cursor {
    /// Takes the topmost operand off.
    #[inline(always)]
    pub fn pop(&mut self, machine: &Machine) -> Option<i128>
        requires { self.old.height ≤ length machine.now.operands.items }
        ensures top { MatchOption result
            (from_top self.old.height machine.now.operands.items ≡ [])
            (λ z. from_top self.old.height machine.now.operands.items ≡ z ∷ from_top self.new.height machine.now.operands.items) }
        ensures height { MatchOption result (self.old.height ≡ 0) (λ z. self.new.height + 1 ≡ self.old.height) }
        ensures others { self.new ≡ record self.old { height = self.new.height } }
    {
        if self.height == 0 {
            return None;
        }
        self.height -= 1;
        Some(machine.operands[self.height])
    }

    /// Puts an operand on top, and goes on to the next instruction.
    #[inline(always)]
    pub fn give(&mut self, machine: &mut Machine, z: i128)
        requires fit { IsFit self.old machine.old }
        requires room { self.old.height < length machine.old.operands.items }
        requires place { self.old.place < 2 ^ 63 }
        ensures { Goes self.old machine.old self.new machine.new (z ∷ from_top self.old.height machine.old.operands.items) }
    {
        machine.operands[self.height] = z;
        self.height += 1;
        self.place += 1;
    }
}
