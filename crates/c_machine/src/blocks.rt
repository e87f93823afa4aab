//! Calls of the runtime on the memory.

ghost use Rattle.std.specs.Prelude.{◌≡◌, ◌<◌, ◌^◌, false};
ghost use Rattle.c_machine.specs.Acts.{Acts, ended_by};
ghost use Rattle.c_machine.specs.Held.{IsFit, Links};
ghost use Rattle.c_machine.specs.Questions.{is_question};
ghost use Rattle.c_machine.specs.Reading.{Ports};

use crate::machine::{Cursor, Machine};
use crate::memory::{act_on_one, act_on_two};
use crate::questions::is_question;
use crate::stop::Stop;
use c_lower::Instr;
use mon_syntax::MemoryCall;

impl Machine {
    // A call whose one argument is the topmost operand.
    fn act_on_one(&mut self, f: MemoryCall, stop: &mut Stop) -> bool
        requires fit { IsFit self.old.cursor self.old }
        requires place { self.old.cursor.place < 2 ^ 63 }
        ensures { (links : Links) (ports : Ports) → Acts links (Instr.Act f 1) self.old.cursor self.old self.new.cursor self.new ports ports
            (ended_by result stop.new) }
    {
        let mut cursor = self.cursor;
        let Some(argument) = cursor.pop(self) else {
            *stop = Stop::Fault;
            return false;
        };
        match act_on_one(&mut self.memory, f, argument) {
            Ok(value) => {
                cursor.give(self, value);
                self.cursor = cursor;
                true
            }
            Err(end) => {
                *stop = end;
                false
            }
        }
    }

    // A call whose two arguments are the topmost operands, the second on top.
    fn act_on_two(&mut self, f: MemoryCall, stop: &mut Stop) -> bool
        requires fit { IsFit self.old.cursor self.old }
        requires place { self.old.cursor.place < 2 ^ 63 }
        requires change { is_question f ≡ false }
        ensures { (links : Links) (ports : Ports) → Acts links (Instr.Act f 2) self.old.cursor self.old self.new.cursor self.new ports ports
            (ended_by result stop.new) }
    {
        let mut cursor = self.cursor;
        let Some(second) = cursor.pop(self) else {
            *stop = Stop::Fault;
            return false;
        };
        let Some(first) = cursor.pop(self) else {
            *stop = Stop::Fault;
            return false;
        };
        match act_on_two(&mut self.memory, f, first, second) {
            Ok(value) => {
                cursor.give(self, value);
                self.cursor = cursor;
                true
            }
            Err(end) => {
                *stop = end;
                false
            }
        }
    }

    /// `Act` of a call that changes the memory.
    #[inline(never)]
    pub fn act(&mut self, f: MemoryCall, count: usize, stop: &mut Stop) -> bool
        requires fit { IsFit self.old.cursor self.old }
        requires place { self.old.cursor.place < 2 ^ 63 }
        requires change { is_question f ≡ false }
        ensures { (links : Links) (ports : Ports) → Acts links (Instr.Act f count) self.old.cursor self.old self.new.cursor self.new ports ports
            (ended_by result stop.new) }
    {
        match count {
            1 => self.act_on_one(f, stop),
            2 => self.act_on_two(f, stop),
            _ => {
                *stop = Stop::Fault;
                false
            }
        }
    }
}

// The same from a cursor that is apart from the machine; a question is answered there.
impl Cursor {
    /// `Act`
    #[inline(always)]
    pub fn act(
        &mut self,
        f: MemoryCall,
        count: usize,
        machine: &mut Machine,
        stop: &mut Stop,
    ) -> bool
        requires fit { IsFit self.old machine.old }
        requires place { self.old.place < 2 ^ 63 }
        ensures { (links : Links) (ports : Ports) → Acts links (Instr.Act f count) self.old machine.old self.new machine.new ports ports
            (ended_by result stop.new) }
    {
        match f {
            MemoryCall::Number(size) => self.ask(size, count, machine, stop),
            _ if is_question(f) => self.question(f, count, machine, stop),
            _ => self.change(f, count, machine, stop),
        }
    }

    // `Act` of a call that changes the memory, out of line.
    #[inline(always)]
    fn change(
        &mut self,
        f: MemoryCall,
        count: usize,
        machine: &mut Machine,
        stop: &mut Stop,
    ) -> bool
        requires fit { IsFit self.old machine.old }
        requires place { self.old.place < 2 ^ 63 }
        requires change { is_question f ≡ false }
        ensures { (links : Links) (ports : Ports) → Acts links (Instr.Act f count) self.old machine.old self.new machine.new ports ports
            (ended_by result stop.new) }
    {
        machine.cursor = *self;
        let goes_on = machine.act(f, count, stop);
        *self = machine.cursor;
        goes_on
    }
}
