//! Instructions on pointers and on what lies at them. Each goes on to the next instruction, or says how the run ends.

ghost use Rattle.std.specs.Prelude.{◌≡◌, ◌<◌, ◌^◌, List};
ghost use Rattle.c_lower.specs.declared.code.Entry as entry;
ghost use Rattle.c_machine.specs.Acts.{Acts, ended_by};
ghost use Rattle.c_machine.specs.Held.{IsFit, Links, links_of};
ghost use Rattle.c_machine.specs.Reading.{Ports};

use crate::machine::{Cursor, Machine};
use crate::memory::{load, number, pointed, store};
use crate::stop::Stop;
use c_lower::Instr;
use mon_syntax::{AccessSize, MemoryCall, MonOp, MonType};

impl Cursor {
    /// `Global`
    #[inline(always)]
    pub fn global(
        &mut self,
        g: u32,
        globals: &[i128],
        machine: &mut Machine,
        stop: &mut Stop,
    ) -> bool
        requires fit { IsFit self.old machine.old }
        requires place { self.old.place < 2 ^ 63 }
        ensures { (es : List entry.Entry) (ports : Ports) → Acts (links_of globals.now es) (Instr.Global g) self.old machine.old self.new machine.new
            ports ports (ended_by result stop.new) }
    {
        let at = g as usize;
        if at >= globals.len() {
            *stop = Stop::Fault;
            return false;
        }
        if self.height == machine.operands.len() {
            *stop = Stop::OutOfMemory;
            return false;
        }
        let start = globals[at];
        self.give(machine, start);
        true
    }

    /// `Load`
    #[inline(always)]
    pub fn load(&mut self, t: MonType, machine: &mut Machine, stop: &mut Stop) -> bool
        requires fit { IsFit self.old machine.old }
        requires place { self.old.place < 2 ^ 63 }
        ensures { (links : Links) (ports : Ports) → Acts links (Instr.Load t) self.old machine.old self.new machine.new ports ports
            (ended_by result stop.new) }
    {
        match self.pop(machine) {
            Some(p) => match load(&machine.memory, t, p) {
                Some(z) => {
                    self.give(machine, z);
                    true
                }
                None => {
                    *stop = Stop::Fault;
                    false
                }
            },
            None => {
                *stop = Stop::Fault;
                false
            }
        }
    }

    /// `Store`
    #[inline(always)]
    pub fn store(&mut self, t: MonType, machine: &mut Machine, stop: &mut Stop) -> bool
        requires fit { IsFit self.old machine.old }
        requires place { self.old.place < 2 ^ 63 }
        ensures { (links : Links) (ports : Ports) → Acts links (Instr.Store t) self.old machine.old self.new machine.new ports ports
            (ended_by result stop.new) }
    {
        match self.pop(machine) {
            Some(z) => match self.pop(machine) {
                Some(p) => {
                    if store(&mut machine.memory, t, p, z) {
                        self.place += 1;
                        true
                    } else {
                        *stop = Stop::Fault;
                        false
                    }
                }
                None => {
                    *stop = Stop::Fault;
                    false
                }
            },
            None => {
                *stop = Stop::Fault;
                false
            }
        }
    }

    /// `Pointed`
    #[inline(always)]
    pub fn point(&mut self, op: MonOp, machine: &mut Machine, stop: &mut Stop) -> bool
        requires fit { IsFit self.old machine.old }
        requires place { self.old.place < 2 ^ 63 }
        ensures { (links : Links) (ports : Ports) → Acts links (Instr.Pointed op) self.old machine.old self.new machine.new ports ports
            (ended_by result stop.new) }
    {
        match self.pop(machine) {
            Some(y) => match self.pop(machine) {
                Some(x) => match pointed(op, x, y) {
                    Some(z) => {
                        self.give(machine, z);
                        true
                    }
                    None => {
                        *stop = Stop::Fault;
                        false
                    }
                },
                None => {
                    *stop = Stop::Fault;
                    false
                }
            },
            None => {
                *stop = Stop::Fault;
                false
            }
        }
    }

    /// `Act` of a question, which has two arguments and leaves the memory.
    #[inline(always)]
    pub fn ask(
        &mut self,
        size: AccessSize,
        count: usize,
        machine: &mut Machine,
        stop: &mut Stop,
    ) -> bool
        requires fit { IsFit self.old machine.old }
        requires place { self.old.place < 2 ^ 63 }
        ensures { (links : Links) (ports : Ports) → Acts links (Instr.Act (MemoryCall.Number size) count) self.old machine.old self.new machine.new
            ports ports (ended_by result stop.new) }
    {
        if count != 2 {
            *stop = Stop::Fault;
            return false;
        }
        match self.pop(machine) {
            Some(o) => match self.pop(machine) {
                Some(p) => {
                    let answer = number(&machine.memory, size, p, o);
                    self.give(machine, answer);
                    true
                }
                None => {
                    *stop = Stop::Fault;
                    false
                }
            },
            None => {
                *stop = Stop::Fault;
                false
            }
        }
    }
}
