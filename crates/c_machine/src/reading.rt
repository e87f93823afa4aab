//! Instructions that read.

ghost use Rattle.std.specs.Prelude.{◌≡◌, ◌<◌, ◌^◌, List, false};
ghost use Rattle.ea_ports.specs.Buffered.{Port};
ghost use Rattle.c_machine.specs.Acts.{Acts, ended_by};
ghost use Rattle.c_machine.specs.Held.{IsFit, Links};
ghost use Rattle.c_machine.specs.Reading.{Reads, feed_of, ports_of};

use crate::machine::{Cursor, Machine};
use crate::stop::Stop;
use c_lower::Instr;
use ea_ports::{Failed, Source};

/// Reads an input up to its end, after which the source isn't asked again.
#[derive(Drop)]
pub struct Reader {
    ended: bool,
}

impl Reader {
    /// The end wasn't met.
    pub fn new() -> Reader
        ensures { result.ended ≡ false }
    {
        Reader { ended: false }
    }

    /// The next byte, or -1 at the end.
    pub fn next<I: Source>(&mut self, input: &mut I) -> Result<i128, Failed>
        ensures { Reads (feed_of (I.left input.old) (I.faults input.old) self.old.ended) (feed_of (I.left input.new) (I.faults input.new) self.new.ended)
            result }
    {
        if self.ended {
            return Ok(-1);
        }
        match input.next() {
            Ok(Some(byte)) => Ok(i128::from(byte)),
            Ok(None) => {
                self.ended = true;
                Ok(-1)
            }
            Err(fault) => Err(fault),
        }
    }
}

impl Machine {
    /// `GetChar`
    #[inline(never)]
    pub fn get_char<I: Source>(
        &mut self,
        reader: &mut Reader,
        input: &mut I,
        stop: &mut Stop,
    ) -> bool
        requires fit { IsFit self.old.cursor self.old }
        requires place { self.old.cursor.place < 2 ^ 63 }
        ensures { (links : Links) (port : Port) → Acts links Instr.GetChar self.old.cursor self.old self.new.cursor self.new
            (ports_of (feed_of (I.left input.old) (I.faults input.old) reader.old.ended) port)
            (ports_of (feed_of (I.left input.new) (I.faults input.new) reader.new.ended) port) (ended_by result stop.new) }
    {
        let mut cursor = self.cursor;
        if cursor.height == self.operands.len() {
            *stop = Stop::OutOfMemory;
            return false;
        }
        match reader.next(input) {
            Ok(z) => {
                cursor.give(self, z);
                self.cursor = cursor;
                true
            }
            Err(_) => {
                *stop = Stop::ReadFault;
                false
            }
        }
    }
}

// The same from a cursor that is apart from the machine.
impl Cursor {
    /// `GetChar`
    #[inline(always)]
    pub fn get_char<I: Source>(
        &mut self,
        machine: &mut Machine,
        reader: &mut Reader,
        input: &mut I,
        stop: &mut Stop,
    ) -> bool
        requires fit { IsFit self.old machine.old }
        requires place { self.old.place < 2 ^ 63 }
        ensures { (links : Links) (port : Port) → Acts links Instr.GetChar self.old machine.old self.new machine.new
            (ports_of (feed_of (I.left input.old) (I.faults input.old) reader.old.ended) port)
            (ports_of (feed_of (I.left input.new) (I.faults input.new) reader.new.ended) port) (ended_by result stop.new) }
    {
        machine.cursor = *self;
        let goes_on = machine.get_char(reader, input, stop);
        *self = machine.cursor;
        goes_on
    }
}
