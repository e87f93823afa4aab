//! Instructions that write.

ghost use Rattle.std.specs.Prelude.{◌≡◌, ◌<◌, ◌^◌, List, IfOk};
ghost use Rattle.ea_ports.specs.Buffered.{Writes, port_of};
ghost use Rattle.mon_syntax.specs.Flat.{flat_string};
ghost use Rattle.c_machine.specs.Acts.{Acts, ended_by, stop_of};
ghost use Rattle.c_machine.specs.Held.{IsFit, Links};
ghost use Rattle.c_machine.specs.Reading.{Feed, ports_of};

use crate::arithmetic::low_byte;
use crate::machine::{Cursor, Machine};
use crate::memory::pointer_in;
use crate::stop::Stop;
use block_runtime::Runtime;
use c_lower::Instr;
use ea_ports::{Buffer, Sink, SinkFault};

/// How a run ends where the sink refuses.
pub fn refused(fault: SinkFault) -> Stop
    ensures { result ≡ stop_of fault }
{
    match fault {
        SinkFault::Failed => Stop::WriteFault,
        SinkFault::Memory => Stop::OutOfMemory,
    }
}

// Writes the bytes of the string at a pointer, and tells whether a 0 ends them.
fn put_string<O: Sink>(
    memory: &Runtime,
    p: u64,
    waiting: &mut Buffer,
    out: &mut O,
) -> Result<bool, SinkFault>
    ensures written { Writes (port_of (O.told out.old) waiting.old (O.faults out.old)) (port_of (O.told out.new) waiting.new (O.faults out.new))
        (flat_string memory.now p).0 result }
    ensures ended { IfOk result (λ ended. ended ≡ (flat_string memory.now p).1) }
{
    for at in 0..u64::from(memory.region_length(p)) {
        match memory.print_str(p, at) {
            Ok(byte) => {
                if byte == 0 {
                    return Ok(true);
                }
                waiting.byte(out, byte)?;
            }
            Err(_) => return Ok(false),
        }
    }
    Ok(false)
}

impl Machine {
    /// `PutByte`
    #[inline(never)]
    pub fn put_byte<O: Sink>(
        &mut self,
        byte: u8,
        waiting: &mut Buffer,
        out: &mut O,
        stop: &mut Stop,
    ) -> bool
        requires fit { IsFit self.old.cursor self.old }
        requires place { self.old.cursor.place < 2 ^ 63 }
        ensures { (links : Links) (feed : Feed) → Acts links (Instr.PutByte byte) self.old.cursor self.old self.new.cursor self.new
            (ports_of feed (port_of (O.told out.old) waiting.old (O.faults out.old))) (ports_of feed (port_of (O.told out.new) waiting.new (O.faults out.new)))
            (ended_by result stop.new) }
    {
        match waiting.byte(out, byte) {
            Ok(()) => {
                self.cursor.place += 1;
                true
            }
            Err(fault) => {
                *stop = refused(fault);
                false
            }
        }
    }

    /// `PutChar`
    #[inline(never)]
    pub fn put_char<O: Sink>(&mut self, waiting: &mut Buffer, out: &mut O, stop: &mut Stop) -> bool
        requires fit { IsFit self.old.cursor self.old }
        requires place { self.old.cursor.place < 2 ^ 63 }
        ensures { (links : Links) (feed : Feed) → Acts links Instr.PutChar self.old.cursor self.old self.new.cursor self.new
            (ports_of feed (port_of (O.told out.old) waiting.old (O.faults out.old))) (ports_of feed (port_of (O.told out.new) waiting.new (O.faults out.new)))
            (ended_by result stop.new) }
    {
        let mut cursor = self.cursor;
        match cursor.pop(self) {
            Some(z) => {
                let byte = low_byte(z);
                match waiting.byte(out, byte) {
                    Ok(()) => {
                        cursor.give(self, i128::from(byte));
                        self.cursor = cursor;
                        true
                    }
                    Err(fault) => {
                        *stop = refused(fault);
                        false
                    }
                }
            }
            None => {
                *stop = Stop::Fault;
                false
            }
        }
    }

    /// `PutString`
    #[inline(never)]
    pub fn put_string<O: Sink>(
        &mut self,
        waiting: &mut Buffer,
        out: &mut O,
        stop: &mut Stop,
    ) -> bool
        requires fit { IsFit self.old.cursor self.old }
        requires place { self.old.cursor.place < 2 ^ 63 }
        ensures { (links : Links) (feed : Feed) → Acts links Instr.PutString self.old.cursor self.old self.new.cursor self.new
            (ports_of feed (port_of (O.told out.old) waiting.old (O.faults out.old))) (ports_of feed (port_of (O.told out.new) waiting.new (O.faults out.new)))
            (ended_by result stop.new) }
    {
        let mut cursor = self.cursor;
        let Some(p) = cursor.pop(self) else {
            *stop = Stop::Fault;
            return false;
        };
        match put_string(&self.memory, pointer_in(p), waiting, out) {
            Ok(true) => {
                cursor.place += 1;
                self.cursor = cursor;
                true
            }
            Ok(false) => {
                *stop = Stop::Fault;
                false
            }
            Err(fault) => {
                *stop = refused(fault);
                false
            }
        }
    }

    /// `PutNumber`
    #[inline(never)]
    pub fn put_number<O: Sink>(
        &mut self,
        waiting: &mut Buffer,
        out: &mut O,
        stop: &mut Stop,
    ) -> bool
        requires fit { IsFit self.old.cursor self.old }
        requires place { self.old.cursor.place < 2 ^ 63 }
        ensures { (links : Links) (feed : Feed) → Acts links Instr.PutNumber self.old.cursor self.old self.new.cursor self.new
            (ports_of feed (port_of (O.told out.old) waiting.old (O.faults out.old))) (ports_of feed (port_of (O.told out.new) waiting.new (O.faults out.new)))
            (ended_by result stop.new) }
    {
        let mut cursor = self.cursor;
        match cursor.pop(self) {
            Some(z) => {
                let mut digits = itoa::Buffer::new();
                match waiting.bytes(out, digits.format(z).as_bytes()) {
                    Ok(()) => {
                        cursor.place += 1;
                        self.cursor = cursor;
                        true
                    }
                    Err(fault) => {
                        *stop = refused(fault);
                        false
                    }
                }
            }
            None => {
                *stop = Stop::Fault;
                false
            }
        }
    }
}

// The same from a cursor that is apart from the machine.
impl Cursor {
    /// `PutByte`
    #[inline(always)]
    pub fn put_byte<O: Sink>(
        &mut self,
        byte: u8,
        machine: &mut Machine,
        waiting: &mut Buffer,
        out: &mut O,
        stop: &mut Stop,
    ) -> bool
        requires fit { IsFit self.old machine.old }
        requires place { self.old.place < 2 ^ 63 }
        ensures { (links : Links) (feed : Feed) → Acts links (Instr.PutByte byte) self.old machine.old self.new machine.new
            (ports_of feed (port_of (O.told out.old) waiting.old (O.faults out.old))) (ports_of feed (port_of (O.told out.new) waiting.new (O.faults out.new)))
            (ended_by result stop.new) }
    {
        machine.cursor = *self;
        let goes_on = machine.put_byte(byte, waiting, out, stop);
        *self = machine.cursor;
        goes_on
    }

    /// `PutChar`
    #[inline(always)]
    pub fn put_char<O: Sink>(
        &mut self,
        machine: &mut Machine,
        waiting: &mut Buffer,
        out: &mut O,
        stop: &mut Stop,
    ) -> bool
        requires fit { IsFit self.old machine.old }
        requires place { self.old.place < 2 ^ 63 }
        ensures { (links : Links) (feed : Feed) → Acts links Instr.PutChar self.old machine.old self.new machine.new
            (ports_of feed (port_of (O.told out.old) waiting.old (O.faults out.old))) (ports_of feed (port_of (O.told out.new) waiting.new (O.faults out.new)))
            (ended_by result stop.new) }
    {
        machine.cursor = *self;
        let goes_on = machine.put_char(waiting, out, stop);
        *self = machine.cursor;
        goes_on
    }

    /// `PutString`
    #[inline(always)]
    pub fn put_string<O: Sink>(
        &mut self,
        machine: &mut Machine,
        waiting: &mut Buffer,
        out: &mut O,
        stop: &mut Stop,
    ) -> bool
        requires fit { IsFit self.old machine.old }
        requires place { self.old.place < 2 ^ 63 }
        ensures { (links : Links) (feed : Feed) → Acts links Instr.PutString self.old machine.old self.new machine.new
            (ports_of feed (port_of (O.told out.old) waiting.old (O.faults out.old))) (ports_of feed (port_of (O.told out.new) waiting.new (O.faults out.new)))
            (ended_by result stop.new) }
    {
        machine.cursor = *self;
        let goes_on = machine.put_string(waiting, out, stop);
        *self = machine.cursor;
        goes_on
    }

    /// `PutNumber`
    #[inline(always)]
    pub fn put_number<O: Sink>(
        &mut self,
        machine: &mut Machine,
        waiting: &mut Buffer,
        out: &mut O,
        stop: &mut Stop,
    ) -> bool
        requires fit { IsFit self.old machine.old }
        requires place { self.old.place < 2 ^ 63 }
        ensures { (links : Links) (feed : Feed) → Acts links Instr.PutNumber self.old machine.old self.new machine.new
            (ports_of feed (port_of (O.told out.old) waiting.old (O.faults out.old))) (ports_of feed (port_of (O.told out.new) waiting.new (O.faults out.new)))
            (ended_by result stop.new) }
    {
        machine.cursor = *self;
        let goes_on = machine.put_number(waiting, out, stop);
        *self = machine.cursor;
        goes_on
    }
}
