// Bytes held back for a sink, which it gets in pieces of 4,096.
ghost use Rattle.std.specs.Prelude.{◌≡◌, [], ◌∷◌};
ghost use Rattle.ea_ports.specs.Buffered.{Writes, port_of};

use crate::{Sink, SinkFault};
use std::marker::Model;

// The length of a piece.
const ROOM: usize = 4096;

/// Holds back at most 4,095 bytes for a sink, and takes no memory. In a contract it is the list of the bytes that wait.
/// Where the sink refuses a piece, none of its bytes waits any longer.
#[derive(Drop)]
pub struct Buffer {
    room: [u8; ROOM],
    count: usize,
}

impl Model for Buffer {
    ghost use Rattle.std.specs.Prelude.{ℕ, ◌<◌, List, take};

    ghost Value = { List ℕ };

    ghost view = { λ buffer. take buffer.count buffer.room };

    ghost invariant = { λ buffer. buffer.count < 4096 };
}

impl Buffer {
    /// No byte waits.
    pub fn new() -> Buffer
        ensures { result ≡ [] }
    {
        Buffer {
            room: [0; ROOM],
            count: 0,
        }
    }

    /// Writes a byte, now or later.
    pub fn byte<O: Sink>(&mut self, out: &mut O, byte: u8) -> Result<(), SinkFault>
        ensures { Writes (port_of (O.told out.old) self.old (O.faults out.old)) (port_of (O.told out.new) self.new (O.faults out.new)) (byte ∷ []) result }
    {
        self.room[self.count] = byte;
        if self.count + 1 < ROOM {
            self.count += 1;
            return Ok(());
        }
        self.count = 0;
        out.put(&self.room)
    }

    /// Writes bytes, now or later.
    pub fn bytes<O: Sink>(&mut self, out: &mut O, bytes: &[u8]) -> Result<(), SinkFault>
        ensures { Writes (port_of (O.told out.old) self.old (O.faults out.old)) (port_of (O.told out.new) self.new (O.faults out.new)) bytes.now result }
    {
        for byte in bytes {
            self.byte(out, *byte)?;
        }
        Ok(())
    }

    /// Puts the bytes that wait.
    pub fn flush<O: Sink>(&mut self, out: &mut O) -> Result<(), SinkFault>
        ensures written { Writes (port_of (O.told out.old) self.old (O.faults out.old)) (port_of (O.told out.new) self.new (O.faults out.new)) [] result }
        ensures none_waits { self.new ≡ [] }
    {
        let count = self.count;
        self.count = 0;
        out.put(&self.room[..count])
    }
}
