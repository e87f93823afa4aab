//! What a text is written to.

ghost use Rattle.std.specs.Prelude.{◌≡◌, ◌++◌, ℕ, List, Option, MatchResult};
ghost use Rattle.std.specs.Option.{is_some};
ghost use Rattle.ea_ports.specs.Port.{more};
ghost use Rattle.c_printer.specs.Printing.{PrintCut, Printed, begun, pipe_of};

use ea_ports::{Buffer, Sink, SinkFault};

/// Holds back bytes for a sink, and takes no memory. Where the sink refused it keeps the refusal, and the sink gets nothing
/// more, so that what prints needs no answer of each write.
#[derive(Drop)]
pub struct Writer {
    waiting: Buffer,
    refusal: Option<SinkFault>,
}

impl Writer {
    /// Nothing waits, and nothing is refused.
    pub fn new() -> Writer
        ensures { result ≡ begun }
    {
        Writer {
            waiting: Buffer::new(),
            refusal: None,
        }
    }

    /// Writes bytes, now or later, unless the sink refused.
    pub fn write<O: Sink>(&mut self, out: &mut O, bytes: &[u8])
        ensures { Printed (pipe_of (O.told out.old) self.old (O.faults out.old)) (pipe_of (O.told out.new) self.new (O.faults out.new)) bytes.now }
    {
        if self.refusal.is_none() {
            if let Err(fault) = self.waiting.bytes(out, bytes) {
                self.refusal = Some(fault);
            }
        }
    }

    /// Writes some bytes and others after them.
    pub fn write_three<O: Sink>(&mut self, out: &mut O, first: &[u8], second: &[u8], third: &[u8])
        ensures { Printed (pipe_of (O.told out.old) self.old (O.faults out.old)) (pipe_of (O.told out.new) self.new (O.faults out.new))
            (first.now ++ (second.now ++ third.now)) }
    {
        self.write(out, first);
        self.write(out, second);
        self.write(out, third);
    }

    /// Whether the sink refused.
    pub fn is_shut(&self) -> bool
        ensures { result ≡ is_some self.now.refusal }
    {
        self.refusal.is_some()
    }

    /// Puts the bytes that wait, unless the sink refused.
    pub fn finish<O: Sink>(&mut self, out: &mut O) -> Result<(), SinkFault>
        ensures { (text : List ℕ) (told : Option (List ℕ)) (faults : ℕ)
            → Printed (pipe_of told begun faults) (pipe_of (O.told out.old) self.old (O.faults out.old)) text → MatchResult result
            (λ _. (O.told out.new ≡ more told text) × (O.faults out.new ≡ faults))
            (λ fault. PrintCut text told (O.told out.new) faults (O.faults out.new) fault) }
    {
        match self.refusal {
            Some(fault) => Err(fault),
            None => self.waiting.flush(out),
        }
    }
}
