//! One instruction.

ghost use Rattle.std.specs.Prelude.{◌≡◌, ℕ, ◌<◌, ◌^◌};
ghost use Rattle.ea_ports.specs.Buffered.{port_of};
ghost use Rattle.c_lower.specs.Sound.{target};
ghost use Rattle.c_machine.specs.Acts.{Acts, ended_by};
ghost use Rattle.c_machine.specs.Held.{IsFit, links_of};
ghost use Rattle.c_machine.specs.Reading.{feed_of, ports_of};

use crate::machine::{Cursor, Machine};
use crate::reading::Reader;
use crate::stop::Stop;
use c_lower::{Entry, Instr};
use ea_ports::{Buffer, Sink, Source};

impl Cursor {
    /// An instruction: it goes on, or says how the run ends.
    #[inline(always)]
    pub fn turn<I: Source, O: Sink>(
        &mut self,
        instr: &Instr,
        globals: &[i128],
        entries: &[Entry],
        machine: &mut Machine,
        reader: &mut Reader,
        input: &mut I,
        waiting: &mut Buffer,
        out: &mut O,
        stop: &mut Stop,
    ) -> bool
        requires fit { IsFit self.old machine.old }
        requires place { self.old.place < 2 ^ 63 }
        requires jumps { (to : ℕ) → target self.old.place instr.now ≡ Some to → to < 2 ^ 63 }
        ensures { Acts (links_of globals.now entries.now) instr.now self.old machine.old self.new machine.new
            (ports_of (feed_of (I.left input.old) (I.faults input.old) reader.old.ended) (port_of (O.told out.old) waiting.old (O.faults out.old)))
            (ports_of (feed_of (I.left input.new) (I.faults input.new) reader.new.ended) (port_of (O.told out.new) waiting.new (O.faults out.new)))
            (ended_by result stop.new) }
    {
        match instr {
            Instr::Push(z) => self.push_number(*z, machine, stop),
            Instr::Extend(low) => self.extend(*low, machine, stop),
            Instr::Global(g) => self.global(*g, globals, machine, stop),
            Instr::Get(r) => self.get(*r, machine, stop),
            Instr::Put(r) => self.put(*r, machine, stop),
            Instr::Drop => self.drop_top(machine, stop),
            Instr::Binary(op, t) => self.binary(*op, *t, machine, stop),
            Instr::Pointed(op) => self.point(*op, machine, stop),
            Instr::Minus(t) => self.negate(*t, machine, stop),
            Instr::Flip(t) => self.flip_bits(*t, machine, stop),
            Instr::Cast(t) => self.cast(*t, machine, stop),
            Instr::Load(t) => self.load(*t, machine, stop),
            Instr::Store(t) => self.store(*t, machine, stop),
            Instr::Assert(number, line, kind) => self.judge(*number, *line, *kind, machine, stop),
            Instr::PutChar => self.put_char(machine, waiting, out, stop),
            Instr::PutByte(byte) => self.put_byte(*byte, machine, waiting, out, stop),
            Instr::PutNumber => self.put_number(machine, waiting, out, stop),
            Instr::PutString => self.put_string(machine, waiting, out, stop),
            Instr::GetChar => self.get_char(machine, reader, input, stop),
            Instr::Act(f, count) => self.act(*f, *count, machine, stop),
            Instr::Exit => self.exit(machine, stop),
            Instr::SkipIfZero(n) => self.skip_if_zero(*n, machine, stop),
            Instr::GoOn(n) => self.go_on(*n, machine, stop),
            Instr::GoBack(n) => self.go_back(*n, machine, stop),
            Instr::Step => self.step(machine, stop),
            Instr::Call(function, count) => self.call(*function, *count, entries, machine, stop),
            Instr::Return => self.give_back(machine, stop),
            Instr::Fail => {
                *stop = Stop::Fault;
                false
            }
        }
    }
}
