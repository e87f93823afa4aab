//! Whole programs.

ghost use Rattle.std.specs.Prelude.{◌≡◌, MatchResult};
ghost use Rattle.ea_ports.specs.Port.{more};
ghost use Rattle.mon_syntax.specs.Trees.{plain_program};
ghost use Rattle.mon_syntax.specs.Text.{text_of};
ghost use Rattle.c_printer.specs.Printing.{PrintCut};

use crate::function::functions;
use crate::global::globals;
use crate::writer::Writer;
use ea_ports::{Sink, SinkFault};
use mon_syntax::MonProgram;

/// Puts the text of a program, by pieces of 4,096 bytes and a rest. It takes no memory.
pub fn print<O: Sink>(m: &MonProgram, out: &mut O) -> Result<(), SinkFault>
    ensures { MatchResult result
        (λ _. (O.told out.new ≡ more (O.told out.old) (text_of (plain_program m.now))) × (O.faults out.new ≡ O.faults out.old))
        (λ fault. PrintCut (text_of (plain_program m.now)) (O.told out.old) (O.told out.new) (O.faults out.old) (O.faults out.new) fault) }
{
    let mut to = Writer::new();
    to.write(out, b"#include <e_acsl.h>\n");
    globals(&m.globals, &mut to, out);
    functions(&m.functions, &m.globals, &mut to, out);
    to.finish(out)
}
