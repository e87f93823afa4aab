//! Globals and literals.

ghost use Rattle.std.specs.Prelude.{map};
ghost use Rattle.mon_syntax.specs.Trees.{plain_content, plain_global};
ghost use Rattle.mon_syntax.specs.Text.{content_pieces, globals_pieces, spelled};
ghost use Rattle.c_printer.specs.Printing.{Printed, pipe_of};

use crate::line::{Depth, line};
use crate::strings::{number, string};
use crate::writer::Writer;
use ea_ports::Sink;
use mon_syntax::{GlobalContent, MonGlobal};

// What stands after `static`.
fn content<O: Sink>(name: &[u8], content: &GlobalContent, to: &mut Writer, out: &mut O)
    ensures { Printed (pipe_of (O.told out.old) to.old (O.faults out.old)) (pipe_of (O.told out.new) to.new (O.faults out.new))
        (spelled (content_pieces name.now (plain_content content.now))) }
{
    match content {
        GlobalContent::Zeros(size) => {
            to.write_three(out, b"char ", name, b"[");
            number(*size as usize, to, out);
            to.write(out, b"];");
        }
        GlobalContent::Literal(bytes) => {
            to.write_three(out, b"const char ", name, b"[");
            number(bytes.bytes().len() + 1, to, out);
            to.write(out, b"] = ");
            string(bytes.bytes(), to, out);
            to.write(out, b";");
        }
    }
}

/// The globals, each on a line of its own.
pub fn globals<O: Sink>(list: &[MonGlobal], to: &mut Writer, out: &mut O)
    ensures { Printed (pipe_of (O.told out.old) to.old (O.faults out.old)) (pipe_of (O.told out.new) to.new (O.faults out.new))
        (spelled (globals_pieces (map plain_global list.now))) }
{
    'list: for g in list {
        to.write(out, b"static ");
        content(g.name.bytes(), &g.content, to, out);
        line(&Depth::Top, to, out);
    }
}
