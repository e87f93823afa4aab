//! The ends of lines, and the blanks before the next.

ghost use Rattle.std.specs.Prelude.{◌*◌, ◌++◌, replicate, codes};
ghost use Rattle.mon_syntax.specs.Text.{new_line, spelled_piece};
ghost use Rattle.c_printer.specs.Depths.{depth_of};
ghost use Rattle.c_printer.specs.Printing.{Printed, pipe_of};

use crate::writer::Writer;
use ea_ports::Sink;

/// How many bodies are around a line: a chain on the stack, which no depth overflows as it would a number.
#[derive(Clone, Copy)]
pub enum Depth<'a> {
    Top,
    Inside(&'a Depth<'a>),
}

// Two blanks for each body around a line.
fn indent<O: Sink>(depth: &Depth<'_>, to: &mut Writer, out: &mut O)
    ensures { Printed (pipe_of (O.told out.old) to.old (O.faults out.old)) (pipe_of (O.told out.new) to.new (O.faults out.new))
        (replicate (2 * depth_of depth.now) 32) }
{
    match depth {
        Depth::Top => {}
        Depth::Inside(outer) => {
            to.write(out, b"  ");
            indent(outer, to, out);
        }
    }
}

/// The end of a line, and the blanks before the next one.
pub fn line<O: Sink>(depth: &Depth<'_>, to: &mut Writer, out: &mut O)
    ensures { Printed (pipe_of (O.told out.old) to.old (O.faults out.old)) (pipe_of (O.told out.new) to.new (O.faults out.new))
        (spelled_piece (new_line (depth_of depth.now))) }
{
    to.write(out, b"\n");
    indent(depth, to, out);
}

/// The line that ends a body, up to its brace.
pub fn closing<O: Sink>(depth: &Depth<'_>, to: &mut Writer, out: &mut O)
    ensures { Printed (pipe_of (O.told out.old) to.old (O.faults out.old)) (pipe_of (O.told out.new) to.new (O.faults out.new))
        (spelled_piece (new_line (depth_of depth.now)) ++ codes "}") }
{
    line(depth, to, out);
    to.write(out, b"}");
}
