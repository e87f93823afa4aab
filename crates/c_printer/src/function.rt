//! Functions.

ghost use Rattle.std.specs.Prelude.{map};
ghost use Rattle.mon_syntax.specs.Trees.{plain_func, plain_global, plain_register};
ghost use Rattle.mon_syntax.specs.Text.{function_pieces, functions_pieces, more_parameters, parameter_pieces, parameters_pieces, registers_pieces, spelled};
ghost use Rattle.c_printer.specs.Heads.{head_pieces};
ghost use Rattle.c_printer.specs.Printing.{Printed, pipe_of};
ghost use Rattle.c_printer.specs.Sight.{names_of};

use crate::expression::Named;
use crate::line::{Depth, closing, line};
use crate::statement::statements;
use crate::words::{result_word, type_word};
use crate::writer::Writer;
use ea_ports::Sink;
use mon_syntax::{MonFunc, MonGlobal, Register};

// A register with its type.
fn declared<O: Sink>(r: &Register, to: &mut Writer, out: &mut O)
    ensures { Printed (pipe_of (O.told out.old) to.old (O.faults out.old)) (pipe_of (O.told out.new) to.new (O.faults out.new))
        (spelled (parameter_pieces (plain_register r.now))) }
{
    to.write_three(out, type_word(r.kind).as_bytes(), b" ", r.name.bytes());
}

// The parameters after the first.
fn more_parameters<O: Sink>(list: &[Register], to: &mut Writer, out: &mut O)
    ensures { Printed (pipe_of (O.told out.old) to.old (O.faults out.old)) (pipe_of (O.told out.new) to.new (O.faults out.new))
        (spelled (more_parameters (map plain_register list.now))) }
{
    'list: for r in list {
        to.write(out, b", ");
        declared(r, to, out);
    }
}

// The parameters, or `void` where there are none.
fn parameters<O: Sink>(list: &[Register], to: &mut Writer, out: &mut O)
    ensures { Printed (pipe_of (O.told out.old) to.old (O.faults out.old)) (pipe_of (O.told out.new) to.new (O.faults out.new))
        (spelled (parameters_pieces (map plain_register list.now))) }
{
    match list {
        [] => to.write(out, b"void"),
        [first, rest @ ..] => {
            declared(first, to, out);
            more_parameters(rest, to, out);
        }
    }
}

// The other registers, each on a line of its own.
fn registers<O: Sink>(list: &[Register], to: &mut Writer, out: &mut O)
    ensures { Printed (pipe_of (O.told out.old) to.old (O.faults out.old)) (pipe_of (O.told out.new) to.new (O.faults out.new))
        (spelled (registers_pieces (map plain_register list.now))) }
{
    let depth = Depth::Inside(&Depth::Top);
    'list: for r in list {
        line(&depth, to, out);
        declared(r, to, out);
        to.write(out, b";");
    }
}

// The head of a function, with its registers.
fn head<O: Sink>(f: &MonFunc, to: &mut Writer, out: &mut O)
    ensures { Printed (pipe_of (O.told out.old) to.old (O.faults out.old)) (pipe_of (O.told out.new) to.new (O.faults out.new))
        (spelled (head_pieces (plain_func f.now))) }
{
    to.write_three(out, result_word(f.result).as_bytes(), b" ", f.name.bytes());
    to.write(out, b"(");
    parameters(&f.parameters, to, out);
    to.write(out, b") {");
    registers(&f.registers, to, out);
}

// A function among all of a program, and its globals.
fn function<O: Sink>(
    f: &MonFunc,
    all: &[MonFunc],
    globals: &[MonGlobal],
    to: &mut Writer,
    out: &mut O,
)
    ensures { Printed (pipe_of (O.told out.old) to.old (O.faults out.old)) (pipe_of (O.told out.new) to.new (O.faults out.new))
        (spelled (function_pieces (names_of all.now) (map plain_global globals.now) (plain_func f.now))) }
{
    let named = Named {
        functions: all,
        globals,
        parameters: &f.parameters,
        registers: &f.registers,
    };
    let depth = Depth::Inside(&Depth::Top);
    head(f, to, out);
    statements(&f.body, &depth, &named, to, out);
    closing(&Depth::Top, to, out);
    line(&Depth::Top, to, out);
}

/// The functions, one after another, in a program with these globals.
pub fn functions<O: Sink>(list: &[MonFunc], globals: &[MonGlobal], to: &mut Writer, out: &mut O)
    ensures { Printed (pipe_of (O.told out.old) to.old (O.faults out.old)) (pipe_of (O.told out.new) to.new (O.faults out.new))
        (spelled (functions_pieces (names_of list.now) (map plain_global globals.now) (map plain_func list.now))) }
{
    'list: for f in list {
        function(f, list, globals, to, out);
    }
}
