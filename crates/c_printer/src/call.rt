//! Calls.

ghost use Rattle.std.specs.Prelude.{◌≡◌, [], ◌∷◌, ◌++◌, map};
ghost use Rattle.mon_syntax.specs.Trees.{Act, PutChar, plain_expr};
ghost use Rattle.mon_syntax.specs.Text.{arguments_pieces, call_pieces, expression_pieces, function_name, more_arguments, name_of, set_or_none, set_pieces};
ghost use Rattle.mon_syntax.specs.Text.{comma, left_paren, memory_word, size_argument, spelled, statement_pieces, Number, Word};
ghost use Rattle.c_printer.specs.Printing.{Printed, pipe_of};
ghost use Rattle.c_printer.specs.Sight.{functions_of, in_sight};

use crate::expression::{Named, between, expression, name};
use crate::strings::number;
use crate::words::memory_word;
use crate::writer::Writer;
use ea_ports::Sink;
use mon_syntax::{MemoryCall, MonExpr, access_bytes, copy_bytes};

/// `R = `
pub fn set<O: Sink>(r: u32, named: &Named<'_>, to: &mut Writer, out: &mut O)
    ensures { Printed (pipe_of (O.told out.old) to.old (O.faults out.old)) (pipe_of (O.told out.new) to.new (O.faults out.new))
        (spelled (set_pieces (name_of (in_sight named.now) r))) }
{
    to.write(out, name(named, r));
    to.write(out, b" = ");
}

// `R = `, where a register takes the value.
fn target<O: Sink>(r: Option<u32>, named: &Named<'_>, to: &mut Writer, out: &mut O)
    ensures { Printed (pipe_of (O.told out.old) to.old (O.faults out.old)) (pipe_of (O.told out.new) to.new (O.faults out.new))
        (spelled (set_or_none (in_sight named.now) r)) }
{
    match r {
        None => {}
        Some(r) => set(r, named, to, out),
    }
}

/// `NAME(e);`
pub fn call<O: Sink>(callee: &[u8], e: &MonExpr, named: &Named<'_>, to: &mut Writer, out: &mut O)
    ensures { Printed (pipe_of (O.told out.old) to.old (O.faults out.old)) (pipe_of (O.told out.new) to.new (O.faults out.new))
        (spelled (call_pieces callee.now (expression_pieces (in_sight named.now) (plain_expr e.now)))) }
{
    to.write(out, callee);
    between(b"(", e, b");", named, to, out);
}

/// `putchar(e);`, or `R = putchar(e);`
pub fn put_char<O: Sink>(
    r: Option<u32>,
    e: &MonExpr,
    named: &Named<'_>,
    to: &mut Writer,
    out: &mut O,
)
    ensures { Printed (pipe_of (O.told out.old) to.old (O.faults out.old)) (pipe_of (O.told out.new) to.new (O.faults out.new))
        (spelled (statement_pieces [] (in_sight named.now) 0 (PutChar r (plain_expr e.now)))) }
{
    target(r, named, to, out);
    call(b"putchar", e, named, to, out);
}

/// The name of the function of a number, empty where there is none.
pub fn callee<'a>(named: &Named<'a>, f: u32) -> &'a [u8]
    ensures { result.now ≡ function_name (functions_of named.now) f }
{
    match named.functions.get(f as usize) {
        Some(function) => function.name.bytes(),
        None => &[],
    }
}

// The arguments after the first.
fn more_arguments<O: Sink>(list: &[MonExpr], named: &Named<'_>, to: &mut Writer, out: &mut O)
    ensures { Printed (pipe_of (O.told out.old) to.old (O.faults out.old)) (pipe_of (O.told out.new) to.new (O.faults out.new))
        (spelled (more_arguments (in_sight named.now) (map plain_expr list.now))) }
{
    'list: for e in list {
        to.write(out, b", ");
        expression(e, named, to, out);
    }
}

fn arguments<O: Sink>(list: &[MonExpr], named: &Named<'_>, to: &mut Writer, out: &mut O)
    ensures { Printed (pipe_of (O.told out.old) to.old (O.faults out.old)) (pipe_of (O.told out.new) to.new (O.faults out.new))
        (spelled (arguments_pieces (in_sight named.now) (map plain_expr list.now))) }
{
    match list {
        [] => {}
        [first, rest @ ..] => {
            expression(first, named, to, out);
            more_arguments(rest, named, to, out);
        }
    }
}

// A call up to its last argument.
fn begun_call<O: Sink>(
    r: Option<u32>,
    callee: &[u8],
    list: &[MonExpr],
    named: &Named<'_>,
    to: &mut Writer,
    out: &mut O,
)
    ensures { Printed (pipe_of (O.told out.old) to.old (O.faults out.old)) (pipe_of (O.told out.new) to.new (O.faults out.new))
        (spelled (set_or_none (in_sight named.now) r ++ (Word callee.now ∷ left_paren ∷ arguments_pieces (in_sight named.now) (map plain_expr list.now)))) }
{
    target(r, named, to, out);
    to.write(out, callee);
    to.write(out, b"(");
    arguments(list, named, to, out);
}

/// `NAME(..);`, or `R = NAME(..);`
pub fn call_with<O: Sink>(
    r: Option<u32>,
    callee: &[u8],
    list: &[MonExpr],
    named: &Named<'_>,
    to: &mut Writer,
    out: &mut O,
)
    ensures { Printed (pipe_of (O.told out.old) to.old (O.faults out.old)) (pipe_of (O.told out.new) to.new (O.faults out.new))
        (spelled (set_or_none (in_sight named.now) r ++ call_pieces callee.now (arguments_pieces (in_sight named.now) (map plain_expr list.now)))) }
{
    begun_call(r, callee, list, named, to, out);
    to.write(out, b");");
}

// The number after the arguments of a call.
fn last_number<O: Sink>(n: usize, to: &mut Writer, out: &mut O)
    ensures { Printed (pipe_of (O.told out.old) to.old (O.faults out.old)) (pipe_of (O.told out.new) to.new (O.faults out.new))
        (spelled (comma ++ (Number n ∷ []))) }
{
    to.write(out, b", ");
    number(n, to, out);
}

// That of a call on the memory, where it has one.
fn size_argument<O: Sink>(f: MemoryCall, to: &mut Writer, out: &mut O)
    ensures { Printed (pipe_of (O.told out.old) to.old (O.faults out.old)) (pipe_of (O.told out.new) to.new (O.faults out.new))
        (spelled (size_argument f)) }
{
    match f {
        MemoryCall::StoreBlock | MemoryCall::DeleteBlock => {}
        MemoryCall::Copy(size) => last_number(copy_bytes(size), to, out),
        MemoryCall::Number(size) => last_number(access_bytes(size), to, out),
        MemoryCall::Valid(size) => last_number(access_bytes(size), to, out),
        MemoryCall::ValidRead(size) => last_number(access_bytes(size), to, out),
        MemoryCall::Initialized(size) => last_number(access_bytes(size), to, out),
        MemoryCall::Pointer | MemoryCall::Inside | MemoryCall::Separated => {}
        MemoryCall::BaseAddr | MemoryCall::BlockLength | MemoryCall::Offset => {}
        MemoryCall::Malloc | MemoryCall::Calloc | MemoryCall::Free => {}
    }
}

/// `NAME(..);` of a call on the memory, or `R = NAME(..);`
pub fn memory_call<O: Sink>(
    r: Option<u32>,
    f: MemoryCall,
    list: &[MonExpr],
    named: &Named<'_>,
    to: &mut Writer,
    out: &mut O,
)
    ensures { Printed (pipe_of (O.told out.old) to.old (O.faults out.old)) (pipe_of (O.told out.new) to.new (O.faults out.new))
        (spelled (statement_pieces [] (in_sight named.now) 0 (Act r f (map plain_expr list.now)))) }
{
    begun_call(r, memory_word(f).as_bytes(), list, named, to, out);
    size_argument(f, to, out);
    to.write(out, b");");
}
