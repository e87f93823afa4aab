//! Statements.

ghost use Rattle.std.specs.Prelude.{[], ◌++◌, option_map, codes};
ghost use Rattle.mon_syntax.specs.Trees.{Assert, If, Labelled, Loop, PrintText, Return, Set, Store, plain_expr, plain_stmt, plain_stmts};
ghost use Rattle.mon_syntax.specs.Text.{body_pieces, mark_pieces, new_line, spelled, spelled_piece, statement_pieces, statements_pieces};
ghost use Rattle.c_printer.specs.Depths.{depth_of};
ghost use Rattle.c_printer.specs.Printing.{Printed, pipe_of};
ghost use Rattle.c_printer.specs.Sight.{functions_of, in_sight, no_names};

use crate::call::{call, call_with, callee, memory_call, put_char, set};
use crate::expression::{Named, between, expression, name};
use crate::line::{Depth, closing, line};
use crate::strings::{number, string};
use crate::words::type_word;
use crate::writer::Writer;
use c_syntax::Kind;
use ea_ports::Sink;
use mon_syntax::{MonExpr, MonStmt, MonStmtKind, MonType, byte_count, is_pointer, kind_word};

// `R = e;`
fn assignment<O: Sink>(r: u32, e: &MonExpr, named: &Named<'_>, to: &mut Writer, out: &mut O)
    ensures { Printed (pipe_of (O.told out.old) to.old (O.faults out.old)) (pipe_of (O.told out.new) to.new (O.faults out.new))
        (spelled (statement_pieces [] (in_sight named.now) 0 (Set r (plain_expr e.now)))) }
{
    set(r, named, to, out);
    expression(e, named, to, out);
    to.write(out, b";");
}

// The mark of a store at the pointer of a register.
fn mark<O: Sink>(r: u32, t: MonType, named: &Named<'_>, to: &mut Writer, out: &mut O)
    ensures { Printed (pipe_of (O.told out.old) to.old (O.faults out.old)) (pipe_of (O.told out.new) to.new (O.faults out.new))
        (spelled (mark_pieces (in_sight named.now) r t)) }
{
    if is_pointer(t) {
        to.write_three(out, b"__e_acsl_initialize_ptr(", name(named, r), b");");
    } else {
        to.write_three(out, b"__e_acsl_initialize(", name(named, r), b", ");
        number(byte_count(t), to, out);
        to.write(out, b");");
    }
}

// `*(t *)R = e;`, and its mark on a line of its own.
fn store<O: Sink>(
    r: u32,
    t: MonType,
    e: &MonExpr,
    depth: &Depth<'_>,
    named: &Named<'_>,
    to: &mut Writer,
    out: &mut O,
)
    ensures { Printed (pipe_of (O.told out.old) to.old (O.faults out.old)) (pipe_of (O.told out.new) to.new (O.faults out.new))
        (spelled (statement_pieces [] (in_sight named.now) (depth_of depth.now) (Store r t (plain_expr e.now)))) }
{
    to.write_three(out, b"*(", type_word(t).as_bytes(), b" *)");
    set(r, named, to, out);
    expression(e, named, to, out);
    to.write(out, b";");
    line(depth, to, out);
    mark(r, t, named, to, out);
}

// `__e_acsl_assert(d, v, A, L, "kind");`
fn assertion<O: Sink>(
    d: &MonExpr,
    v: &MonExpr,
    annotation: u32,
    line: u32,
    kind: Kind,
    named: &Named<'_>,
    to: &mut Writer,
    out: &mut O,
)
    ensures { Printed (pipe_of (O.told out.old) to.old (O.faults out.old)) (pipe_of (O.told out.new) to.new (O.faults out.new))
        (spelled (statement_pieces [] (in_sight named.now) 0 (Assert (plain_expr d.now) (plain_expr v.now) annotation line kind))) }
{
    between(b"__e_acsl_assert(", d, b", ", named, to, out);
    between(b"", v, b", ", named, to, out);
    number(annotation as usize, to, out);
    to.write(out, b", ");
    number(line as usize, to, out);
    to.write(out, b", ");
    string(kind_word(kind).as_bytes(), to, out);
    to.write(out, b");");
}

// `__e_acsl_print_text("..");`
fn print_text<O: Sink>(bytes: &[u8], to: &mut Writer, out: &mut O)
    ensures { Printed (pipe_of (O.told out.old) to.old (O.faults out.old)) (pipe_of (O.told out.new) to.new (O.faults out.new))
        (spelled (statement_pieces [] no_names 0 (PrintText bytes.now))) }
{
    to.write(out, b"__e_acsl_print_text(");
    string(bytes, to, out);
    to.write(out, b");");
}

// `return e;`, or `return;`
fn give_back<O: Sink>(value: &Option<MonExpr>, named: &Named<'_>, to: &mut Writer, out: &mut O)
    ensures { Printed (pipe_of (O.told out.old) to.old (O.faults out.old)) (pipe_of (O.told out.new) to.new (O.faults out.new))
        (spelled (statement_pieces [] (in_sight named.now) 0 (Return (option_map plain_expr value.now)))) }
{
    match value {
        None => to.write(out, b"return;"),
        Some(e) => between(b"return ", e, b";", named, to, out),
    }
}

// The step of a loop, on a line of its own.
fn step_line<O: Sink>(depth: &Depth<'_>, to: &mut Writer, out: &mut O)
    ensures { Printed (pipe_of (O.told out.old) to.old (O.faults out.old)) (pipe_of (O.told out.new) to.new (O.faults out.new))
        (spelled_piece (new_line (depth_of depth.now)) ++ codes "__e_acsl_step();") }
{
    line(depth, to, out);
    to.write(out, b"__e_acsl_step();");
}

// Statements in braces.
#[cycle(statement)]
fn body<O: Sink>(
    stmts: &[MonStmt],
    depth: &Depth<'_>,
    named: &Named<'_>,
    to: &mut Writer,
    out: &mut O,
)
    ensures { Printed (pipe_of (O.told out.old) to.old (O.faults out.old)) (pipe_of (O.told out.new) to.new (O.faults out.new))
        (spelled (body_pieces (functions_of named.now) (in_sight named.now) (depth_of depth.now) (plain_stmts stmts.now))) }
{
    if stmts.is_empty() {
        to.write(out, b"{ }");
    } else {
        let inner = Depth::Inside(&*depth);
        to.write(out, b"{");
        statements(stmts, &inner, named, to, out);
        closing(depth, to, out);
    }
}

// `if (e) { .. } else { .. }`
#[cycle(statement)]
fn choice<O: Sink>(
    e: &MonExpr,
    first: &[MonStmt],
    second: &[MonStmt],
    depth: &Depth<'_>,
    named: &Named<'_>,
    to: &mut Writer,
    out: &mut O,
)
    ensures { Printed (pipe_of (O.told out.old) to.old (O.faults out.old)) (pipe_of (O.told out.new) to.new (O.faults out.new))
        (spelled (statement_pieces (functions_of named.now) (in_sight named.now) (depth_of depth.now)
        (If (plain_expr e.now) (plain_stmts first.now) (plain_stmts second.now)))) }
{
    between(b"if (", e, b") ", named, to, out);
    body(first, depth, named, to, out);
    to.write(out, b" else ");
    body(second, depth, named, to, out);
}

// `while (1) { .. __e_acsl_step(); .. }`
#[cycle(statement)]
fn repeated<O: Sink>(
    before: &[MonStmt],
    behind: &[MonStmt],
    depth: &Depth<'_>,
    named: &Named<'_>,
    to: &mut Writer,
    out: &mut O,
)
    ensures { Printed (pipe_of (O.told out.old) to.old (O.faults out.old)) (pipe_of (O.told out.new) to.new (O.faults out.new))
        (spelled (statement_pieces (functions_of named.now) (in_sight named.now) (depth_of depth.now)
        (Loop (plain_stmts before.now) (plain_stmts behind.now)))) }
{
    let inner = Depth::Inside(&*depth);
    to.write(out, b"while (1) {");
    statements(before, &inner, named, to, out);
    step_line(&inner, to, out);
    statements(behind, &inner, named, to, out);
    closing(depth, to, out);
}

// `{ .. } LABEL: ;`
#[cycle(statement)]
fn labelled<O: Sink>(
    stmts: &[MonStmt],
    label: &[u8],
    depth: &Depth<'_>,
    named: &Named<'_>,
    to: &mut Writer,
    out: &mut O,
)
    ensures { Printed (pipe_of (O.told out.old) to.old (O.faults out.old)) (pipe_of (O.told out.new) to.new (O.faults out.new))
        (spelled (statement_pieces (functions_of named.now) (in_sight named.now) (depth_of depth.now) (Labelled (plain_stmts stmts.now) label.now))) }
{
    body(stmts, depth, named, to, out);
    to.write_three(out, b" ", label, b": ;");
}

/// Statements, each on a line of its own.
#[cycle(statement)]
pub fn statements<O: Sink>(
    stmts: &[MonStmt],
    depth: &Depth<'_>,
    named: &Named<'_>,
    to: &mut Writer,
    out: &mut O,
)
    ensures { Printed (pipe_of (O.told out.old) to.old (O.faults out.old)) (pipe_of (O.told out.new) to.new (O.faults out.new))
        (spelled (statements_pieces (functions_of named.now) (in_sight named.now) (depth_of depth.now) (plain_stmts stmts.now))) }
{
    'stmts: for s in stmts {
        if to.is_shut() {
            return;
        }
        line(depth, to, out);
        statement(s, depth, named, to, out);
    }
}

// A statement.
#[cycle(statement)]
fn statement<O: Sink>(
    s: &MonStmt,
    depth: &Depth<'_>,
    named: &Named<'_>,
    to: &mut Writer,
    out: &mut O,
)
    ensures { Printed (pipe_of (O.told out.old) to.old (O.faults out.old)) (pipe_of (O.told out.new) to.new (O.faults out.new))
        (spelled (statement_pieces (functions_of named.now) (in_sight named.now) (depth_of depth.now) (plain_stmt s.now))) }
{
    match &*s.kind {
        MonStmtKind::Set(r, e) => assignment(*r, e, named, to, out),
        MonStmtKind::Store(r, t, e) => store(*r, *t, e, depth, named, to, out),
        MonStmtKind::Step => to.write(out, b"__e_acsl_step();"),
        MonStmtKind::Assert(d, v, number, line, kind) => {
            assertion(d, v, *number, *line, *kind, named, to, out);
        }
        MonStmtKind::PutChar(r, e) => put_char(*r, e, named, to, out),
        MonStmtKind::GetChar(r) => call_with(*r, b"getchar", &[], named, to, out),
        MonStmtKind::Exit(e) => call(b"exit", e, named, to, out),
        MonStmtKind::PrintText(bytes) => print_text(bytes.bytes(), to, out),
        MonStmtKind::PrintSigned(e) => call(b"__e_acsl_print_i64", e, named, to, out),
        MonStmtKind::PrintUnsigned(e) => call(b"__e_acsl_print_u64", e, named, to, out),
        MonStmtKind::PrintString(e) => call(b"__e_acsl_print_str", e, named, to, out),
        MonStmtKind::Act(r, f, list) => memory_call(*r, *f, list, named, to, out),
        MonStmtKind::Call(r, f, list) => call_with(*r, callee(named, *f), list, named, to, out),
        MonStmtKind::If(e, a, b) => choice(e, a, b, depth, named, to, out),
        MonStmtKind::Loop(a, b) => repeated(a, b, depth, named, to, out),
        MonStmtKind::Labelled(a, label) => labelled(a, label.bytes(), depth, named, to, out),
        MonStmtKind::Goto(label) => to.write_three(out, b"goto ", label.bytes(), b";"),
        MonStmtKind::Return(value) => give_back(value, named, to, out),
    }
}
