//! Expressions.

ghost use Rattle.std.specs.Prelude.{◌≡◌, ◌++◌};
ghost use Rattle.mon_syntax.specs.Trees.{Constant, plain_expr};
ghost use Rattle.mon_syntax.specs.Text.{expression_pieces, global_name, name_of, spelled};
ghost use Rattle.c_printer.specs.Printing.{Printed, pipe_of};
ghost use Rattle.c_printer.specs.Sight.{in_sight, no_names};

use crate::strings::signed_number;
use crate::words::{constant_word, operator_mark, type_word};
use crate::writer::Writer;
use ea_ports::Sink;
use mon_syntax::{MonExpr, MonExprKind, MonFunc, MonGlobal, MonType, Register};

/// The functions and the globals of a program, and the registers of one function, of which the parameters have the first
/// numbers.
#[derive(Clone, Copy)]
pub struct Named<'a> {
    pub functions: &'a [MonFunc],
    pub globals: &'a [MonGlobal],
    pub parameters: &'a [Register],
    pub registers: &'a [Register],
}

/// The name of the register of a number, empty where there is none.
pub fn name<'a>(named: &Named<'a>, r: u32) -> &'a [u8]
    ensures { result.now ≡ name_of (in_sight named.now) r }
{
    let at = r as usize;
    match named.parameters.get(at) {
        Some(register) => register.name.bytes(),
        None => match named.registers.get(at - named.parameters.len()) {
            Some(register) => register.name.bytes(),
            None => &[],
        },
    }
}

// The name of the global of a number, empty where there is none.
fn global_name<'a>(named: &Named<'a>, g: u32) -> &'a [u8]
    ensures { result.now ≡ global_name (in_sight named.now) g }
{
    match named.globals.get(g as usize) {
        Some(global) => global.name.bytes(),
        None => &[],
    }
}

// `I32(-1)`
fn constant<O: Sink>(t: MonType, z: i128, to: &mut Writer, out: &mut O)
    ensures { Printed (pipe_of (O.told out.old) to.old (O.faults out.old)) (pipe_of (O.told out.new) to.new (O.faults out.new))
        (spelled (expression_pieces no_names (Constant t z))) }
{
    to.write(out, constant_word(t).as_bytes());
    to.write(out, b"(");
    signed_number(z, to, out);
    to.write(out, b")");
}

/// An expression between other bytes.
#[cycle(expression)]
pub fn between<O: Sink>(
    front: &[u8],
    e: &MonExpr,
    behind: &[u8],
    named: &Named<'_>,
    to: &mut Writer,
    out: &mut O,
)
    ensures { Printed (pipe_of (O.told out.old) to.old (O.faults out.old)) (pipe_of (O.told out.new) to.new (O.faults out.new))
        (front.now ++ (spelled (expression_pieces (in_sight named.now) (plain_expr e.now)) ++ behind.now)) }
{
    to.write(out, front);
    expression(e, named, to, out);
    to.write(out, behind);
}

/// An expression, in parentheses where it isn't a name or a constant.
#[cycle(expression)]
pub fn expression<O: Sink>(e: &MonExpr, named: &Named<'_>, to: &mut Writer, out: &mut O)
    ensures { Printed (pipe_of (O.told out.old) to.old (O.faults out.old)) (pipe_of (O.told out.new) to.new (O.faults out.new))
        (spelled (expression_pieces (in_sight named.now) (plain_expr e.now))) }
{
    match &*e.kind {
        MonExprKind::Register(r) => to.write(out, name(named, *r)),
        MonExprKind::Global(g) => to.write(out, global_name(named, *g)),
        MonExprKind::Constant(t, z) => constant(*t, *z, to, out),
        MonExprKind::Binary(op, _, a, b) => {
            between(b"(", a, b" ", named, to, out);
            to.write(out, operator_mark(*op).as_bytes());
            between(b" ", b, b")", named, to, out);
        }
        MonExprKind::Minus(_, a) => between(b"(-", a, b")", named, to, out),
        MonExprKind::Flip(_, a) => between(b"(~", a, b")", named, to, out),
        MonExprKind::Cast(t, a) => {
            to.write_three(out, b"((", type_word(*t).as_bytes(), b")");
            between(b"", a, b")", named, to, out);
        }
        MonExprKind::Load(t, a) => {
            to.write_three(out, b"(*(", type_word(*t).as_bytes(), b" *)");
            between(b"", a, b")", named, to, out);
        }
    }
}
