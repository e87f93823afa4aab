//! Calls (C99 6.5.2.2).

ghost use Rattle.std.specs.Prelude.{◌≡◌, IfOk, None, OnOk, map};
ghost use Rattle.c_syntax.specs.Expressions.{plain_exprs};
ghost use Rattle.c_syntax.specs.Programs.{plain_program};
ghost use Rattle.mon_syntax.specs.Trees.{Exit, PutChar, plain_expr as plain_monitored, plain_stmts};
ghost use Rattle.c_effects.specs.Expressions.{before, one};
ghost use Rattle.c_effects.specs.Effects.{call, first_of, library_call, named_call};

use crate::part::then;
use crate::print::{print_call, take_first};
use c_scopes::sight::name_at;
use c_syntax::{Expr, Use};
use mon_syntax::{MemoryCall, MonExpr, MonStmt, MonStmtKind, Registers, numbered};
use std::alloc::{AllocError, Global};

fn put_char(
    alloc: Global,
    into: Option<u32>,
    mut args: Vec<MonExpr>,
    to: &mut Vec<MonStmt>,
) -> Result<(), AllocError>
    ensures { OnOk result (plain_stmts to.new.items ≡ before (plain_stmts to.old.items) (one (PutChar into (first_of (map plain_monitored args.items))))) }
{
    let e = take_first(alloc, &mut args)?;
    then(alloc, to, MonStmtKind::PutChar(into, e))
}

fn exit(alloc: Global, mut args: Vec<MonExpr>, to: &mut Vec<MonStmt>) -> Result<(), AllocError>
    ensures { OnOk result (plain_stmts to.new.items ≡ before (plain_stmts to.old.items) (one (Exit (first_of (map plain_monitored args.items))))) }
{
    let e = take_first(alloc, &mut args)?;
    then(alloc, to, MonStmtKind::Exit(e))
}

// A call of a function of the library but printf, by its name.
#[tactic(auto, using(crate::proofs::Sequences::before_none))]
fn library_call(
    alloc: Global,
    into: Option<u32>,
    name: &[u8],
    args: Vec<MonExpr>,
    to: &mut Vec<MonStmt>,
) -> Result<(), AllocError>
    ensures { OnOk result (plain_stmts to.new.items ≡ before (plain_stmts to.old.items) (library_call into name.now (map plain_monitored args.items))) }
{
    if name == b"putchar".as_slice() {
        put_char(alloc, into, args, to)
    } else if name == b"getchar".as_slice() {
        then(alloc, to, MonStmtKind::GetChar(into))
    } else if name == b"exit".as_slice() {
        exit(alloc, args, to)
    } else if name == b"malloc".as_slice() {
        then(alloc, to, MonStmtKind::Act(into, MemoryCall::Malloc, args))
    } else if name == b"calloc".as_slice() {
        then(alloc, to, MonStmtKind::Act(into, MemoryCall::Calloc, args))
    } else if name == b"free".as_slice() {
        then(alloc, to, MonStmtKind::Act(into, MemoryCall::Free, args))
    } else {
        Ok(())
    }
}

// The same and printf, by its name and its arguments.
fn named_call(
    alloc: Global,
    names: &Registers<'_>,
    into: Option<u32>,
    called: (&[u8], &[Expr]),
    args: Vec<MonExpr>,
    to: &mut Vec<MonStmt>,
) -> Result<(), AllocError>
    ensures { OnOk result (plain_stmts to.new.items ≡ before (plain_stmts to.old.items)
        (named_call (plain_program names.now.program) into called.entry.0.now (plain_exprs called.entry.1.now) (map plain_monitored args.items))) }
{
    let (name, source) = called;
    if name == b"printf".as_slice() {
        print_call(alloc, names, source, args, to)
    } else {
        library_call(alloc, into, name, args, to)
    }
}

/// A call by its arguments and their values, and the register that takes its own.
pub fn call(
    alloc: Global,
    names: &Registers<'_>,
    into: Option<u32>,
    called: (Use, &[Expr]),
    args: Vec<MonExpr>,
    to: &mut Vec<MonStmt>,
) -> Result<(), AllocError>
    ensures { OnOk result (plain_stmts to.new.items ≡ before (plain_stmts to.old.items)
        (call (plain_program names.now.program) into called.entry.0 (plain_exprs called.entry.1.now) (map plain_monitored args.items))) }
{
    let (f, source) = called;
    if f.decl == Use::LIBRARY {
        named_call(
            alloc,
            names,
            into,
            (name_at(names.names(), f.name), source),
            args,
            to,
        )
    } else {
        let index = numbered(names.index_of(f.decl))?;
        then(alloc, to, MonStmtKind::Call(into, index, args))
    }
}
