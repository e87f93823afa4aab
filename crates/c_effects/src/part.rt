//! Statements after those that are there.

ghost use Rattle.std.specs.Prelude.{◌≡◌, IfOk, OnOk};
ghost use Rattle.mon_syntax.specs.Trees.{If, Register, plain_expr, plain_stmt_kind, plain_stmts};
ghost use Rattle.c_effects.specs.Expressions.{before, one, set};

use crate::operator::register;
use mon_syntax::{MonExpr, MonStmt, MonStmtKind};
use std::alloc::{AllocError, Global};

/// Puts one statement after the others.
#[tactic(auto, using(crate::proofs::Sequences::stmts_push))]
pub fn then(alloc: Global, to: &mut Vec<MonStmt>, kind: MonStmtKind) -> Result<(), AllocError>
    ensures { OnOk result (plain_stmts to.new.items ≡ before (plain_stmts to.old.items) (one (plain_stmt_kind kind))) }
{
    to.push(MonStmt::new(alloc, kind)?)?;
    Ok(())
}

/// Puts these statements after the others.
#[tactic(auto, using(crate::proofs::Sequences::stmts_append))]
pub fn then_all(to: &mut Vec<MonStmt>, mut code: Vec<MonStmt>) -> Result<(), AllocError>
    ensures { OnOk result (plain_stmts to.new.items ≡ before (plain_stmts to.old.items) (plain_stmts code.items)) }
{
    to.append(&mut code)
}

/// The one statement alone.
pub fn alone(alloc: Global, kind: MonStmtKind) -> Result<Vec<MonStmt>, AllocError>
    ensures { IfOk result (λ code. plain_stmts code.items ≡ one (plain_stmt_kind kind)) }
{
    let mut code = Vec::new(alloc);
    then(alloc, &mut code, kind)?;
    Ok(code)
}

/// Sets a register in both parts of an `if`, after the statements of each part, and gives its value.
#[tactic(auto, using(mon_syntax::proofs::Rows::if_is))]
pub fn choose(
    alloc: Global,
    number: u32,
    test: MonExpr,
    first: (Vec<MonStmt>, MonExpr),
    second: (Vec<MonStmt>, MonExpr),
    to: &mut Vec<MonStmt>,
) -> Result<MonExpr, AllocError>
    ensures value { IfOk result (λ m. plain_expr m ≡ Register number) }
    ensures setup { OnOk result (plain_stmts to.new.items ≡ before (plain_stmts to.old.items)
        (one (If (plain_expr test) (before (plain_stmts first.0.items) (set number (plain_expr first.1)))
        (before (plain_stmts second.0.items) (set number (plain_expr second.1)))))) }
{
    let (mut on, value) = first;
    then(alloc, &mut on, MonStmtKind::Set(number, value))?;
    let (mut off, value) = second;
    then(alloc, &mut off, MonStmtKind::Set(number, value))?;
    then(alloc, to, MonStmtKind::If(test, on, off))?;
    register(alloc, number)
}
