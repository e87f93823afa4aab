//! The loop that goes through values, upward.

ghost use Rattle.std.specs.Prelude.{◌≡◌, IfOk, pos};
ghost use Rattle.mon_syntax.specs.declared.tree.MonOp.TheVariants.{Add, Eq, Le};
ghost use Rattle.mon_syntax.specs.Trees.{If, NoStatement, plain_expr, plain_stmt, plain_stmts};
ghost use Rattle.mon_syntax.specs.Trees.{Binary, Constant, Goto, Register};
ghost use Rattle.c_effects.specs.Expressions.{one, set};
ghost use Rattle.quantifier_loops.specs.Upward.{tried_label, turn_end, upward};

use c_effects::copy::copy_of;
use c_effects::operator::{constant, operation, register};
use c_effects::part::{alone, then, then_all};
use c_syntax::Name;
use mon_syntax::{MonExpr, MonOp, MonStmt, MonStmtKind, MonType};
use std::alloc::{AllocError, Global};

// `tried_7`: the end of the loop whose index is this register.
fn tried_label(alloc: Global, index: u32) -> Result<Name, AllocError>
    ensures { IfOk result (λ bytes. bytes ≡ tried_label index) }
{
    let number = index as usize;
    let digits = format!(in alloc; "{number}")?;
    let mut bytes = Vec::from_slice(alloc, b"tried_")?;
    bytes.extend_from_slice(digits.as_bytes())?;
    Ok(Name::new(bytes))
}

// The statement that leaves the loop.
fn leave(alloc: Global, index: u32) -> Result<Vec<MonStmt>, AllocError>
    ensures { IfOk result (λ v. plain_stmts v.items ≡ one (Goto (tried_label index))) }
{
    let label = tried_label(alloc, index)?;
    alone(alloc, MonStmtKind::Goto(label))
}

// The loop ends where this is true.
#[tactic(auto, using(mon_syntax::proofs::Rows::if_is))]
fn leave_where(alloc: Global, test: MonExpr, index: u32) -> Result<Vec<MonStmt>, AllocError>
    ensures { IfOk result (λ v. plain_stmts v.items ≡ one (If (plain_expr test) (one (Goto (tried_label index))) NoStatement)) }
{
    let leave = leave(alloc, index)?;
    alone(alloc, MonStmtKind::If(test, leave, Vec::new(alloc)))
}

// The index compared with the last value.
fn compared(
    alloc: Global,
    op: MonOp,
    kind: MonType,
    index: u32,
    to: &MonExpr,
) -> Result<MonExpr, AllocError>
    ensures { IfOk result (λ e. plain_expr e ≡ Binary op kind (Register index) (plain_expr to.now)) }
{
    let value = register(alloc, index)?;
    let last = copy_of(alloc, to)?;
    operation(alloc, op, kind, value, last)
}

// The next value in the index.
fn go_on(alloc: Global, kind: MonType, index: u32) -> Result<Vec<MonStmt>, AllocError>
    ensures { IfOk result (λ v. plain_stmts v.items ≡ set index (Binary Add kind (Register index) (Constant kind (pos 1)))) }
{
    let value = register(alloc, index)?;
    let one = constant(alloc, kind, 1)?;
    let next = operation(alloc, MonOp::Add, kind, value, one)?;
    alone(alloc, MonStmtKind::Set(index, next))
}

// The end of a turn.
fn end_turn(
    alloc: Global,
    kind: MonType,
    index: u32,
    to: &MonExpr,
    stop: u32,
) -> Result<Vec<MonStmt>, AllocError>
    ensures { IfOk result (λ v. plain_stmts v.items ≡ turn_end kind index (plain_expr to.now) stop) }
{
    let said = register(alloc, stop)?;
    let mut end = leave_where(alloc, said, index)?;
    let is_last = compared(alloc, MonOp::Eq, kind, index, to)?;
    then_all(&mut end, leave_where(alloc, is_last, index)?)?;
    then_all(&mut end, go_on(alloc, kind, index)?)?;
    Ok(end)
}

// The loop is left where no value stands between both bounds.
#[tactic(auto, using(mon_syntax::proofs::Rows::if_is))]
fn leave_unless(alloc: Global, test: MonExpr, index: u32) -> Result<Vec<MonStmt>, AllocError>
    ensures { IfOk result (λ v. plain_stmts v.items ≡ one (If (plain_expr test) NoStatement (one (Goto (tried_label index))))) }
{
    let leave = leave(alloc, index)?;
    alone(alloc, MonStmtKind::If(test, Vec::new(alloc), leave))
}

/// The loop whose index goes from one value of the type to another: in each turn it does the inner statements, and it ends before that where
/// the register `stop` isn't 0 behind them.
#[tactic(auto, using(mon_syntax::proofs::Rows::labelled_is, mon_syntax::proofs::Rows::loop_is))]
pub fn upward(
    alloc: Global,
    kind: MonType,
    index: u32,
    bounds: (MonExpr, MonExpr),
    inner: Vec<MonStmt>,
    stop: u32,
) -> Result<MonStmt, AllocError>
    ensures { IfOk result (λ s. plain_stmt s
        ≡ upward kind index (plain_expr bounds.0) (plain_expr bounds.1) (plain_stmts inner.items) stop) }
{
    let (from, to) = bounds;
    let mut body = alone(alloc, MonStmtKind::Set(index, from))?;
    let some = compared(alloc, MonOp::Le, kind, index, &to)?;
    then_all(&mut body, leave_unless(alloc, some, index)?)?;
    let mut turn = inner;
    then_all(&mut turn, end_turn(alloc, kind, index, &to, stop)?)?;
    then(alloc, &mut body, MonStmtKind::Loop(Vec::new(alloc), turn))?;
    let label = tried_label(alloc, index)?;
    MonStmt::new(alloc, MonStmtKind::Labelled(body, label))
}
