//! The code of statements.

ghost use Rattle.std.specs.Prelude.{◌≡◌, ℕ, ◌+◌, ◌-◌, ◌≤◌, ◌<◌, List, ◌∷◌, ◌++◌, length, OnOk};
ghost use Rattle.mon_syntax.specs.Trees.{If, Labelled, Loop, plain_expr, plain_stmt, plain_stmts};
ghost use Rattle.c_lower.specs.declared.code.Instr.{Instr};
ghost use Rattle.c_lower.specs.declared.code.Instr.TheVariants as instr;
ghost use Rattle.c_lower.specs.Code.{expression_code, statement_code, statements_code};
ghost use Rattle.c_lower.specs.Labels.{open_labels};

use crate::backward::Backward;
use crate::code::Instr;
use crate::expressions::{emit_expression, emit_operand};
use crate::labels::Labels;
use crate::simple::{
    emit_act, emit_assert, emit_call, emit_get_char, emit_goto, emit_put_char, emit_return,
    emit_store, emit_text,
};
use mon_syntax::{MonExpr, MonStmt, MonStmtKind};
use std::alloc::AllocError;

// A jump after what was written since so many instructions stood.
fn pass_since(code: &mut Backward, since: usize) -> Result<(), AllocError>
    requires { since ≤ length code.old }
    ensures { OnOk result (code.new ≡ instr.GoOn (length code.old - since) ∷ code.old) }
{
    code.put(Instr::GoOn(code.len() - since))
}

// The test of a choice: where it is 0 what was written since is passed, and one instruction more.
fn emit_test(code: &mut Backward, e: &MonExpr, since: usize) -> Result<(), AllocError>
    requires { (0 < since) × (since ≤ length code.old) }
    ensures { OnOk result (code.new ≡ expression_code (plain_expr e.now) ++ instr.SkipIfZero (length code.old - since + 1) ∷ code.old) }
{
    code.put(Instr::SkipIfZero(code.len() - since + 1))?;
    emit_expression(code, e)
}

// A loop around what was written: the jump back has so many instructions after it, and what stands before the step as many as `middle`.
fn close_loop(code: &mut Backward, end: usize, middle: usize) -> Result<(), AllocError>
    requires { (end < middle) × (middle ≤ length code.old) }
    ensures { (front back : List Instr) (x : Instr) → code.old ≡ front ++ x ∷ back → end ≡ length back
        → OnOk result (code.new ≡ instr.GoOn (length code.old - middle + 1) ∷ (instr.Step ∷ (front ++ instr.GoBack (length code.old - end) ∷ back))) }
{
    let behind = code.len() - middle;
    code.patch(end, Instr::GoBack(code.len() - end));
    code.put(Instr::Step)?;
    code.put(Instr::GoOn(behind + 1))
}

// The code of a choice: the second branch, the jump after it, the first branch, and the test.
#[cycle(statement)]
fn emit_choice(
    code: &mut Backward,
    e: &MonExpr,
    first: &[MonStmt],
    second: &[MonStmt],
    labels: &Labels<'_>,
) -> Result<(), AllocError>
    ensures { OnOk result (code.new ≡ statement_code (If (plain_expr e.now) (plain_stmts first.now) (plain_stmts second.now)) (length code.old)
        (open_labels labels.now) ++ code.old) }
{
    let end = code.len();
    emit_statements(code, second, labels)?;
    pass_since(code, end)?;
    let middle = code.len();
    emit_statements(code, first, labels)?;
    emit_test(code, e, middle)
}

// The code of a loop: the jump back, what stands before the step, and what stands after it.
#[cycle(statement)]
fn emit_loop(
    code: &mut Backward,
    before: &[MonStmt],
    behind: &[MonStmt],
    labels: &Labels<'_>,
) -> Result<(), AllocError>
    ensures { OnOk result (code.new ≡ statement_code (Loop (plain_stmts before.now) (plain_stmts behind.now)) (length code.old) (open_labels labels.now)
        ++ code.old) }
{
    let end = code.len();
    code.put(Instr::GoBack(0))?;
    emit_statements(code, before, labels)?;
    let middle = code.len();
    emit_statements(code, behind, labels)?;
    close_loop(code, end, middle)
}

// The code of a body with a label after its end.
#[cycle(statement)]
fn emit_labelled(
    code: &mut Backward,
    body: &[MonStmt],
    label: &[u8],
    labels: &Labels<'_>,
) -> Result<(), AllocError>
    ensures { OnOk result (code.new ≡ statement_code (Labelled (plain_stmts body.now) label.now) (length code.old) (open_labels labels.now) ++ code.old) }
{
    let inside = Labels::Inside(&*labels, label, code.len());
    emit_statements(code, body, &inside)
}

/// Writes the code of a statement, in bodies with these labels.
#[cycle(statement)]
fn emit_statement(code: &mut Backward, s: &MonStmt, labels: &Labels<'_>) -> Result<(), AllocError>
    ensures { OnOk result (code.new ≡ statement_code (plain_stmt s.now) (length code.old) (open_labels labels.now) ++ code.old) }
{
    match &*s.kind {
        MonStmtKind::Set(r, e) => emit_operand(code, e, Instr::Put(*r)),
        MonStmtKind::Store(r, t, e) => emit_store(code, *r, *t, e),
        MonStmtKind::Step => code.put(Instr::Step),
        MonStmtKind::Assert(d, v, number, line, kind) => {
            emit_assert(code, d, v, *number, *line, *kind)
        }
        MonStmtKind::PutChar(r, e) => emit_put_char(code, *r, e),
        MonStmtKind::GetChar(r) => emit_get_char(code, *r),
        MonStmtKind::Exit(e) => emit_operand(code, e, Instr::Exit),
        MonStmtKind::PrintText(text) => emit_text(code, text.bytes()),
        MonStmtKind::PrintSigned(e) | MonStmtKind::PrintUnsigned(e) => {
            emit_operand(code, e, Instr::PutNumber)
        }
        MonStmtKind::PrintString(e) => emit_operand(code, e, Instr::PutString),
        MonStmtKind::Act(r, f, args) => emit_act(code, *r, *f, args),
        MonStmtKind::Call(r, f, args) => emit_call(code, *r, *f, args),
        MonStmtKind::If(e, a, b) => emit_choice(code, e, a, b, labels),
        MonStmtKind::Loop(before, behind) => emit_loop(code, before, behind, labels),
        MonStmtKind::Labelled(body, label) => emit_labelled(code, body, label.bytes(), labels),
        MonStmtKind::Goto(label) => emit_goto(code, label.bytes(), labels),
        MonStmtKind::Return(e) => emit_return(code, e),
    }
}

/// Writes the code of statements, which come one after another.
#[cycle(statement)]
pub fn emit_statements(
    code: &mut Backward,
    stmts: &[MonStmt],
    labels: &Labels<'_>,
) -> Result<(), AllocError>
    ensures { OnOk result (code.new ≡ statements_code (plain_stmts stmts.now) (length code.old) (open_labels labels.now) ++ code.old) }
{
    let mut left = stmts.len();
    while left > 0 {
        left -= 1;
        emit_statement(code, &stmts[left], labels)?;
    }
    Ok(())
}
