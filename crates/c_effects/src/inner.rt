//! Members of objects that are assigned to, also of a struct that was assigned and behind a comma.

ghost use Rattle.std.specs.Prelude.{◌≡◌, IfOk, OnOk, map};
ghost use Rattle.c_syntax.specs.Expressions.{plain_expr};
ghost use Rattle.c_syntax.specs.Programs.{plain_layout};
ghost use Rattle.mon_syntax.specs.Registers.{next_register};
ghost use Rattle.mon_syntax.specs.Trees.{plain_expr as plain_monitored, plain_stmts, Register};
ghost use Rattle.c_effects.specs.Expressions.{before};
ghost use Rattle.c_effects.specs.Full.{inner_offset, is_inner, member_register, member_setup, member_type, stepped};
ghost use Rattle.c_effects.specs.Named.{unit_of, with_registers};

use crate::operator::{farther, register};
use crate::part::then;
use crate::slot::{Part, farther_by};
use c_syntax::layout::{offset_in_target, offset_of_member};
use c_syntax::{Expr, ExprKind, Layout};
use mon_syntax::{MonExpr, MonStmt, MonStmtKind, MonType, Registers};
use std::alloc::{AllocError, Global};

/// Whether an expression is a member of an object.
pub fn is_inner(e: &Expr) -> bool
    ensures { result ≡ is_inner (plain_expr e.now) }
{
    match &*e.kind {
        ExprKind::Dot(_, _) | ExprKind::Arrow(_, _) => true,
        ExprKind::Assign(_, a, _) => is_inner(a),
        ExprKind::Comma(_, b) => is_inner(b),
        ExprKind::Number(_, _)
        | ExprKind::Letter(_)
        | ExprKind::Variable(_)
        | ExprKind::Unary(_, _)
        | ExprKind::Binary(_, _, _)
        | ExprKind::Both(_, _)
        | ExprKind::Either(_, _)
        | ExprKind::Choice(_, _, _)
        | ExprKind::Bump(_, _)
        | ExprKind::Call(_, _)
        | ExprKind::Cast(_, _)
        | ExprKind::SizeOfType(_)
        | ExprKind::SizeOfExpr(_)
        | ExprKind::Text(_)
        | ExprKind::Index(_, _) => false,
    }
}

// How many bytes from the start of its object it stands.
fn inner_offset(structs: &[Layout], e: &Expr) -> Result<u64, AllocError>
    ensures { IfOk result (λ n. n ≡ inner_offset (map plain_layout structs.now) (plain_expr e.now)) }
{
    match &*e.kind {
        ExprKind::Dot(a, m) => {
            let distance = u64::from(offset_of_member(structs, &a.ctype, *m));
            farther_by(inner_offset(structs, a)?, distance)
        }
        ExprKind::Arrow(a, m) => Ok(u64::from(offset_in_target(structs, &a.ctype, *m))),
        ExprKind::Assign(_, a, _) => inner_offset(structs, a),
        ExprKind::Comma(_, b) => inner_offset(structs, b),
        ExprKind::Number(_, _)
        | ExprKind::Letter(_)
        | ExprKind::Variable(_)
        | ExprKind::Unary(_, _)
        | ExprKind::Binary(_, _, _)
        | ExprKind::Both(_, _)
        | ExprKind::Either(_, _)
        | ExprKind::Choice(_, _, _)
        | ExprKind::Bump(_, _)
        | ExprKind::Call(_, _)
        | ExprKind::Cast(_, _)
        | ExprKind::SizeOfType(_)
        | ExprKind::SizeOfExpr(_)
        | ExprKind::Text(_)
        | ExprKind::Index(_, _) => Ok(0),
    }
}

/// What an expression designates, where the register points to the object in which it stands.
pub fn inner_part(structs: &[Layout], object: u32, e: &Expr) -> Result<Part, AllocError>
    ensures register { IfOk result (λ p. p.object ≡ object) }
    ensures offset { IfOk result (λ p. p.offset ≡ inner_offset (map plain_layout structs.now) (plain_expr e.now)) }
{
    let offset = inner_offset(structs, e)?;
    Ok(Part { object, offset })
}

/// The pointer to what is designated, from the register that points to the object in which it stands.
pub fn stepped(
    alloc: Global,
    structs: &[Layout],
    e: &Expr,
    object: u32,
) -> Result<MonExpr, AllocError>
    ensures { IfOk result (λ m. plain_monitored m ≡ stepped (map plain_layout structs.now) (plain_expr e.now) (Register object)) }
{
    let start = register(alloc, object)?;
    if is_inner(e) {
        farther(alloc, start, inner_offset(structs, e)?)
    } else {
        Ok(start)
    }
}

/// The register that points to what is stored: a further one for a member of the object to which the first one points,
/// or else the first one.
#[tactic(auto, using(crate::proofs::Sequences::before_none))]
pub fn member_in(
    alloc: Global,
    object: u32,
    e: &Expr,
    names: &mut Registers<'_>,
    to: &mut Vec<MonStmt>,
) -> Result<u32, AllocError>
    ensures register { IfOk result (λ r. r ≡ member_register object (next_register names.old.table) (plain_expr e.now)) }
    ensures setup { OnOk result (plain_stmts to.new.items ≡ before (plain_stmts to.old.items)
        (member_setup (unit_of names.old).structs object (next_register names.old.table) (plain_expr e.now))) }
    ensures names { OnOk result (names.new ≡ with_registers (member_type (plain_expr e.now)) names.old) }
{
    if is_inner(e) {
        let pointer = stepped(alloc, names.layouts(), e, object)?;
        let number = names.fresh(MonType::Ptr)?;
        then(alloc, to, MonStmtKind::Set(number, pointer))?;
        Ok(number)
    } else {
        Ok(object)
    }
}
