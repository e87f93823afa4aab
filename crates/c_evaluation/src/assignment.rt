//! Assignments and increments (C99 6.5.2.4, 6.5.3.1, 6.5.16): the object, the right side, the member, and the store.

ghost use Rattle.std.specs.Prelude.{◌≡◌, ◌++◌, ◌∷◌, [], IfOk, None, OnOk, Some, length, pos};
ghost use Rattle.c_syntax.specs.Ctypes.{int_type, plain_type};
ghost use Rattle.c_syntax.specs.Expressions.{plain_expr};
ghost use Rattle.c_model.specs.Meaning.{bump_operator};
ghost use Rattle.mon_syntax.specs.declared.tree.MonType.TheVariants.{I32, Ptr};
ghost use Rattle.mon_syntax.specs.Registers.{next_register};
ghost use Rattle.mon_syntax.specs.Trees.{Constant, plain_expr as plain_monitored, plain_stmts};
ghost use Rattle.c_effects.specs.Expressions.{before, compound, set, value_type};
ghost use Rattle.c_effects.specs.Full.{act_takes, kept_types, kept_value, object_takes, stored, takes};
ghost use Rattle.c_effects.specs.Letters.{ActHasLetters, ValueHasLetters};
ghost use Rattle.c_evaluation.specs.Evaluated.{act_by, location_by, object_by, object_setup_by, origin_by};
ghost use Rattle.c_evaluation.specs.Evaluated.{prepare_by, result_by};
ghost use Rattle.c_evaluation.specs.Ready.{bump_new, bump_setup, bump_types, change_new, change_part, change_setup, change_types, early_new};
ghost use Rattle.c_evaluation.specs.Ready.{early_setup, early_types, late_new, objects_assigned, old_part, old_register, old_taken, old_types};
ghost use Rattle.c_evaluation.specs.Ready.{right_new, right_part, right_setup, right_types};
ghost use Rattle.c_effects.specs.Named.{unit_of, with_registers};
ghost use Rattle.c_effects.specs.Objects.{assign_of, bump_of};

use crate::evaluation::{in_register, kept, origin, value};
use c_conversions::conversion::is_scalar;
use c_effects::conversion::value_type;
use c_effects::copy::copy_of;
use c_effects::inner::{inner_part, member_in, stepped};
use c_effects::leaf::direct;
use c_effects::object::{current, store};
use c_effects::operator::{compound, constant, register};
use c_effects::scalars::copy_all;
use c_effects::settled::{bump_operator, gives_old, is_pure, is_settled};
use c_syntax::{BinOp, BumpOp, CInt, CType, Expr};
use mon_syntax::{MonExpr, MonStmt, MonType, Registers};
use std::alloc::{AllocError, Global};

/// What is ready to be stored: the register of the object, that of the part of it to which the value is stored, and the
/// value.
#[derive(Drop)]
pub struct Ready {
    pub object: u32,
    pub part: u32,
    pub value: MonExpr,
}

/// The part of an object whose old value is in a register.
#[derive(Clone, Copy)]
pub struct Old {
    pub object: u32,
    pub part: u32,
    pub value: u32,
}

// The register that points to the object in which an expression designates a part, or else to its object.
#[cycle(evaluation)]
fn pointing(
    alloc: Global,
    e: &Expr,
    names: &mut Registers<'_>,
    to: &mut Vec<MonStmt>,
) -> Result<u32, AllocError>
    ensures register { IfOk result (λ r. r ≡ length (names.old.table.kinds ++ takes (unit_of names.old) (plain_expr e.now))) }
    ensures setup { OnOk result (plain_stmts to.new.items ≡ before (plain_stmts to.old.items) (before (prepare_by names.old (plain_expr e.now))
        (set (length (names.old.table.kinds ++ takes (unit_of names.old) (plain_expr e.now))) (origin_by names.old (plain_expr e.now))))) }
    ensures names { OnOk result (names.new ≡ with_registers (takes (unit_of names.old) (plain_expr e.now) ++ Ptr ∷ []) names.old) }
    ensures letters { OnOk result (ValueHasLetters (plain_expr e.now)) }
{
    let object = origin(alloc, e, names, to)?;
    in_register(alloc, MonType::Ptr, object, names, to)
}

// The register that points to the object that an expression designates, or to the one in which it is a member: that of
// a variable's block, or a further one.
#[cycle(evaluation)]
#[tactic(auto, using(c_effects::proofs::Sequences::before_none))]
fn object(
    alloc: Global,
    e: &Expr,
    names: &mut Registers<'_>,
    to: &mut Vec<MonStmt>,
) -> Result<u32, AllocError>
    ensures register { IfOk result (λ r. r ≡ object_by names.old (plain_expr e.now)) }
    ensures setup { OnOk result (plain_stmts to.new.items ≡ before (plain_stmts to.old.items) (object_setup_by names.old (plain_expr e.now))) }
    ensures names { OnOk result (names.new ≡ with_registers (object_takes (unit_of names.old) (plain_expr e.now)) names.old) }
    ensures letters { OnOk result (ValueHasLetters (plain_expr e.now)) }
{
    match direct(names, e) {
        Some(register) => Ok(register),
        None => pointing(alloc, e, names, to),
    }
}

// An object and the value of a right side, and then the part of the object that is a member.
#[cycle(evaluation)]
fn right_ready(
    alloc: Global,
    left: &Expr,
    e: &Expr,
    names: &mut Registers<'_>,
    to: &mut Vec<MonStmt>,
) -> Result<Ready, AllocError>
    ensures object { IfOk result (λ r. r.object ≡ object_by names.old (plain_expr left.now)) }
    ensures part { IfOk result (λ r. r.part ≡ right_part names.old (plain_expr left.now) (plain_expr e.now)) }
    ensures value { IfOk result (λ r. plain_monitored r.value ≡ right_new names.old (plain_expr left.now) (plain_expr e.now)) }
    ensures setup { OnOk result (plain_stmts to.new.items ≡ before (plain_stmts to.old.items)
        (right_setup names.old (plain_expr left.now) (plain_expr e.now))) }
    ensures names { OnOk result (names.new ≡ with_registers (right_types names.old (plain_expr left.now) (plain_expr e.now)) names.old) }
    ensures letters { OnOk result (ValueHasLetters (plain_expr left.now) × ValueHasLetters (plain_expr e.now)) }
{
    let object = object(alloc, left, names, to)?;
    let right = value(alloc, e, names, to)?;
    let part = member_in(alloc, object, left, names, to)?;
    Ok(Ready {
        object,
        part,
        value: right,
    })
}

// What is changed, with its old value in a register.
#[cycle(evaluation)]
fn old_ready(
    alloc: Global,
    left: (&Expr, &CType),
    names: &mut Registers<'_>,
    to: &mut Vec<MonStmt>,
) -> Result<Old, AllocError>
    ensures object { IfOk result (λ r. r.object ≡ object_by names.old (plain_expr left.entry.0.now)) }
    ensures part { IfOk result (λ r. r.part ≡ old_part names.old (plain_expr left.entry.0.now)) }
    ensures value { IfOk result (λ r. r.value ≡ old_register names.old (plain_expr left.entry.0.now)) }
    ensures setup { OnOk result (plain_stmts to.new.items ≡ before (plain_stmts to.old.items)
        (old_taken names.old (plain_type left.entry.1.now) (plain_expr left.entry.0.now))) }
    ensures names { OnOk result (names.new ≡ with_registers (old_types names.old (plain_type left.entry.1.now) (plain_expr left.entry.0.now)) names.old) }
    ensures letters { OnOk result (ValueHasLetters (plain_expr left.entry.0.now)) }
{
    let (left, t) = left;
    let object = object(alloc, left, names, to)?;
    let part = member_in(alloc, object, left, names, to)?;
    let old = current(alloc, part, t)?;
    let value = in_register(alloc, value_type(t), old, names, to)?;
    Ok(Old {
        object,
        part,
        value,
    })
}

// `a op= b`, of which the left side is read after a right side without effects, and else before it.
#[cycle(evaluation)]
fn change_ready(
    alloc: Global,
    op: BinOp,
    left: (&Expr, &CType),
    e: &Expr,
    names: &mut Registers<'_>,
    to: &mut Vec<MonStmt>,
) -> Result<Ready, AllocError>
    ensures object { IfOk result (λ r. r.object ≡ object_by names.old (plain_expr left.entry.0.now)) }
    ensures part { IfOk result (λ r. r.part ≡ change_part names.old (plain_expr left.entry.0.now) (plain_expr e.now)) }
    ensures value { IfOk result (λ r. plain_monitored r.value ≡ change_new names.old op (plain_type left.entry.1.now) (plain_expr left.entry.0.now)
        (plain_expr e.now)) }
    ensures setup { OnOk result (plain_stmts to.new.items ≡ before (plain_stmts to.old.items)
        (change_setup names.old (plain_type left.entry.1.now) (plain_expr left.entry.0.now) (plain_expr e.now))) }
    ensures names { OnOk result (names.new ≡ with_registers (change_types names.old (plain_type left.entry.1.now) (plain_expr left.entry.0.now)
        (plain_expr e.now)) names.old) }
    ensures letters { OnOk result (ValueHasLetters (plain_expr left.entry.0.now) × ValueHasLetters (plain_expr e.now)) }
{
    if is_pure(e) {
        read_after(alloc, op, left, e, names, to)
    } else {
        read_before(alloc, op, left, e, names, to)
    }
}

// The left side is read after the right one.
#[cycle(evaluation)]
fn read_after(
    alloc: Global,
    op: BinOp,
    left: (&Expr, &CType),
    e: &Expr,
    names: &mut Registers<'_>,
    to: &mut Vec<MonStmt>,
) -> Result<Ready, AllocError>
    ensures object { IfOk result (λ r. r.object ≡ object_by names.old (plain_expr left.entry.0.now)) }
    ensures part { IfOk result (λ r. r.part ≡ right_part names.old (plain_expr left.entry.0.now) (plain_expr e.now)) }
    ensures value { IfOk result (λ r. plain_monitored r.value ≡ late_new names.old op (plain_type left.entry.1.now) (plain_expr left.entry.0.now)
        (plain_expr e.now)) }
    ensures setup { OnOk result (plain_stmts to.new.items ≡ before (plain_stmts to.old.items)
        (right_setup names.old (plain_expr left.entry.0.now) (plain_expr e.now))) }
    ensures names { OnOk result (names.new ≡ with_registers (right_types names.old (plain_expr left.entry.0.now) (plain_expr e.now)) names.old) }
    ensures letters { OnOk result (ValueHasLetters (plain_expr left.entry.0.now) × ValueHasLetters (plain_expr e.now)) }
{
    let (left, t) = left;
    let ready = right_ready(alloc, left, e, names, to)?;
    let Ready {
        object,
        part,
        value: right,
    } = ready;
    let old = current(alloc, part, t)?;
    let new = compound(alloc, names.layouts(), op, (t, &e.ctype), old, right)?;
    Ok(Ready {
        object,
        part,
        value: new,
    })
}

// The left side is read into a register before the right one.
#[cycle(evaluation)]
fn read_before(
    alloc: Global,
    op: BinOp,
    left: (&Expr, &CType),
    e: &Expr,
    names: &mut Registers<'_>,
    to: &mut Vec<MonStmt>,
) -> Result<Ready, AllocError>
    ensures object { IfOk result (λ r. r.object ≡ object_by names.old (plain_expr left.entry.0.now)) }
    ensures part { IfOk result (λ r. r.part ≡ old_part names.old (plain_expr left.entry.0.now)) }
    ensures value { IfOk result (λ r. plain_monitored r.value ≡ early_new names.old op (plain_type left.entry.1.now) (plain_expr left.entry.0.now)
        (plain_expr e.now)) }
    ensures setup { OnOk result (plain_stmts to.new.items ≡ before (plain_stmts to.old.items)
        (early_setup names.old (plain_type left.entry.1.now) (plain_expr left.entry.0.now) (plain_expr e.now))) }
    ensures names { OnOk result (names.new ≡ with_registers (early_types names.old (plain_type left.entry.1.now) (plain_expr left.entry.0.now)
        (plain_expr e.now)) names.old) }
    ensures letters { OnOk result (ValueHasLetters (plain_expr left.entry.0.now) × ValueHasLetters (plain_expr e.now)) }
{
    let taken = old_ready(alloc, left, names, to)?;
    let right = value(alloc, e, names, to)?;
    let old = register(alloc, taken.value)?;
    let new = compound(alloc, names.layouts(), op, (left.1, &e.ctype), old, right)?;
    Ok(Ready {
        object: taken.object,
        part: taken.part,
        value: new,
    })
}

// `++` and `--`, of which the old value isn't given.
#[cycle(evaluation)]
fn bump_ready(
    alloc: Global,
    op: BumpOp,
    left: (&Expr, &CType),
    names: &mut Registers<'_>,
    to: &mut Vec<MonStmt>,
) -> Result<Ready, AllocError>
    ensures object { IfOk result (λ r. r.object ≡ object_by names.old (plain_expr left.entry.0.now)) }
    ensures part { IfOk result (λ r. r.part ≡ old_part names.old (plain_expr left.entry.0.now)) }
    ensures value { IfOk result (λ r. plain_monitored r.value ≡ bump_new names.old op (plain_type left.entry.1.now) (plain_expr left.entry.0.now)) }
    ensures setup { OnOk result (plain_stmts to.new.items ≡ before (plain_stmts to.old.items) (bump_setup names.old (plain_expr left.entry.0.now))) }
    ensures names { OnOk result (names.new ≡ with_registers (bump_types names.old (plain_expr left.entry.0.now)) names.old) }
    ensures letters { OnOk result (ValueHasLetters (plain_expr left.entry.0.now)) }
{
    let (left, t) = left;
    let object = object(alloc, left, names, to)?;
    let part = member_in(alloc, object, left, names, to)?;
    let old = current(alloc, part, t)?;
    let new = stepped_by(alloc, names, op, t, old)?;
    Ok(Ready {
        object,
        part,
        value: new,
    })
}

// One more, or one less.
fn stepped_by(
    alloc: Global,
    names: &Registers<'_>,
    op: BumpOp,
    t: &CType,
    old: MonExpr,
) -> Result<MonExpr, AllocError>
    ensures { IfOk result (λ m. plain_monitored m ≡ compound (unit_of names.now).structs (bump_operator op) (plain_type t.now) int_type (plain_monitored old)
        (Constant I32 (pos 1))) }
{
    let one = constant(alloc, MonType::I32, 1)?;
    let types = (t, &CType::Int(CInt::I32));
    compound(alloc, names.layouts(), bump_operator(op), types, old, one)
}

// Stores what is ready, and gives the value again, which is kept in a register if a later effect may change it.
#[tactic(auto, using(c_effects::proofs::Sequences::before_assoc))]
fn store_kept(
    alloc: Global,
    keep: bool,
    ready: Ready,
    t: &CType,
    names: &mut Registers<'_>,
    to: &mut Vec<MonStmt>,
) -> Result<MonExpr, AllocError>
    ensures value { IfOk result (λ m. plain_monitored m ≡ kept_value keep (next_register names.old.table) (plain_monitored ready.value)) }
    ensures setup { OnOk result (plain_stmts to.new.items ≡ stored keep (next_register names.old.table) ready.part (plain_type t.now)
        (plain_stmts to.old.items) (plain_monitored ready.value)) }
    ensures names { OnOk result (names.new ≡ with_registers (kept_types keep [] (value_type (plain_type t.now))) names.old) }
{
    let Ready { part, value, .. } = ready;
    let again = kept(alloc, keep, value, value_type(t), names, to)?;
    let new = copy_of(alloc, &again)?;
    store(alloc, part, t, new, to)?;
    Ok(again)
}

// Copies an object of this type, a struct, to another, and gives the register of that one.
#[cycle(evaluation)]
fn assign_object(
    alloc: Global,
    left: (&Expr, &CType),
    e: &Expr,
    names: &mut Registers<'_>,
    to: &mut Vec<MonStmt>,
) -> Result<u32, AllocError>
    ensures register { IfOk result (λ r. r ≡ object_by names.old (plain_expr left.entry.0.now)) }
    ensures setup { OnOk result (plain_stmts to.new.items ≡ before (plain_stmts to.old.items)
        (objects_assigned names.old (plain_type left.entry.1.now) (plain_expr left.entry.0.now) (plain_expr e.now))) }
    ensures names { OnOk result (names.new ≡ with_registers (object_takes (unit_of names.old) (plain_expr left.entry.0.now) ++ object_takes
        (unit_of names.old) (plain_expr e.now)) names.old) }
    ensures letters { OnOk result (ValueHasLetters (plain_expr left.entry.0.now) × ValueHasLetters (plain_expr e.now)) }
{
    let (left, t) = left;
    let place = object(alloc, left, names, to)?;
    let source = object(alloc, e, names, to)?;
    let layouts = names.layouts();
    let first = inner_part(layouts, place, left)?;
    let second = inner_part(layouts, source, e)?;
    copy_all(alloc, t, layouts, (first, second), to)?;
    Ok(place)
}

// An assignment, perhaps with an operator, to an object whose type this is: the register of the object, and the value.
#[cycle(evaluation)]
fn assigned(
    alloc: Global,
    op: Option<BinOp>,
    left: (&Expr, &CType),
    e: &Expr,
    names: &mut Registers<'_>,
    to: &mut Vec<MonStmt>,
) -> Result<(u32, MonExpr), AllocError>
    ensures object { IfOk result (λ r. r.0 ≡ object_by names.old (plain_expr left.entry.0.now)) }
    ensures value { IfOk result (λ r. plain_monitored r.1 ≡ result_by names.old (assign_of op left.entry.1.now left.entry.0.now e.now)) }
    ensures setup { OnOk result (plain_stmts to.new.items ≡ before (plain_stmts to.old.items)
        (prepare_by names.old (assign_of op left.entry.1.now left.entry.0.now e.now))) }
    ensures names { OnOk result (names.new ≡ with_registers (takes (unit_of names.old) (assign_of op left.entry.1.now left.entry.0.now e.now)) names.old) }
    ensures letters { OnOk result (ValueHasLetters (assign_of op left.entry.1.now left.entry.0.now e.now)) }
{
    match op {
        None => assign(alloc, left, e, names, to),
        Some(op) => change(alloc, op, left, e, names, to),
    }
}

/// The value of an assignment.
#[cycle(evaluation)]
pub fn assigned_value(
    alloc: Global,
    op: Option<BinOp>,
    left: (&Expr, &CType),
    e: &Expr,
    names: &mut Registers<'_>,
    to: &mut Vec<MonStmt>,
) -> Result<MonExpr, AllocError>
    ensures value { IfOk result (λ m. plain_monitored m ≡ result_by names.old (assign_of op left.entry.1.now left.entry.0.now e.now)) }
    ensures setup { OnOk result (plain_stmts to.new.items ≡ before (plain_stmts to.old.items)
        (prepare_by names.old (assign_of op left.entry.1.now left.entry.0.now e.now))) }
    ensures names { OnOk result (names.new ≡ with_registers (takes (unit_of names.old) (assign_of op left.entry.1.now left.entry.0.now e.now)) names.old) }
    ensures letters { OnOk result (ValueHasLetters (assign_of op left.entry.1.now left.entry.0.now e.now)) }
{
    let (_, value) = assigned(alloc, op, left, e, names, to)?;
    Ok(value)
}

/// The pointer to what was assigned.
#[cycle(evaluation)]
pub fn assigned_location(
    alloc: Global,
    op: Option<BinOp>,
    left: (&Expr, &CType),
    e: &Expr,
    names: &mut Registers<'_>,
    to: &mut Vec<MonStmt>,
) -> Result<MonExpr, AllocError>
    ensures value { IfOk result (λ m. plain_monitored m ≡ location_by names.old (assign_of op left.entry.1.now left.entry.0.now e.now)) }
    ensures setup { OnOk result (plain_stmts to.new.items ≡ before (plain_stmts to.old.items)
        (prepare_by names.old (assign_of op left.entry.1.now left.entry.0.now e.now))) }
    ensures names { OnOk result (names.new ≡ with_registers (takes (unit_of names.old) (assign_of op left.entry.1.now left.entry.0.now e.now)) names.old) }
    ensures letters { OnOk result (ValueHasLetters (assign_of op left.entry.1.now left.entry.0.now e.now)) }
{
    let (object, _) = assigned(alloc, op, left, e, names, to)?;
    stepped(alloc, names.layouts(), left.0, object)
}

/// The pointer to the object in which it stands.
#[cycle(evaluation)]
pub fn assigned_origin(
    alloc: Global,
    op: Option<BinOp>,
    left: (&Expr, &CType),
    e: &Expr,
    names: &mut Registers<'_>,
    to: &mut Vec<MonStmt>,
) -> Result<MonExpr, AllocError>
    ensures value { IfOk result (λ m. plain_monitored m ≡ origin_by names.old (assign_of op left.entry.1.now left.entry.0.now e.now)) }
    ensures setup { OnOk result (plain_stmts to.new.items ≡ before (plain_stmts to.old.items)
        (prepare_by names.old (assign_of op left.entry.1.now left.entry.0.now e.now))) }
    ensures names { OnOk result (names.new ≡ with_registers (takes (unit_of names.old) (assign_of op left.entry.1.now left.entry.0.now e.now)) names.old) }
    ensures letters { OnOk result (ValueHasLetters (assign_of op left.entry.1.now left.entry.0.now e.now)) }
{
    let (object, _) = assigned(alloc, op, left, e, names, to)?;
    register(alloc, object)
}

// `=` (C99 6.5.16.1).
#[cycle(evaluation)]
#[tactic(auto, using(c_effects::proofs::Sequences::before_assoc))]
fn assign(
    alloc: Global,
    left: (&Expr, &CType),
    e: &Expr,
    names: &mut Registers<'_>,
    to: &mut Vec<MonStmt>,
) -> Result<(u32, MonExpr), AllocError>
    ensures object { IfOk result (λ r. r.0 ≡ object_by names.old (plain_expr left.entry.0.now)) }
    ensures value { IfOk result (λ r. plain_monitored r.1 ≡ result_by names.old (assign_of None left.entry.1.now left.entry.0.now e.now)) }
    ensures setup { OnOk result (plain_stmts to.new.items ≡ before (plain_stmts to.old.items)
        (prepare_by names.old (assign_of None left.entry.1.now left.entry.0.now e.now))) }
    ensures names { OnOk result (names.new ≡ with_registers (takes (unit_of names.old) (assign_of None left.entry.1.now left.entry.0.now e.now)) names.old) }
    ensures letters { OnOk result (ValueHasLetters (assign_of None left.entry.1.now left.entry.0.now e.now)) }
{
    if is_scalar(left.1) {
        let ready = right_ready(alloc, left.0, e, names, to)?;
        let object = ready.object;
        let value = store_kept(alloc, !is_settled(e), ready, left.1, names, to)?;
        Ok((object, value))
    } else {
        let object = assign_object(alloc, left, e, names, to)?;
        let nothing = constant(alloc, MonType::I32, 0)?;
        Ok((object, nothing))
    }
}

// `op=` (C99 6.5.16.2).
#[cycle(evaluation)]
#[tactic(auto, using(c_effects::proofs::Sequences::before_assoc))]
fn change(
    alloc: Global,
    op: BinOp,
    left: (&Expr, &CType),
    e: &Expr,
    names: &mut Registers<'_>,
    to: &mut Vec<MonStmt>,
) -> Result<(u32, MonExpr), AllocError>
    ensures object { IfOk result (λ r. r.0 ≡ object_by names.old (plain_expr left.entry.0.now)) }
    ensures value { IfOk result (λ r. plain_monitored r.1 ≡ result_by names.old (assign_of (Some op) left.entry.1.now left.entry.0.now e.now)) }
    ensures setup { OnOk result (plain_stmts to.new.items ≡ before (plain_stmts to.old.items)
        (prepare_by names.old (assign_of (Some op) left.entry.1.now left.entry.0.now e.now))) }
    ensures names { OnOk result (names.new ≡ with_registers (takes (unit_of names.old) (assign_of
        (Some op) left.entry.1.now left.entry.0.now e.now)) names.old) }
    ensures letters { OnOk result (ValueHasLetters (assign_of (Some op) left.entry.1.now left.entry.0.now e.now)) }
{
    let ready = change_ready(alloc, op, left, e, names, to)?;
    let object = ready.object;
    let value = store_kept(alloc, true, ready, left.1, names, to)?;
    Ok((object, value))
}

/// The same for its effect alone.
#[cycle(evaluation)]
pub fn assign_alone(
    alloc: Global,
    op: Option<BinOp>,
    left: (&Expr, &CType),
    e: &Expr,
    names: &mut Registers<'_>,
    to: &mut Vec<MonStmt>,
) -> Result<(), AllocError>
    ensures setup { OnOk result (plain_stmts to.new.items ≡ before (plain_stmts to.old.items)
        (act_by names.old (assign_of op left.entry.1.now left.entry.0.now e.now))) }
    ensures names { OnOk result (names.new ≡ with_registers (act_takes (unit_of names.old) (assign_of op left.entry.1.now left.entry.0.now e.now)) names.old) }
    ensures letters { OnOk result (ActHasLetters (assign_of op left.entry.1.now left.entry.0.now e.now)) }
{
    match op {
        None => assign_only(alloc, left, e, names, to),
        Some(op) => change_only(alloc, op, left, e, names, to),
    }
}

// `op=` for its effect alone.
#[cycle(evaluation)]
#[tactic(auto, using(c_effects::proofs::Sequences::before_assoc))]
fn change_only(
    alloc: Global,
    op: BinOp,
    left: (&Expr, &CType),
    e: &Expr,
    names: &mut Registers<'_>,
    to: &mut Vec<MonStmt>,
) -> Result<(), AllocError>
    ensures setup { OnOk result (plain_stmts to.new.items ≡ before (plain_stmts to.old.items)
        (act_by names.old (assign_of (Some op) left.entry.1.now left.entry.0.now e.now))) }
    ensures names { OnOk result (names.new ≡ with_registers (act_takes (unit_of names.old) (assign_of
        (Some op) left.entry.1.now left.entry.0.now e.now)) names.old) }
    ensures letters { OnOk result (ActHasLetters (assign_of (Some op) left.entry.1.now left.entry.0.now e.now)) }
{
    let ready = change_ready(alloc, op, left, e, names, to)?;
    let Ready { part, value, .. } = ready;
    store(alloc, part, left.1, value, to)
}

// `=` for its effect alone.
#[cycle(evaluation)]
#[tactic(auto, using(c_effects::proofs::Sequences::before_assoc))]
fn assign_only(
    alloc: Global,
    left: (&Expr, &CType),
    e: &Expr,
    names: &mut Registers<'_>,
    to: &mut Vec<MonStmt>,
) -> Result<(), AllocError>
    ensures setup { OnOk result (plain_stmts to.new.items ≡ before (plain_stmts to.old.items)
        (act_by names.old (assign_of None left.entry.1.now left.entry.0.now e.now))) }
    ensures names { OnOk result (names.new ≡ with_registers (act_takes (unit_of names.old)
        (assign_of None left.entry.1.now left.entry.0.now e.now)) names.old) }
    ensures letters { OnOk result (ActHasLetters (assign_of None left.entry.1.now left.entry.0.now e.now)) }
{
    if is_scalar(left.1) {
        let ready = right_ready(alloc, left.0, e, names, to)?;
        let Ready { part, value, .. } = ready;
        store(alloc, part, left.1, value, to)
    } else {
        let _ = assign_object(alloc, left, e, names, to)?;
        Ok(())
    }
}

/// `++` and `--` on an object, whose type this is (C99 6.5.2.4, 6.5.3.1).
#[cycle(evaluation)]
#[tactic(auto, using(c_effects::proofs::Sequences::before_assoc))]
pub fn bumped(
    alloc: Global,
    op: BumpOp,
    left: (&Expr, &CType),
    names: &mut Registers<'_>,
    to: &mut Vec<MonStmt>,
) -> Result<MonExpr, AllocError>
    ensures value { IfOk result (λ m. plain_monitored m ≡ result_by names.old (bump_of op left.entry.1.now left.entry.0.now)) }
    ensures setup { OnOk result (plain_stmts to.new.items ≡ before (plain_stmts to.old.items)
        (prepare_by names.old (bump_of op left.entry.1.now left.entry.0.now))) }
    ensures names { OnOk result (names.new ≡ with_registers (takes (unit_of names.old) (bump_of op left.entry.1.now left.entry.0.now)) names.old) }
    ensures letters { OnOk result (ValueHasLetters (bump_of op left.entry.1.now left.entry.0.now)) }
{
    if gives_old(op) {
        let taken = old_ready(alloc, left, names, to)?;
        let old = register(alloc, taken.value)?;
        let new = stepped_by(alloc, names, op, left.1, old)?;
        store(alloc, taken.part, left.1, new, to)?;
        register(alloc, taken.value)
    } else {
        let ready = bump_ready(alloc, op, left, names, to)?;
        store_kept(alloc, true, ready, left.1, names, to)
    }
}

/// The same for its effect alone.
#[cycle(evaluation)]
#[tactic(auto, using(c_effects::proofs::Sequences::before_assoc))]
pub fn bump_alone(
    alloc: Global,
    op: BumpOp,
    left: (&Expr, &CType),
    names: &mut Registers<'_>,
    to: &mut Vec<MonStmt>,
) -> Result<(), AllocError>
    ensures setup { OnOk result (plain_stmts to.new.items ≡ before (plain_stmts to.old.items)
        (act_by names.old (bump_of op left.entry.1.now left.entry.0.now))) }
    ensures names { OnOk result (names.new ≡ with_registers (act_takes (unit_of names.old) (bump_of op left.entry.1.now left.entry.0.now)) names.old) }
    ensures letters { OnOk result (ActHasLetters (bump_of op left.entry.1.now left.entry.0.now)) }
{
    let ready = bump_ready(alloc, op, left, names, to)?;
    let Ready { part, value, .. } = ready;
    store(alloc, part, left.1, value, to)
}
