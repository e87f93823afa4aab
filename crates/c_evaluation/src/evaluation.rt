//! Expressions with effects anywhere in them (C99 6.5): statements before a value that has none.
//!
//! A value that is read before a later effect stands in a register, unless nothing changes it.

ghost use Rattle.std.specs.Prelude.{◌≡◌, ◌++◌, ◌∷◌, [], IfOk, OnOk, length, pos};
ghost use Rattle.c_syntax.specs.Ctypes.{plain_type};
ghost use Rattle.c_syntax.specs.Expressions.{plain_expr};
ghost use Rattle.mon_syntax.specs.declared.tree.MonType.TheVariants.{I32, Ptr};
ghost use Rattle.mon_syntax.specs.Registers.{next_register};
ghost use Rattle.mon_syntax.specs.Trees.{Constant, If, Register, plain_expr as plain_monitored, plain_stmts};
ghost use Rattle.c_effects.specs.Expressions.{before, loaded, one, set};
ghost use Rattle.c_effects.specs.Full.{kept_setup, kept_types, kept_value, takes};
ghost use Rattle.c_effects.specs.Letters.{ValueHasLetters};
ghost use Rattle.c_evaluation.specs.Evaluated.{comma_of, condition_result_by, location_by, origin_by};
ghost use Rattle.c_evaluation.specs.Evaluated.{operand_by, operand_setup_by, operand_takes, prepare_by, result_by, truth_code_by};
ghost use Rattle.c_effects.specs.Named.{unit_of, with_registers};
ghost use Rattle.c_effects.specs.Parts.{arrow_of, binary_of, both_of, cast_of, choice_of, dot_of, either_of, index_of, unary_of};

use crate::act::{act, called};
use crate::assignment::{assigned_location, assigned_origin, assigned_value, bumped};
use c_conversions::conversion::is_array;
use c_effects::conversion::value_type;
use c_effects::leaf::{literal, variable};
use c_effects::object::pointer_to;
use c_effects::operator::{
    condition, constant, converted, farther, indexed, loaded, operated, register, truth, unary,
};
use c_effects::part::{alone, choose, then};
use c_effects::settled::keeps;
use c_syntax::layout::{offset_in_target, offset_of_member};
use c_syntax::{BinOp, CType, Expr, ExprKind, UnOp};
use mon_syntax::{MonExpr, MonStmt, MonStmtKind, MonType, Registers};
use std::alloc::{AllocError, Global};
use track_scopes::size::size_constant;

/// Translates an expression to its value: its statements stand after those that are there, and its temporary registers
/// are further ones.
#[cycle(evaluation)]
#[tactic(auto, using(c_effects::proofs::Sequences::before_none))]
pub fn value(
    alloc: Global,
    e: &Expr,
    names: &mut Registers<'_>,
    to: &mut Vec<MonStmt>,
) -> Result<MonExpr, AllocError>
    ensures value { IfOk result (λ m. plain_monitored m ≡ result_by names.old (plain_expr e.now)) }
    ensures setup { OnOk result (plain_stmts to.new.items ≡ before (plain_stmts to.old.items) (prepare_by names.old (plain_expr e.now))) }
    ensures names { OnOk result (names.new ≡ with_registers (takes (unit_of names.old) (plain_expr e.now)) names.old) }
    ensures letters { OnOk result (ValueHasLetters (plain_expr e.now)) }
{
    match &*e.kind {
        ExprKind::Number(n, _) => constant(alloc, value_type(&e.ctype), *n),
        ExprKind::Letter(n) => constant(alloc, value_type(&e.ctype), i128::from(*n)),
        ExprKind::Text(n) => literal(alloc, names, *n),
        ExprKind::Variable(x) => variable(alloc, names, &e.ctype, *x),
        ExprKind::Unary(op, a) => prefixed(alloc, (&e.ctype, *op), a, names, to),
        ExprKind::Binary(op, a, b) => binary(alloc, *op, (a, b), names, to),
        ExprKind::Both(a, b) => and(alloc, a, b, names, to),
        ExprKind::Either(a, b) => or(alloc, a, b, names, to),
        ExprKind::Choice(a, b, c) => choice(alloc, a, (b, c), names, to),
        ExprKind::Assign(op, a, b) => assigned_value(alloc, *op, (a, &e.ctype), b, names, to),
        ExprKind::Bump(op, a) => bumped(alloc, *op, (a, &e.ctype), names, to),
        ExprKind::Call(f, args) => called(alloc, (*f, &e.ctype), args, names, to),
        ExprKind::Cast(t, a) => cast(alloc, t, a, names, to),
        ExprKind::SizeOfType(t) => size_constant(alloc, names.layouts(), t),
        ExprKind::SizeOfExpr(a) => size_constant(alloc, names.layouts(), &a.ctype),
        ExprKind::Index(a, b) => element_value(alloc, &e.ctype, (a, b), names, to),
        ExprKind::Dot(a, m) => member_value(alloc, (&e.ctype, *m), a, names, to),
        ExprKind::Arrow(a, m) => member_behind_value(alloc, (&e.ctype, *m), a, names, to),
        ExprKind::Comma(a, b) => second_value(alloc, a, b, names, to),
    }
}

/// Translates an expression to the pointer to the object that it designates (C99 6.3.2.1). In place of that of any
/// other expression stands the null pointer.
#[cycle(evaluation)]
#[tactic(auto, using(c_effects::proofs::Sequences::before_none))]
pub fn location(
    alloc: Global,
    e: &Expr,
    names: &mut Registers<'_>,
    to: &mut Vec<MonStmt>,
) -> Result<MonExpr, AllocError>
    ensures value { IfOk result (λ m. plain_monitored m ≡ location_by names.old (plain_expr e.now)) }
    ensures setup { OnOk result (plain_stmts to.new.items ≡ before (plain_stmts to.old.items) (prepare_by names.old (plain_expr e.now))) }
    ensures names { OnOk result (names.new ≡ with_registers (takes (unit_of names.old) (plain_expr e.now)) names.old) }
    ensures letters { OnOk result (ValueHasLetters (plain_expr e.now)) }
{
    match &*e.kind {
        ExprKind::Variable(x) => pointer_to(alloc, names, x.decl),
        ExprKind::Text(n) => literal(alloc, names, *n),
        ExprKind::Unary(op, a) => pointed_to(alloc, *op, a, names, to),
        ExprKind::Index(a, b) => element(alloc, (a, b), names, to),
        ExprKind::Dot(a, m) => member(alloc, a, *m, names, to),
        ExprKind::Arrow(a, m) => member_behind(alloc, a, *m, names, to),
        ExprKind::Assign(op, a, b) => assigned_location(alloc, *op, (a, &e.ctype), b, names, to),
        ExprKind::Comma(a, b) => second_location(alloc, a, b, names, to),
        ExprKind::Number(_, _)
        | ExprKind::Letter(_)
        | ExprKind::Binary(_, _, _)
        | ExprKind::Both(_, _)
        | ExprKind::Either(_, _)
        | ExprKind::Choice(_, _, _)
        | ExprKind::Bump(_, _)
        | ExprKind::Call(_, _)
        | ExprKind::Cast(_, _)
        | ExprKind::SizeOfType(_)
        | ExprKind::SizeOfExpr(_) => nowhere(alloc, e, names, to),
    }
}

/// The pointer to the object in which a member stands, or else to the object itself.
#[cycle(evaluation)]
pub fn origin(
    alloc: Global,
    e: &Expr,
    names: &mut Registers<'_>,
    to: &mut Vec<MonStmt>,
) -> Result<MonExpr, AllocError>
    ensures value { IfOk result (λ m. plain_monitored m ≡ origin_by names.old (plain_expr e.now)) }
    ensures setup { OnOk result (plain_stmts to.new.items ≡ before (plain_stmts to.old.items) (prepare_by names.old (plain_expr e.now))) }
    ensures names { OnOk result (names.new ≡ with_registers (takes (unit_of names.old) (plain_expr e.now)) names.old) }
    ensures letters { OnOk result (ValueHasLetters (plain_expr e.now)) }
{
    match &*e.kind {
        ExprKind::Dot(a, _) => origin(alloc, a, names, to),
        ExprKind::Arrow(a, _) => value(alloc, a, names, to),
        ExprKind::Assign(op, a, b) => assigned_origin(alloc, *op, (a, &e.ctype), b, names, to),
        ExprKind::Comma(a, b) => second_origin(alloc, a, b, names, to),
        ExprKind::Number(_, _)
        | ExprKind::Letter(_)
        | ExprKind::Text(_)
        | ExprKind::Variable(_)
        | ExprKind::Unary(_, _)
        | ExprKind::Binary(_, _, _)
        | ExprKind::Both(_, _)
        | ExprKind::Either(_, _)
        | ExprKind::Choice(_, _, _)
        | ExprKind::Bump(_, _)
        | ExprKind::Call(_, _)
        | ExprKind::Cast(_, _)
        | ExprKind::SizeOfType(_)
        | ExprKind::SizeOfExpr(_)
        | ExprKind::Index(_, _) => location(alloc, e, names, to),
    }
}

// The value of the second of two expressions, after the effects of the first one.
#[cycle(evaluation)]
fn second_value(
    alloc: Global,
    a: &Expr,
    b: &Expr,
    names: &mut Registers<'_>,
    to: &mut Vec<MonStmt>,
) -> Result<MonExpr, AllocError>
    ensures value { IfOk result (λ m. plain_monitored m ≡ result_by names.old (comma_of a.now b.now)) }
    ensures setup { OnOk result (plain_stmts to.new.items ≡ before (plain_stmts to.old.items) (prepare_by names.old (comma_of a.now b.now))) }
    ensures names { OnOk result (names.new ≡ with_registers (takes (unit_of names.old) (comma_of a.now b.now)) names.old) }
    ensures letters { OnOk result (ValueHasLetters (comma_of a.now b.now)) }
{
    act(alloc, a, names, to)?;
    value(alloc, b, names, to)
}

// The place of the second of two expressions, after the effects of the first one.
#[cycle(evaluation)]
fn second_location(
    alloc: Global,
    a: &Expr,
    b: &Expr,
    names: &mut Registers<'_>,
    to: &mut Vec<MonStmt>,
) -> Result<MonExpr, AllocError>
    ensures value { IfOk result (λ m. plain_monitored m ≡ location_by names.old (comma_of a.now b.now)) }
    ensures setup { OnOk result (plain_stmts to.new.items ≡ before (plain_stmts to.old.items) (prepare_by names.old (comma_of a.now b.now))) }
    ensures names { OnOk result (names.new ≡ with_registers (takes (unit_of names.old) (comma_of a.now b.now)) names.old) }
    ensures letters { OnOk result (ValueHasLetters (comma_of a.now b.now)) }
{
    act(alloc, a, names, to)?;
    location(alloc, b, names, to)
}

// The origin of the second of two expressions, after the effects of the first one.
#[cycle(evaluation)]
fn second_origin(
    alloc: Global,
    a: &Expr,
    b: &Expr,
    names: &mut Registers<'_>,
    to: &mut Vec<MonStmt>,
) -> Result<MonExpr, AllocError>
    ensures value { IfOk result (λ m. plain_monitored m ≡ origin_by names.old (comma_of a.now b.now)) }
    ensures setup { OnOk result (plain_stmts to.new.items ≡ before (plain_stmts to.old.items) (prepare_by names.old (comma_of a.now b.now))) }
    ensures names { OnOk result (names.new ≡ with_registers (takes (unit_of names.old) (comma_of a.now b.now)) names.old) }
    ensures letters { OnOk result (ValueHasLetters (comma_of a.now b.now)) }
{
    act(alloc, a, names, to)?;
    origin(alloc, b, names, to)
}

// An expression that designates no object: the null pointer, after its statements.
#[cycle(evaluation)]
fn nowhere(
    alloc: Global,
    e: &Expr,
    names: &mut Registers<'_>,
    to: &mut Vec<MonStmt>,
) -> Result<MonExpr, AllocError>
    ensures value { IfOk result (λ m. plain_monitored m ≡ Constant Ptr (pos 0)) }
    ensures setup { OnOk result (plain_stmts to.new.items ≡ before (plain_stmts to.old.items) (prepare_by names.old (plain_expr e.now))) }
    ensures names { OnOk result (names.new ≡ with_registers (takes (unit_of names.old) (plain_expr e.now)) names.old) }
    ensures letters { OnOk result (ValueHasLetters (plain_expr e.now)) }
{
    let _ = value(alloc, e, names, to)?;
    constant(alloc, MonType::Ptr, 0)
}

// The value of `a[b]`, which has this type.
#[cycle(evaluation)]
fn element_value(
    alloc: Global,
    t: &CType,
    operands: (&Expr, &Expr),
    names: &mut Registers<'_>,
    to: &mut Vec<MonStmt>,
) -> Result<MonExpr, AllocError>
    ensures value { IfOk result (λ m. plain_monitored m ≡ loaded (plain_type t.now)
        (location_by names.old (index_of operands.entry.0.now operands.entry.1.now))) }
    ensures setup { OnOk result (plain_stmts to.new.items ≡ before (plain_stmts to.old.items)
        (prepare_by names.old (index_of operands.entry.0.now operands.entry.1.now))) }
    ensures names { OnOk result (names.new ≡ with_registers (takes (unit_of names.old) (index_of operands.entry.0.now operands.entry.1.now)) names.old) }
    ensures letters { OnOk result (ValueHasLetters (index_of operands.entry.0.now operands.entry.1.now)) }
{
    let pointer = element(alloc, operands, names, to)?;
    loaded(alloc, t, pointer)
}

// The value of a member of an object, by the type and number of the member.
#[cycle(evaluation)]
fn member_value(
    alloc: Global,
    part: (&CType, u32),
    a: &Expr,
    names: &mut Registers<'_>,
    to: &mut Vec<MonStmt>,
) -> Result<MonExpr, AllocError>
    ensures value { IfOk result (λ m. plain_monitored m ≡ loaded (plain_type part.entry.0.now) (location_by names.old (dot_of a.now part.entry.1))) }
    ensures setup { OnOk result (plain_stmts to.new.items ≡ before (plain_stmts to.old.items) (prepare_by names.old (plain_expr a.now))) }
    ensures names { OnOk result (names.new ≡ with_registers (takes (unit_of names.old) (plain_expr a.now)) names.old) }
    ensures letters { OnOk result (ValueHasLetters (plain_expr a.now)) }
{
    let (t, m) = part;
    let pointer = member(alloc, a, m, names, to)?;
    loaded(alloc, t, pointer)
}

// The same of the object to which a pointer points.
#[cycle(evaluation)]
fn member_behind_value(
    alloc: Global,
    part: (&CType, u32),
    a: &Expr,
    names: &mut Registers<'_>,
    to: &mut Vec<MonStmt>,
) -> Result<MonExpr, AllocError>
    ensures value { IfOk result (λ m. plain_monitored m ≡ loaded (plain_type part.entry.0.now) (location_by names.old (arrow_of a.now part.entry.1))) }
    ensures setup { OnOk result (plain_stmts to.new.items ≡ before (plain_stmts to.old.items) (prepare_by names.old (plain_expr a.now))) }
    ensures names { OnOk result (names.new ≡ with_registers (takes (unit_of names.old) (plain_expr a.now)) names.old) }
    ensures letters { OnOk result (ValueHasLetters (plain_expr a.now)) }
{
    let (t, m) = part;
    let pointer = member_behind(alloc, a, m, names, to)?;
    loaded(alloc, t, pointer)
}

// A prefix operator on an expression, whose result has the type.
#[cycle(evaluation)]
fn prefixed(
    alloc: Global,
    operator: (&CType, UnOp),
    a: &Expr,
    names: &mut Registers<'_>,
    to: &mut Vec<MonStmt>,
) -> Result<MonExpr, AllocError>
    ensures value { IfOk result (λ m. plain_monitored m ≡ result_by names.old (unary_of operator.entry.0.now operator.entry.1 a.now)) }
    ensures setup { OnOk result (plain_stmts to.new.items ≡ before (plain_stmts to.old.items) (prepare_by names.old (plain_expr a.now))) }
    ensures names { OnOk result (names.new ≡ with_registers (takes (unit_of names.old) (plain_expr a.now)) names.old) }
    ensures letters { OnOk result (ValueHasLetters (plain_expr a.now)) }
{
    let (t, op) = operator;
    match op {
        UnOp::Deref => {
            let pointer = value(alloc, a, names, to)?;
            loaded(alloc, t, pointer)
        }
        UnOp::Address => location(alloc, a, names, to),
        UnOp::Plus | UnOp::Minus | UnOp::Not | UnOp::Flip => {
            let operand = value(alloc, a, names, to)?;
            unary(alloc, op, value_type(&a.ctype), operand)
        }
    }
}

// The place that a prefix operator designates: `*` does, of a pointer.
#[cycle(evaluation)]
fn pointed_to(
    alloc: Global,
    op: UnOp,
    a: &Expr,
    names: &mut Registers<'_>,
    to: &mut Vec<MonStmt>,
) -> Result<MonExpr, AllocError>
    ensures value { IfOk result (λ m. plain_monitored m ≡ location_by names.old (unary_of a.now.ctype op a.now)) }
    ensures setup { OnOk result (plain_stmts to.new.items ≡ before (plain_stmts to.old.items) (prepare_by names.old (plain_expr a.now))) }
    ensures names { OnOk result (names.new ≡ with_registers (takes (unit_of names.old) (plain_expr a.now)) names.old) }
    ensures letters { OnOk result (ValueHasLetters (plain_expr a.now)) }
{
    let pointer = value(alloc, a, names, to)?;
    match op {
        UnOp::Deref => Ok(pointer),
        UnOp::Address | UnOp::Plus | UnOp::Minus | UnOp::Not | UnOp::Flip => {
            constant(alloc, MonType::Ptr, 0)
        }
    }
}

// An expression in a type. A cast of an array is the address of its first element (C99 6.3.2.1 p3).
#[cycle(evaluation)]
fn cast(
    alloc: Global,
    t: &CType,
    a: &Expr,
    names: &mut Registers<'_>,
    to: &mut Vec<MonStmt>,
) -> Result<MonExpr, AllocError>
    ensures value { IfOk result (λ m. plain_monitored m ≡ result_by names.old (cast_of t.now a.now)) }
    ensures setup { OnOk result (plain_stmts to.new.items ≡ before (plain_stmts to.old.items) (prepare_by names.old (plain_expr a.now))) }
    ensures names { OnOk result (names.new ≡ with_registers (takes (unit_of names.old) (plain_expr a.now)) names.old) }
    ensures letters { OnOk result (ValueHasLetters (plain_expr a.now)) }
{
    if is_array(&a.ctype) {
        location(alloc, a, names, to)
    } else {
        let operand = value(alloc, a, names, to)?;
        converted(alloc, &a.ctype, t, operand)
    }
}

/// A further register of the type, which is set to a value.
pub fn in_register(
    alloc: Global,
    t: MonType,
    e: MonExpr,
    names: &mut Registers<'_>,
    to: &mut Vec<MonStmt>,
) -> Result<u32, AllocError>
    ensures register { IfOk result (λ r. r ≡ next_register names.old.table) }
    ensures setup { OnOk result (plain_stmts to.new.items ≡ before (plain_stmts to.old.items) (set (next_register names.old.table) (plain_monitored e))) }
    ensures names { OnOk result (names.new ≡ with_registers (t ∷ []) names.old) }
{
    let number = names.fresh(t)?;
    then(alloc, to, MonStmtKind::Set(number, e))?;
    Ok(number)
}

/// A value, in a further register of the type if it is kept.
#[tactic(auto, using(c_effects::proofs::Sequences::before_none))]
pub fn kept(
    alloc: Global,
    keep: bool,
    e: MonExpr,
    t: MonType,
    names: &mut Registers<'_>,
    to: &mut Vec<MonStmt>,
) -> Result<MonExpr, AllocError>
    ensures value { IfOk result (λ m. plain_monitored m ≡ kept_value keep (next_register names.old.table) (plain_monitored e)) }
    ensures setup { OnOk result (plain_stmts to.new.items ≡ kept_setup keep (next_register names.old.table) (plain_stmts to.old.items) (plain_monitored e)) }
    ensures names { OnOk result (names.new ≡ with_registers (kept_types keep [] t) names.old) }
{
    if keep {
        let number = in_register(alloc, t, e, names, to)?;
        register(alloc, number)
    } else {
        Ok(e)
    }
}

/// The value of an operand, which may be kept.
#[cycle(evaluation)]
pub fn operand(
    alloc: Global,
    keep: bool,
    e: &Expr,
    names: &mut Registers<'_>,
    to: &mut Vec<MonStmt>,
) -> Result<MonExpr, AllocError>
    ensures value { IfOk result (λ m. plain_monitored m ≡ operand_by names.old keep (plain_expr e.now)) }
    ensures setup { OnOk result (plain_stmts to.new.items ≡ before (plain_stmts to.old.items) (operand_setup_by names.old keep (plain_expr e.now))) }
    ensures names { OnOk result (names.new ≡ with_registers (operand_takes (unit_of names.old) keep (plain_expr e.now)) names.old) }
    ensures letters { OnOk result (ValueHasLetters (plain_expr e.now)) }
{
    let found = value(alloc, e, names, to)?;
    kept(alloc, keep, found, value_type(&e.ctype), names, to)
}

// An operator on the values of two expressions.
#[cycle(evaluation)]
fn binary(
    alloc: Global,
    op: BinOp,
    operands: (&Expr, &Expr),
    names: &mut Registers<'_>,
    to: &mut Vec<MonStmt>,
) -> Result<MonExpr, AllocError>
    ensures value { IfOk result (λ m. plain_monitored m ≡ result_by names.old (binary_of op operands.entry.0.now operands.entry.1.now)) }
    ensures setup { OnOk result (plain_stmts to.new.items ≡ before (plain_stmts to.old.items)
        (prepare_by names.old (binary_of op operands.entry.0.now operands.entry.1.now))) }
    ensures names { OnOk result (names.new ≡ with_registers (takes (unit_of names.old) (binary_of op operands.entry.0.now operands.entry.1.now)) names.old) }
    ensures letters { OnOk result (ValueHasLetters (binary_of op operands.entry.0.now operands.entry.1.now)) }
{
    let (a, b) = operands;
    let keep = keeps(a, b);
    let first = operand(alloc, keep, a, names, to)?;
    let second = value(alloc, b, names, to)?;
    operated(
        alloc,
        names.layouts(),
        op,
        (&a.ctype, &b.ctype),
        first,
        second,
    )
}

// The pointer to `a[b]`.
#[cycle(evaluation)]
fn element(
    alloc: Global,
    operands: (&Expr, &Expr),
    names: &mut Registers<'_>,
    to: &mut Vec<MonStmt>,
) -> Result<MonExpr, AllocError>
    ensures value { IfOk result (λ m. plain_monitored m ≡ location_by names.old (index_of operands.entry.0.now operands.entry.1.now)) }
    ensures setup { OnOk result (plain_stmts to.new.items ≡ before (plain_stmts to.old.items)
        (prepare_by names.old (index_of operands.entry.0.now operands.entry.1.now))) }
    ensures names { OnOk result (names.new ≡ with_registers (takes (unit_of names.old) (index_of operands.entry.0.now operands.entry.1.now)) names.old) }
    ensures letters { OnOk result (ValueHasLetters (index_of operands.entry.0.now operands.entry.1.now)) }
{
    let (a, b) = operands;
    let keep = keeps(a, b);
    let first = operand(alloc, keep, a, names, to)?;
    let second = value(alloc, b, names, to)?;
    indexed(alloc, names.layouts(), &a.ctype, &b.ctype, first, second)
}

// The pointer to `a.m`.
#[cycle(evaluation)]
fn member(
    alloc: Global,
    a: &Expr,
    m: u32,
    names: &mut Registers<'_>,
    to: &mut Vec<MonStmt>,
) -> Result<MonExpr, AllocError>
    ensures value { IfOk result (λ p. plain_monitored p ≡ location_by names.old (dot_of a.now m)) }
    ensures setup { OnOk result (plain_stmts to.new.items ≡ before (plain_stmts to.old.items) (prepare_by names.old (plain_expr a.now))) }
    ensures names { OnOk result (names.new ≡ with_registers (takes (unit_of names.old) (plain_expr a.now)) names.old) }
    ensures letters { OnOk result (ValueHasLetters (plain_expr a.now)) }
{
    let object = location(alloc, a, names, to)?;
    let distance = offset_of_member(names.layouts(), &a.ctype, m);
    farther(alloc, object, u64::from(distance))
}

// The pointer to `a->m`.
#[cycle(evaluation)]
fn member_behind(
    alloc: Global,
    a: &Expr,
    m: u32,
    names: &mut Registers<'_>,
    to: &mut Vec<MonStmt>,
) -> Result<MonExpr, AllocError>
    ensures value { IfOk result (λ p. plain_monitored p ≡ location_by names.old (arrow_of a.now m)) }
    ensures setup { OnOk result (plain_stmts to.new.items ≡ before (plain_stmts to.old.items) (prepare_by names.old (plain_expr a.now))) }
    ensures names { OnOk result (names.new ≡ with_registers (takes (unit_of names.old) (plain_expr a.now)) names.old) }
    ensures letters { OnOk result (ValueHasLetters (plain_expr a.now)) }
{
    let pointer = value(alloc, a, names, to)?;
    let distance = offset_in_target(names.layouts(), &a.ctype, m);
    farther(alloc, pointer, u64::from(distance))
}

// `a && b`, whose value is in a register.
#[cycle(evaluation)]
fn and(
    alloc: Global,
    a: &Expr,
    b: &Expr,
    names: &mut Registers<'_>,
    to: &mut Vec<MonStmt>,
) -> Result<MonExpr, AllocError>
    ensures value { IfOk result (λ m. plain_monitored m ≡ result_by names.old (both_of a.now b.now)) }
    ensures setup { OnOk result (plain_stmts to.new.items ≡ before (plain_stmts to.old.items) (prepare_by names.old (both_of a.now b.now))) }
    ensures names { OnOk result (names.new ≡ with_registers (takes (unit_of names.old) (both_of a.now b.now)) names.old) }
    ensures letters { OnOk result (ValueHasLetters (both_of a.now b.now)) }
{
    let test = condition_of(alloc, a, names, to)?;
    let right = truth_set(alloc, b, names)?;
    both(alloc, test, right, to)
}

// `a || b`, whose value is in a register.
#[cycle(evaluation)]
fn or(
    alloc: Global,
    a: &Expr,
    b: &Expr,
    names: &mut Registers<'_>,
    to: &mut Vec<MonStmt>,
) -> Result<MonExpr, AllocError>
    ensures value { IfOk result (λ m. plain_monitored m ≡ result_by names.old (either_of a.now b.now)) }
    ensures setup { OnOk result (plain_stmts to.new.items ≡ before (plain_stmts to.old.items) (prepare_by names.old (either_of a.now b.now))) }
    ensures names { OnOk result (names.new ≡ with_registers (takes (unit_of names.old) (either_of a.now b.now)) names.old) }
    ensures letters { OnOk result (ValueHasLetters (either_of a.now b.now)) }
{
    let test = condition_of(alloc, a, names, to)?;
    let right = truth_set(alloc, b, names)?;
    either(alloc, test, right, to)
}

// `a ? b : c`, whose value is in a register.
#[cycle(evaluation)]
fn choice(
    alloc: Global,
    a: &Expr,
    values: (&Expr, &Expr),
    names: &mut Registers<'_>,
    to: &mut Vec<MonStmt>,
) -> Result<MonExpr, AllocError>
    ensures value { IfOk result (λ m. plain_monitored m ≡ result_by names.old (choice_of a.now values.entry.0.now values.entry.1.now)) }
    ensures setup { OnOk result (plain_stmts to.new.items ≡ before (plain_stmts to.old.items)
        (prepare_by names.old (choice_of a.now values.entry.0.now values.entry.1.now))) }
    ensures names { OnOk result (names.new ≡ with_registers (takes (unit_of names.old) (choice_of a.now values.entry.0.now values.entry.1.now)) names.old) }
    ensures letters { OnOk result (ValueHasLetters (choice_of a.now values.entry.0.now values.entry.1.now)) }
{
    let (b, c) = values;
    let test = condition_of(alloc, a, names, to)?;
    let first = apart(alloc, b, names)?;
    let second = apart(alloc, c, names)?;
    let number = names.fresh(value_type(&b.ctype))?;
    choose(alloc, number, test, first, second, to)
}

/// The condition of an expression, after what stands before it.
#[cycle(evaluation)]
pub fn condition_of(
    alloc: Global,
    e: &Expr,
    names: &mut Registers<'_>,
    to: &mut Vec<MonStmt>,
) -> Result<MonExpr, AllocError>
    ensures value { IfOk result (λ m. plain_monitored m ≡ condition_result_by names.old (plain_expr e.now)) }
    ensures setup { OnOk result (plain_stmts to.new.items ≡ before (plain_stmts to.old.items) (prepare_by names.old (plain_expr e.now))) }
    ensures names { OnOk result (names.new ≡ with_registers (takes (unit_of names.old) (plain_expr e.now)) names.old) }
    ensures letters { OnOk result (ValueHasLetters (plain_expr e.now)) }
{
    let operand = value(alloc, e, names, to)?;
    condition(alloc, value_type(&e.ctype), operand)
}

// An expression apart: its statements, and its value.
#[cycle(evaluation)]
fn apart(
    alloc: Global,
    e: &Expr,
    names: &mut Registers<'_>,
) -> Result<(Vec<MonStmt>, MonExpr), AllocError>
    ensures value { IfOk result (λ r. plain_monitored r.1 ≡ result_by names.old (plain_expr e.now)) }
    ensures setup { IfOk result (λ r. plain_stmts r.0.items ≡ prepare_by names.old (plain_expr e.now)) }
    ensures names { OnOk result (names.new ≡ with_registers (takes (unit_of names.old) (plain_expr e.now)) names.old) }
    ensures letters { OnOk result (ValueHasLetters (plain_expr e.now)) }
{
    let mut code = Vec::new(alloc);
    let operand = value(alloc, e, names, &mut code)?;
    Ok((code, operand))
}

// The right side of `&&` or of `||`: statements that set a further register to whether it isn't 0.
#[cycle(evaluation)]
fn truth_set(
    alloc: Global,
    e: &Expr,
    names: &mut Registers<'_>,
) -> Result<(u32, Vec<MonStmt>), AllocError>
    ensures register { IfOk result (λ r. r.0 ≡ length (names.old.table.kinds ++ takes (unit_of names.old) (plain_expr e.now))) }
    ensures code { IfOk result (λ r. plain_stmts r.1.items ≡ truth_code_by names.old (plain_expr e.now)) }
    ensures names { OnOk result (names.new ≡ with_registers (takes (unit_of names.old) (plain_expr e.now) ++ I32 ∷ []) names.old) }
    ensures letters { OnOk result (ValueHasLetters (plain_expr e.now)) }
{
    let (mut code, operand) = apart(alloc, e, names)?;
    let operand = truth(alloc, value_type(&e.ctype), operand)?;
    let number = in_register(alloc, MonType::I32, operand, names, &mut code)?;
    Ok((number, code))
}

// Whether both sides of `&&` aren't 0, by a test of the left one and the statements that set a register to the right one:
// that register is set to it.
#[tactic(auto, using(mon_syntax::proofs::Rows::if_is))]
fn both(
    alloc: Global,
    test: MonExpr,
    right: (u32, Vec<MonStmt>),
    to: &mut Vec<MonStmt>,
) -> Result<MonExpr, AllocError>
    ensures value { IfOk result (λ m. plain_monitored m ≡ Register right.0) }
    ensures setup { OnOk result (plain_stmts to.new.items ≡ before (plain_stmts to.old.items)
        (one (If (plain_monitored test) (plain_stmts right.1.items) (set right.0 (Constant I32 (pos 0)))))) }
{
    let (number, on) = right;
    let known = constant(alloc, MonType::I32, 0)?;
    let off = alone(alloc, MonStmtKind::Set(number, known))?;
    then(alloc, to, MonStmtKind::If(test, on, off))?;
    register(alloc, number)
}

// Whether a side of `||` isn't 0, by a test of the left one and the statements that set a register to the right one: that
// register is set to it.
#[tactic(auto, using(mon_syntax::proofs::Rows::if_is))]
fn either(
    alloc: Global,
    test: MonExpr,
    right: (u32, Vec<MonStmt>),
    to: &mut Vec<MonStmt>,
) -> Result<MonExpr, AllocError>
    ensures value { IfOk result (λ m. plain_monitored m ≡ Register right.0) }
    ensures setup { OnOk result (plain_stmts to.new.items ≡ before (plain_stmts to.old.items)
        (one (If (plain_monitored test) (set right.0 (Constant I32 (pos 1))) (plain_stmts right.1.items)))) }
{
    let (number, off) = right;
    let known = constant(alloc, MonType::I32, 1)?;
    let on = alone(alloc, MonStmtKind::Set(number, known))?;
    then(alloc, to, MonStmtKind::If(test, on, off))?;
    register(alloc, number)
}
