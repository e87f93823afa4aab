//! Calls (C99 6.5.2.2), and expressions that stand for their effects (C99 6.8.3 p2).

ghost use Rattle.std.specs.Prelude.{◌≡◌, ◌++◌, ◌∷◌, [], IfOk, OnOk, length, map, option_map};
ghost use Rattle.c_syntax.specs.Ctypes.{plain_type};
ghost use Rattle.c_syntax.specs.Expressions.{plain_expr, plain_exprs};
ghost use Rattle.mon_syntax.specs.Trees.{NoStatement, Register, plain_expr as plain_monitored, plain_stmts};
ghost use Rattle.c_effects.specs.Letters.{Any, ActHasLetters, ValuesHaveLetters};
ghost use Rattle.c_effects.specs.Expressions.{before, value_type};
ghost use Rattle.c_effects.specs.Effects.{any_temporaries};
ghost use Rattle.c_effects.specs.Full.{act_takes, all_takes};
ghost use Rattle.c_evaluation.specs.Evaluated.{act_by, act_if_any_by, all_results_by, called_alone_by};
ghost use Rattle.c_evaluation.specs.Evaluated.{called_value_by, prepare_all_by, comma_of};
ghost use Rattle.c_effects.specs.Named.{unit_of, with_registers};
ghost use Rattle.c_effects.specs.Parts.{both_of, choice_of, either_of};

use crate::assignment::{assign_alone, bump_alone};
use crate::evaluation::{condition_of, operand};
use c_effects::call::call;
use c_effects::conversion::value_type;
use c_effects::operator::register;
use c_effects::part::then;
use c_effects::settled::{are_both_pure, is_pure, keeps_all};
use c_syntax::{CType, Expr, ExprKind, Use};
use mon_syntax::{MonExpr, MonStmt, MonStmtKind, Registers};
use std::alloc::{AllocError, Global};

// The values of arguments, from left to right, each kept where a later one has an effect.
#[cycle(evaluation)]
fn arguments(
    alloc: Global,
    args: &[Expr],
    names: &mut Registers<'_>,
    to: &mut Vec<MonStmt>,
) -> Result<Vec<MonExpr>, AllocError>
    ensures values { IfOk result (λ es. map plain_monitored es.items ≡ all_results_by names.old (plain_exprs args.now)) }
    ensures setup { OnOk result (plain_stmts to.new.items ≡ before (plain_stmts to.old.items) (prepare_all_by names.old (plain_exprs args.now))) }
    ensures names { OnOk result (names.new ≡ with_registers (all_takes (unit_of names.old) (plain_exprs args.now)) names.old) }
    ensures letters { OnOk result (ValuesHaveLetters (plain_exprs args.now)) }
{
    let mut values = Vec::new(alloc);
    'expressions: for i in 0..args.len() {
        let e = &args[i];
        let rest = &args[i + 1..];
        let value = operand(alloc, keeps_all(e, rest), e, names, to)?;
        values.push(value)?;
    }
    Ok(values)
}

/// A call, whose value of this type goes to a further register.
#[cycle(evaluation)]
#[tactic(auto, using(c_effects::proofs::Sequences::before_assoc))]
pub fn called(
    alloc: Global,
    callee: (Use, &CType),
    args: &[Expr],
    names: &mut Registers<'_>,
    to: &mut Vec<MonStmt>,
) -> Result<MonExpr, AllocError>
    ensures value { IfOk result (λ m. plain_monitored m ≡ Register (length (names.old.table.kinds ++ all_takes (unit_of names.old) (plain_exprs args.now)))) }
    ensures setup { OnOk result (plain_stmts to.new.items ≡ before (plain_stmts to.old.items)
        (called_value_by names.old callee.entry.0 (plain_exprs args.now))) }
    ensures names { OnOk result (names.new ≡ with_registers (all_takes (unit_of names.old) (plain_exprs args.now)
        ++ value_type (plain_type callee.entry.1.now) ∷ []) names.old) }
    ensures letters { OnOk result (ValuesHaveLetters (plain_exprs args.now)) }
{
    let (f, t) = callee;
    let values = arguments(alloc, args, names, to)?;
    let number = names.fresh(value_type(t))?;
    call(alloc, names, Some(number), (f, args), values, to)?;
    register(alloc, number)
}

// A call whose value nothing takes.
#[cycle(evaluation)]
#[tactic(auto, using(c_effects::proofs::Sequences::before_assoc))]
fn call_alone(
    alloc: Global,
    f: Use,
    args: &[Expr],
    names: &mut Registers<'_>,
    to: &mut Vec<MonStmt>,
) -> Result<(), AllocError>
    ensures setup { OnOk result (plain_stmts to.new.items ≡ before (plain_stmts to.old.items) (called_alone_by names.old f (plain_exprs args.now))) }
    ensures names { OnOk result (names.new ≡ with_registers (all_takes (unit_of names.old) (plain_exprs args.now)) names.old) }
    ensures letters { OnOk result (ValuesHaveLetters (plain_exprs args.now)) }
{
    let values = arguments(alloc, args, names, to)?;
    call(alloc, names, None, (f, args), values, to)
}

/// Translates an expression that stands for its effects. Nothing is left of one that has none.
#[cycle(evaluation)]
#[tactic(auto, using(c_effects::proofs::Sequences::before_none))]
pub fn act(
    alloc: Global,
    e: &Expr,
    names: &mut Registers<'_>,
    to: &mut Vec<MonStmt>,
) -> Result<(), AllocError>
    ensures setup { OnOk result (plain_stmts to.new.items ≡ before (plain_stmts to.old.items) (act_by names.old (plain_expr e.now))) }
    ensures names { OnOk result (names.new ≡ with_registers (act_takes (unit_of names.old) (plain_expr e.now)) names.old) }
    ensures letters { OnOk result (ActHasLetters (plain_expr e.now)) }
{
    match &*e.kind {
        ExprKind::Assign(op, a, b) => assign_alone(alloc, *op, (a, &e.ctype), b, names, to),
        ExprKind::Bump(op, a) => bump_alone(alloc, *op, (a, &e.ctype), names, to),
        ExprKind::Call(f, args) => call_alone(alloc, *f, args, names, to),
        ExprKind::Both(a, b) => act_both(alloc, a, b, names, to),
        ExprKind::Either(a, b) => act_either(alloc, a, b, names, to),
        ExprKind::Choice(a, b, c) => act_choice(alloc, a, (b, c), names, to),
        ExprKind::Unary(_, a) => act(alloc, a, names, to),
        ExprKind::Cast(_, a) => act(alloc, a, names, to),
        ExprKind::Dot(a, _) => act(alloc, a, names, to),
        ExprKind::Arrow(a, _) => act(alloc, a, names, to),
        ExprKind::Binary(_, a, b) => act_both_sides(alloc, a, b, names, to),
        ExprKind::Index(a, b) => act_both_sides(alloc, a, b, names, to),
        ExprKind::Comma(a, b) => act_both_sides(alloc, a, b, names, to),
        ExprKind::Number(_, _)
        | ExprKind::Letter(_)
        | ExprKind::Text(_)
        | ExprKind::Variable(_)
        | ExprKind::SizeOfType(_)
        | ExprKind::SizeOfExpr(_) => Ok(()),
    }
}

// Two expressions for their effects, one after the other.
#[cycle(evaluation)]
#[tactic(auto, using(c_effects::proofs::Sequences::before_assoc))]
fn act_both_sides(
    alloc: Global,
    a: &Expr,
    b: &Expr,
    names: &mut Registers<'_>,
    to: &mut Vec<MonStmt>,
) -> Result<(), AllocError>
    ensures setup { OnOk result (plain_stmts to.new.items ≡ before (plain_stmts to.old.items) (act_by names.old (comma_of a.now b.now))) }
    ensures names { OnOk result (names.new ≡ with_registers (act_takes (unit_of names.old) (comma_of a.now b.now)) names.old) }
    ensures letters { OnOk result (ActHasLetters (comma_of a.now b.now)) }
{
    act(alloc, a, names, to)?;
    act(alloc, b, names, to)
}

// The effects of an expression apart.
#[cycle(evaluation)]
fn acted(alloc: Global, e: &Expr, names: &mut Registers<'_>) -> Result<Vec<MonStmt>, AllocError>
    ensures code { IfOk result (λ code. plain_stmts code.items ≡ act_by names.old (plain_expr e.now)) }
    ensures names { OnOk result (names.new ≡ with_registers (act_takes (unit_of names.old) (plain_expr e.now)) names.old) }
    ensures letters { OnOk result (ActHasLetters (plain_expr e.now)) }
{
    let mut code = Vec::new(alloc);
    act(alloc, e, names, &mut code)?;
    Ok(code)
}

// No statement.
fn empty(alloc: Global) -> Vec<MonStmt>
    ensures { plain_stmts result.items ≡ NoStatement }
{
    Vec::new(alloc)
}

// `a && b`: its right side is left out if it has no effect.
#[cycle(evaluation)]
#[tactic(auto, using(mon_syntax::proofs::Rows::if_is))]
fn act_both(
    alloc: Global,
    a: &Expr,
    b: &Expr,
    names: &mut Registers<'_>,
    to: &mut Vec<MonStmt>,
) -> Result<(), AllocError>
    ensures setup { OnOk result (plain_stmts to.new.items ≡ before (plain_stmts to.old.items) (act_by names.old (both_of a.now b.now))) }
    ensures names { OnOk result (names.new ≡ with_registers (act_takes (unit_of names.old) (both_of a.now b.now)) names.old) }
    ensures letters { OnOk result (ActHasLetters (both_of a.now b.now)) }
{
    if is_pure(b) {
        act(alloc, a, names, to)
    } else {
        let test = condition_of(alloc, a, names, to)?;
        let on = acted(alloc, b, names)?;
        then(alloc, to, MonStmtKind::If(test, on, empty(alloc)))
    }
}

// `a || b`: its right side is left out if it has no effect.
#[cycle(evaluation)]
#[tactic(auto, using(mon_syntax::proofs::Rows::if_is))]
fn act_either(
    alloc: Global,
    a: &Expr,
    b: &Expr,
    names: &mut Registers<'_>,
    to: &mut Vec<MonStmt>,
) -> Result<(), AllocError>
    ensures setup { OnOk result (plain_stmts to.new.items ≡ before (plain_stmts to.old.items) (act_by names.old (either_of a.now b.now))) }
    ensures names { OnOk result (names.new ≡ with_registers (act_takes (unit_of names.old) (either_of a.now b.now)) names.old) }
    ensures letters { OnOk result (ActHasLetters (either_of a.now b.now)) }
{
    if is_pure(b) {
        act(alloc, a, names, to)
    } else {
        let test = condition_of(alloc, a, names, to)?;
        let on = acted(alloc, b, names)?;
        then(alloc, to, MonStmtKind::If(test, empty(alloc), on))
    }
}

// `a ? b : c`: both are left out if they have no effect.
#[cycle(evaluation)]
#[tactic(auto, using(mon_syntax::proofs::Rows::if_is))]
fn act_choice(
    alloc: Global,
    a: &Expr,
    values: (&Expr, &Expr),
    names: &mut Registers<'_>,
    to: &mut Vec<MonStmt>,
) -> Result<(), AllocError>
    ensures setup { OnOk result (plain_stmts to.new.items ≡ before (plain_stmts to.old.items)
        (act_by names.old (choice_of a.now values.entry.0.now values.entry.1.now))) }
    ensures names { OnOk result (names.new ≡ with_registers (act_takes (unit_of names.old) (choice_of a.now values.entry.0.now values.entry.1.now)) names.old) }
    ensures letters { OnOk result (ActHasLetters (choice_of a.now values.entry.0.now values.entry.1.now)) }
{
    let (b, c) = values;
    if are_both_pure(b, c) {
        act(alloc, a, names, to)
    } else {
        let test = condition_of(alloc, a, names, to)?;
        let on = acted(alloc, b, names)?;
        let off = acted(alloc, c, names)?;
        then(alloc, to, MonStmtKind::If(test, on, off))
    }
}

/// Translates an effect that may be left out.
#[tactic(auto, using(c_effects::proofs::Sequences::before_none))]
pub fn act_if_any(
    alloc: Global,
    e: &Option<Expr>,
    names: &mut Registers<'_>,
    to: &mut Vec<MonStmt>,
) -> Result<(), AllocError>
    ensures setup { OnOk result (plain_stmts to.new.items ≡ before (plain_stmts to.old.items) (act_if_any_by names.old (option_map plain_expr e.now))) }
    ensures names { OnOk result (names.new ≡ with_registers (any_temporaries (act_takes (unit_of names.old)) (option_map plain_expr e.now)) names.old) }
    ensures letters { OnOk result (Any ActHasLetters (option_map plain_expr e.now)) }
{
    match e {
        Some(e) => act(alloc, e, names, to),
        None => Ok(()),
    }
}
