//! The values of one binder: each is tried, until one decides or says nothing.

ghost use Rattle.std.specs.Prelude.{◌≡◌, ◌<◌, IfOk, OnOk, if◌then◌else◌, option_map, pos};
ghost use Rattle.c_model.specs.Integers.{truth};
ghost use Rattle.c_model.specs.Quantifiers.{undecided};
ghost use Rattle.mon_syntax.specs.Trees.{Binary, Constant, If, NoStatement, plain_expr, plain_stmts};
ghost use Rattle.mon_syntax.specs.declared.tree.MonOp.TheVariants.{Add};
ghost use Rattle.mon_syntax.specs.declared.tree.MonType.TheVariants.{I32};
ghost use Rattle.c_effects.specs.Expressions.{before, one, set};
ghost use Rattle.quantifier_loops.specs.Plain.{plain_bounds};
ghost use Rattle.quantifier_loops.specs.Tries.{at_least, at_most, from_first, guarded, is_one_behind, noted, noted_as, nothing_noted, one_try, tries};
ghost use Rattle.quantifier_loops.specs.Upward as plain;

use crate::upward::upward;
use c_effects::copy::copy_of;
use c_effects::operator::{constant, operation, register};
use c_effects::part::{alone, then, then_all};
use c_syntax::logic::Quantifier;
use mon_syntax::{MonExpr, MonOp, MonStmt, MonStmtKind, MonType};
use std::alloc::{AllocError, Global};

/// The values of a binder.
#[derive(Drop)]
pub struct Bounds {
    /// Whether it stands after `<`, and not after `<=`.
    pub above: bool,
    /// The type of its index.
    pub kind: MonType,
    /// The least value of its type, where the lower bound may lie below it.
    pub least: Option<i128>,
    pub from: MonExpr,
    pub to: MonExpr,
}

/// Puts the first statements where a flag is 1 and the second ones elsewhere.
#[tactic(auto, using(mon_syntax::proofs::Rows::if_is))]
pub fn guarded(
    alloc: Global,
    flag: Option<MonExpr>,
    on: Vec<MonStmt>,
    off: Vec<MonStmt>,
    to: &mut Vec<MonStmt>,
) -> Result<(), AllocError>
    ensures { OnOk result (plain_stmts to.new.items ≡ before (plain_stmts to.old.items)
        (guarded (option_map plain_expr flag) (plain_stmts on.items) (plain_stmts off.items))) }
{
    match flag {
        None => then_all(to, on),
        Some(flag) => then(alloc, to, MonStmtKind::If(flag, on, off)),
    }
}

// A number in a register.
fn number(alloc: Global, at: u32, n: i128) -> Result<Vec<MonStmt>, AllocError>
    ensures { IfOk result (λ v. plain_stmts v.items ≡ set at (Constant I32 n)) }
{
    let value = constant(alloc, MonType::I32, n)?;
    alone(alloc, MonStmtKind::Set(at, value))
}

// ---- one value

// No further value is to be tried, and this is the truth.
fn noted_as(alloc: Global, first: u32, n: i128) -> Result<Vec<MonStmt>, AllocError>
    requires { first < 4294967293 }
    ensures { IfOk result (λ v. plain_stmts v.items ≡ noted_as first n) }
{
    let mut code = number(alloc, first + 1, n)?;
    then_all(&mut code, number(alloc, first + 2, 1)?)?;
    Ok(code)
}

#[tactic(auto, using(mon_syntax::proofs::Rows::if_is))]
fn noted(
    alloc: Global,
    q: Quantifier,
    first: u32,
    value: MonExpr,
) -> Result<Vec<MonStmt>, AllocError>
    requires { first < 4294967293 }
    ensures { IfOk result (λ v. plain_stmts v.items ≡ noted q first (plain_expr value)) }
{
    match q {
        Quantifier::ForAll => {
            let decides = noted_as(alloc, first, 0)?;
            alone(alloc, MonStmtKind::If(value, Vec::new(alloc), decides))
        }
        Quantifier::Exists => {
            let decides = noted_as(alloc, first, 1)?;
            alone(alloc, MonStmtKind::If(value, decides, Vec::new(alloc)))
        }
    }
}

fn nothing_noted(alloc: Global, first: u32) -> Result<Vec<MonStmt>, AllocError>
    requires { first < 4294967293 }
    ensures { IfOk result (λ v. plain_stmts v.items ≡ nothing_noted first) }
{
    let mut code = number(alloc, first, 0)?;
    then_all(&mut code, number(alloc, first + 2, 1)?)?;
    Ok(code)
}

fn one_try(
    alloc: Global,
    q: Quantifier,
    first: u32,
    code: (Vec<MonStmt>, Option<MonExpr>, MonExpr),
) -> Result<Vec<MonStmt>, AllocError>
    requires { first < 4294967293 }
    ensures { IfOk result (λ v. plain_stmts v.items
        ≡ one_try q first (plain_stmts code.0.items) (option_map plain_expr code.1) (plain_expr code.2)) }
{
    let (mut stmts, flag, value) = code;
    let on = noted(alloc, q, first, value)?;
    let off = nothing_noted(alloc, first)?;
    guarded(alloc, flag, on, off, &mut stmts)?;
    Ok(stmts)
}

// ---- the first and the last value

// Whether a value stands behind the lower bound.
fn is_one_behind(alloc: Global, b: &Bounds) -> Result<MonExpr, AllocError>
    ensures { IfOk result (λ e. plain_expr e ≡ is_one_behind (plain_bounds b.now)) }
{
    let from = copy_of(alloc, &b.from)?;
    let to = copy_of(alloc, &b.to)?;
    let op = if b.above { MonOp::Lt } else { MonOp::Le };
    operation(alloc, op, b.kind, from, to)
}

fn first_behind(
    alloc: Global,
    above: bool,
    kind: MonType,
    from: MonExpr,
) -> Result<MonExpr, AllocError>
    ensures { IfOk result (λ e. plain_expr e ≡ (if above then Binary Add kind (plain_expr from) (Constant kind (pos 1)) else plain_expr from)) }
{
    if above {
        let one = constant(alloc, kind, 1)?;
        operation(alloc, MonOp::Add, kind, from, one)
    } else {
        Ok(from)
    }
}

// A number in a register, where a comparison of both is true.
#[tactic(auto, using(mon_syntax::proofs::Rows::if_is))]
fn replaced(
    alloc: Global,
    test: MonExpr,
    kind: MonType,
    number: u32,
    n: i128,
) -> Result<Vec<MonStmt>, AllocError>
    ensures { IfOk result (λ v. plain_stmts v.items ≡ one (If (plain_expr test) (set number (Constant kind n)) NoStatement)) }
{
    let value = constant(alloc, kind, n)?;
    let on = alone(alloc, MonStmtKind::Set(number, value))?;
    alone(alloc, MonStmtKind::If(test, on, Vec::new(alloc)))
}

// The first statements, with a number in a register that is the greater one of both.
fn at_least(
    alloc: Global,
    kind: MonType,
    number: u32,
    value: MonExpr,
    n: i128,
) -> Result<Vec<MonStmt>, AllocError>
    ensures { IfOk result (λ v. plain_stmts v.items ≡ at_least kind number (plain_expr value) n NoStatement) }
{
    let mut code = alone(alloc, MonStmtKind::Set(number, value))?;
    let here = register(alloc, number)?;
    let least = constant(alloc, kind, n)?;
    let less = operation(alloc, MonOp::Lt, kind, here, least)?;
    then_all(&mut code, replaced(alloc, less, kind, number, n)?)?;
    Ok(code)
}

/// A number in a register that is the lesser one of both, and then these statements.
pub fn at_most(
    alloc: Global,
    kind: MonType,
    number: u32,
    value: MonExpr,
    n: i128,
    rest: Vec<MonStmt>,
) -> Result<Vec<MonStmt>, AllocError>
    ensures { IfOk result (λ v. plain_stmts v.items ≡ at_most kind number (plain_expr value) n (plain_stmts rest.items)) }
{
    let mut code = alone(alloc, MonStmtKind::Set(number, value))?;
    let here = register(alloc, number)?;
    let most = constant(alloc, kind, n)?;
    let greater = operation(alloc, MonOp::Lt, kind, most, here)?;
    then_all(&mut code, replaced(alloc, greater, kind, number, n)?)?;
    then_all(&mut code, rest)?;
    Ok(code)
}

// The loop between two values, alone.
fn one_loop(
    alloc: Global,
    kind: MonType,
    index: u32,
    bounds: (MonExpr, MonExpr),
    inner: Vec<MonStmt>,
    stop: u32,
) -> Result<Vec<MonStmt>, AllocError>
    ensures { IfOk result (λ v. plain_stmts v.items
        ≡ one (plain.upward kind index (plain_expr bounds.0) (plain_expr bounds.1) (plain_stmts inner.items) stop)) }
{
    let mut code = Vec::new(alloc);
    code.push(upward(alloc, kind, index, bounds, inner, stop)?)?;
    Ok(code)
}

// The loop from the first value on.
fn from_first(
    alloc: Global,
    b: Bounds,
    index: u32,
    inner: Vec<MonStmt>,
    stop: u32,
) -> Result<Vec<MonStmt>, AllocError>
    ensures { IfOk result (λ v. plain_stmts v.items
        ≡ from_first b.least (plain_bounds b) index (plain_stmts inner.items) stop) }
{
    let Bounds {
        above,
        kind,
        least,
        from,
        to,
    } = b;
    let first = first_behind(alloc, above, kind, from)?;
    match least {
        None => one_loop(alloc, kind, index, (first, to), inner, stop),
        Some(n) => {
            let mut code = at_least(alloc, kind, index, first, n)?;
            let here = register(alloc, index)?;
            then_all(
                &mut code,
                one_loop(alloc, kind, index, (here, to), inner, stop)?,
            )?;
            Ok(code)
        }
    }
}

// ---- all values

fn undecided(q: Quantifier) -> i128
    ensures { result ≡ truth (undecided q) }
{
    match q {
        Quantifier::ForAll => 1,
        Quantifier::Exists => 0,
    }
}

/// The code of the values by that of one, in four registers: a flag, the truth, whether no further value is to be tried, and the index.
#[tactic(auto, using(mon_syntax::proofs::Rows::if_is))]
pub fn tries(
    alloc: Global,
    q: Quantifier,
    b: Bounds,
    first: u32,
    code: (Vec<MonStmt>, Option<MonExpr>, MonExpr),
) -> Result<Vec<MonStmt>, AllocError>
    requires { first < 4294967293 }
    ensures { IfOk result (λ v. plain_stmts v.items
        ≡ tries q (plain_bounds b) first (plain_stmts code.0.items) (option_map plain_expr code.1) (plain_expr code.2)) }
{
    let test = is_one_behind(alloc, &b)?;
    let inner = one_try(alloc, q, first, code)?;
    let on = from_first(alloc, b, first + 3, inner, first + 2)?;
    let mut stmts = number(alloc, first, 1)?;
    then_all(&mut stmts, number(alloc, first + 1, undecided(q))?)?;
    then_all(&mut stmts, number(alloc, first + 2, 0)?)?;
    then(
        alloc,
        &mut stmts,
        MonStmtKind::If(test, on, Vec::new(alloc)),
    )?;
    Ok(stmts)
}
