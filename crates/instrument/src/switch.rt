//! A `switch` (C99 6.8.4.2): the search for the case that is chosen, and the cases from there on.

ghost use Rattle.std.specs.Prelude.{◌≡◌, IfOk, OnOk, option_map, pos};
ghost use Rattle.c_syntax.specs.Expressions.{plain_expr as plain_source};
ghost use Rattle.c_syntax.specs.Statements.{plain_cases};
ghost use Rattle.c_model.specs.Meaning.{default_of};
ghost use Rattle.mon_syntax.specs.declared.tree.MonOp.TheVariants.{Eq, Le};
ghost use Rattle.mon_syntax.specs.declared.tree.MonType.TheVariants.{U64};
ghost use Rattle.mon_syntax.specs.Trees.{Binary, Constant, Goto, Register, plain_expr, plain_stmts};
ghost use Rattle.c_effects.specs.Expressions.{before, one, set};
ghost use Rattle.instrument.specs.Options.{number_behind};
ghost use Rattle.instrument.specs.Translation.{case_label, search, test_case, tests_of_cases, where_reached};

use crate::name::case_label;
use c_effects::operator::{constant, operation, register};
use c_effects::part::then;
use c_syntax::{Case, Expr, ExprKind};
use mon_syntax::{MonExpr, MonOp, MonStmt, MonStmtKind, MonType};
use std::alloc::{AllocError, Global};

/// How many cases stand behind the first one in a block, whose items are passed over by one test.
pub const OTHERS_IN_BLOCK: usize = 15;

/// How many cases stand in a block.
pub const CASES_IN_BLOCK: usize = OTHERS_IN_BLOCK + 1;

/// The registers of a `switch`: that of the value of its expression, with its type, and that of the index of the chosen case.
#[derive(Clone, Copy, Drop)]
pub struct Choice {
    pub kind: MonType,
    pub value: u32,
    pub index: u32,
}

// The index of the `default`, or else the number of the cases.
fn default_of(cases: &[Case]) -> usize
    ensures { result ≡ default_of (plain_cases cases.now) }
{
    for index in 0..cases.len() {
        if cases[index].value.is_none() {
            return index;
        }
    }
    cases.len()
}

// Sets the register of the index.
fn set_index(
    alloc: Global,
    register: u32,
    index: usize,
    to: &mut Vec<MonStmt>,
) -> Result<(), AllocError>
    ensures { OnOk result (plain_stmts to.new.items ≡ before (plain_stmts to.old.items) (set register (Constant U64 (pos index)))) }
{
    let number = constant(alloc, MonType::U64, index as i128)?;
    then(alloc, to, MonStmtKind::Set(register, number))
}

// The index is set, and the search ends.
fn chosen(
    alloc: Global,
    levels: u32,
    register: u32,
    index: usize,
) -> Result<Vec<MonStmt>, AllocError>
    ensures { IfOk result (λ code. plain_stmts code.items ≡ before (set register (Constant U64 (pos index))) (one (Goto (case_label levels)))) }
{
    let label = case_label(alloc, levels)?;
    let mut code = Vec::new(alloc);
    set_index(alloc, register, index, &mut code)?;
    then(alloc, &mut code, MonStmtKind::Goto(label))?;
    Ok(code)
}

// The number behind `case`, which typing has put there.
fn number_behind(value: &Option<Expr>) -> Option<i128>
    ensures { result ≡ number_behind (option_map plain_source value.now) }
{
    match value {
        None => None,
        Some(e) => match &*e.kind {
            ExprKind::Number(n, _) => Some(*n),
            _ => None,
        },
    }
}

// Whether the value is this number.
fn is_value(alloc: Global, choice: Choice, n: i128) -> Result<MonExpr, AllocError>
    ensures { IfOk result (λ m. plain_expr m ≡ Binary Eq choice.kind (Register choice.value) (Constant choice.kind n)) }
{
    let left = register(alloc, choice.value)?;
    let right = constant(alloc, choice.kind, n)?;
    operation(alloc, MonOp::Eq, choice.kind, left, right)
}

// Where the value is that of a case, its index is set, and the search ends.
fn test_case(
    alloc: Global,
    levels: u32,
    choice: Choice,
    index: usize,
    value: &Option<Expr>,
    to: &mut Vec<MonStmt>,
) -> Result<(), AllocError>
    ensures { OnOk result (plain_stmts to.new.items ≡ before (plain_stmts to.old.items)
        (test_case levels choice.kind choice.value choice.index index (option_map plain_source value.now))) }
{
    let Some(n) = number_behind(value) else {
        return Ok(());
    };
    let test = is_value(alloc, choice, n)?;
    let on = chosen(alloc, levels, choice.index, index)?;
    then(alloc, to, MonStmtKind::If(test, on, Vec::new(alloc)))
}

// The tests of all cases, in their order.
fn tests_of_cases(
    alloc: Global,
    levels: u32,
    choice: Choice,
    cases: &[Case],
) -> Result<Vec<MonStmt>, AllocError>
    ensures { IfOk result (λ code. plain_stmts code.items
        ≡ tests_of_cases levels choice.kind choice.value choice.index 0 (plain_cases cases.now)) }
{
    let mut code = Vec::new(alloc);
    for index in 0..cases.len() {
        test_case(alloc, levels, choice, index, &cases[index].value, &mut code)?;
    }
    Ok(code)
}

/// The search for the case that is chosen, which begins with the `default`, or else behind the cases.
pub fn search(
    alloc: Global,
    levels: u32,
    choice: Choice,
    cases: &[Case],
    to: &mut Vec<MonStmt>,
) -> Result<(), AllocError>
    ensures { OnOk result (plain_stmts to.new.items ≡ before (plain_stmts to.old.items)
        (search levels choice.kind choice.value choice.index (plain_cases cases.now))) }
{
    let label = case_label(alloc, levels)?;
    set_index(alloc, choice.index, default_of(cases), to)?;
    let tests = tests_of_cases(alloc, levels, choice, cases)?;
    then(alloc, to, MonStmtKind::Labelled(tests, label))
}

// Whether the index of the chosen case is at most this one.
fn is_reached(alloc: Global, chosen: u32, index: usize) -> Result<MonExpr, AllocError>
    ensures { IfOk result (λ m. plain_expr m ≡ Binary Le U64 (Register chosen) (Constant U64 (pos index))) }
{
    let left = register(alloc, chosen)?;
    let right = constant(alloc, MonType::U64, index as i128)?;
    operation(alloc, MonOp::Le, MonType::U64, left, right)
}

/// What is done if the index of the chosen case is at most this one.
pub fn where_reached(
    alloc: Global,
    chosen: u32,
    index: usize,
    code: Vec<MonStmt>,
    to: &mut Vec<MonStmt>,
) -> Result<(), AllocError>
    ensures { OnOk result (plain_stmts to.new.items ≡ before (plain_stmts to.old.items) (one (where_reached chosen index (plain_stmts code.items)))) }
{
    let test = is_reached(alloc, chosen, index)?;
    then(alloc, to, MonStmtKind::If(test, code, Vec::new(alloc)))
}
