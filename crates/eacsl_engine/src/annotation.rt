//! How many annotations a program has.

ghost use Rattle.std.specs.Prelude.{◌≡◌, ◌+◌, IfOk, length, map, option_map};
ghost use Rattle.std.specs.List.{sum_by};
ghost use Rattle.c_syntax.specs.declared.place.Place.{Place};
ghost use Rattle.c_syntax.specs.Programs.{plain_behavior, plain_contract, plain_func, plain_program};
ghost use Rattle.c_syntax.specs.Statements.{plain_cases, plain_else_part, plain_item, plain_items, plain_stmt, plain_stmt_kind};
ghost use Rattle.eacsl_engine.specs.Annotations.{annotations_of, in_behavior, in_body, in_cases, in_contract, in_contract_part, in_else};
ghost use Rattle.eacsl_engine.specs.Annotations.{in_first, in_function, in_item, in_items, in_statement, plain_first_part};

use c_syntax::{Annot, Behavior, Case, Contract, Func, Item, Program, Stmt, StmtKind};
use std::alloc::AllocError;

// So many more. No memory holds more annotations than 32 bits count.
fn more(count: u32, annots: &[Annot]) -> Result<u32, AllocError>
    ensures { IfOk result (λ n. n ≡ count + length annots.now) }
{
    let found = u32::try_from(annots.len()).map_err(|_| AllocError)?;
    count.checked_add(found).ok_or(AllocError)
}

#[cycle(statement)]
fn after_statement(count: u32, s: &Stmt) -> Result<u32, AllocError>
    ensures { IfOk result (λ n. n ≡ count + in_statement (plain_stmt s.now)) }
{
    after_kind(count, &s.kind)
}

#[cycle(statement)]
fn after_kind(count: u32, kind: &StmtKind) -> Result<u32, AllocError>
    ensures { (at : Place) → IfOk result (λ n. n ≡ count + in_statement (plain_stmt_kind at kind.now)) }
{
    match kind {
        StmtKind::Block(items) => after_items(count, items),
        StmtKind::If(_, a, b) => {
            let count = after_statement(count, a)?;
            after_else(count, b)
        }
        StmtKind::While(annots, _, a) => {
            let count = more(count, annots)?;
            after_statement(count, a)
        }
        StmtKind::Do(a, _) => after_statement(count, a),
        StmtKind::For(annots, first, _, _, a) => {
            let count = more(count, annots)?;
            let count = after_first(count, first)?;
            after_statement(count, a)
        }
        StmtKind::Empty
        | StmtKind::Eval(_)
        | StmtKind::Break
        | StmtKind::Continue
        | StmtKind::Return(_) => Ok(count),
        StmtKind::Labelled(_, a) => after_statement(count, a),
        StmtKind::Switch(_, cases) => after_cases(count, cases),
    }
}

#[cycle(statement)]
fn after_else(count: u32, b: &Option<Stmt>) -> Result<u32, AllocError>
    ensures { IfOk result (λ n. n ≡ count + in_else (plain_else_part b.now)) }
{
    match b {
        None => Ok(count),
        Some(a) => after_statement(count, a),
    }
}

#[cycle(statement)]
fn after_first(count: u32, first: &Option<Item>) -> Result<u32, AllocError>
    ensures { IfOk result (λ n. n ≡ count + in_first (plain_first_part first.now)) }
{
    match first {
        None => Ok(count),
        Some(item) => after_item(count, item),
    }
}

#[cycle(statement)]
fn after_item(count: u32, item: &Item) -> Result<u32, AllocError>
    ensures { IfOk result (λ n. n ≡ count + in_item (plain_item item.now)) }
{
    match item {
        Item::Declare(_) => Ok(count),
        Item::Specify(..) => Ok(count),
        Item::Run(a) => after_statement(count, a),
        Item::Asserts(annots) => more(count, annots),
    }
}

#[cycle(statement)]
fn after_items(count: u32, items: &[Item]) -> Result<u32, AllocError>
    ensures { IfOk result (λ n. n ≡ count + in_items (plain_items items.now)) }
{
    let mut found = count;
    'turn: for item in items {
        found = after_item(found, item)?;
    }
    Ok(found)
}

#[cycle(statement)]
fn after_cases(count: u32, cases: &[Case]) -> Result<u32, AllocError>
    ensures { IfOk result (λ n. n ≡ count + in_cases (plain_cases cases.now)) }
{
    let mut found = count;
    'turn: for case in cases {
        found = after_items(found, &case.items)?;
    }
    Ok(found)
}

fn after_body(count: u32, body: &Option<Stmt>) -> Result<u32, AllocError>
    ensures { IfOk result (λ n. n ≡ count + in_body (option_map plain_stmt body.now)) }
{
    match body {
        None => Ok(count),
        Some(s) => after_statement(count, s),
    }
}

fn after_behaviors(count: u32, behaviors: &[Behavior]) -> Result<u32, AllocError>
    ensures { IfOk result (λ n. n ≡ count + sum_by in_behavior (map plain_behavior behaviors.now)) }
{
    let mut found = count;
    let mut rest = behaviors;
    'turn: while let [behavior, after @ ..] = rest {
        found = more(found, &behavior.clauses)?;
        rest = after;
    }
    Ok(found)
}

fn after_contract(count: u32, contract: &Option<Contract>) -> Result<u32, AllocError>
    ensures { IfOk result (λ n. n ≡ count + in_contract_part (option_map plain_contract contract.now)) }
{
    match contract {
        None => Ok(count),
        Some(it) => {
            let count = more(count, &it.clauses)?;
            let count = after_behaviors(count, &it.behaviors)?;
            more(count, &it.covers)
        }
    }
}

fn after_function(count: u32, f: &Func) -> Result<u32, AllocError>
    ensures { IfOk result (λ n. n ≡ count + in_function (plain_func f.now)) }
{
    let count = after_contract(count, &f.contract)?;
    after_body(count, &f.body)
}

fn in_functions(funcs: &[Func]) -> Result<u32, AllocError>
    ensures { IfOk result (λ n. n ≡ sum_by in_function (map plain_func funcs.now)) }
{
    let mut found = 0;
    let mut rest = funcs;
    'turn: while let [f, after @ ..] = rest {
        found = after_function(found, f)?;
        rest = after;
    }
    Ok(found)
}

/// How many annotations a program has.
pub fn annotation_count(program: &Program) -> Result<u32, AllocError>
    ensures { IfOk result (λ n. n ≡ annotations_of (plain_program program.now)) }
{
    let count = in_functions(&program.funcs)?;
    more(count, &program.strays)
}
