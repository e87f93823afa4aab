//! Ranges over statements: the first annotation with a fault refuses its statement.

ghost use Rattle.std.specs.Prelude.{◌≡◌, IfErr, option_map};
ghost use Rattle.c_syntax.specs.declared.place.Place.{Place};
ghost use Rattle.c_syntax.specs.Expressions.{plain_expr};
ghost use Rattle.c_syntax.specs.Statements.{plain_cases, plain_else_part, plain_item, plain_items, plain_stmt, plain_stmt_kind};
ghost use Rattle.c_model.specs.AnnotationRanges.{ranged_body, ranged_cases, ranged_else, ranged_item, ranged_items, ranged_statement};
ghost use Rattle.c_scopes.specs.Answers.{Answers, IsRefusal};

use crate::annotation::clause_ranges;
use c_scopes::fault::TypeFault;
use c_syntax::{Case, Item, Stmt, StmtKind};

/// Sets the ranges of the annotations in a statement.
#[cycle(statements)]
fn range_statement(s: &mut Stmt) -> Result<(), TypeFault>
    ensures ranged { Answers (λ _. plain_stmt s.new) (ranged_statement (plain_stmt s.old)) result }
    ensures sure { IfErr result IsRefusal }
{
    range_kind(&mut s.kind)
}

#[cycle(statements)]
fn range_kind(kind: &mut StmtKind) -> Result<(), TypeFault>
    ensures ranged { (at : Place) → Answers (λ _. plain_stmt_kind at kind.new) (ranged_statement (plain_stmt_kind at kind.old)) result }
    ensures sure { IfErr result IsRefusal }
{
    match kind {
        StmtKind::Block(items) => range_items(items),
        StmtKind::Switch(_controlling, cases) => range_cases(cases),
        StmtKind::If(_, a, b) => {
            range_statement(a)?;
            range_else(b)
        }
        StmtKind::While(annots, _, a) => {
            clause_ranges(annots)?;
            range_statement(a)
        }
        StmtKind::Do(a, _) => range_statement(a),
        StmtKind::Labelled(_, a) => range_statement(a),
        StmtKind::For(annots, _, _, _, a) => {
            clause_ranges(annots)?;
            range_statement(a)
        }
        StmtKind::Empty
        | StmtKind::Eval(_)
        | StmtKind::Break
        | StmtKind::Continue
        | StmtKind::Return(_) => Ok(()),
    }
}

#[cycle(statements)]
fn range_else(b: &mut Option<Stmt>) -> Result<(), TypeFault>
    ensures ranged { Answers (λ _. plain_else_part b.new) (ranged_else (plain_else_part b.old)) result }
    ensures sure { IfErr result IsRefusal }
{
    match b {
        None => Ok(()),
        Some(a) => range_statement(a),
    }
}

#[cycle(statements)]
fn range_item(item: &mut Item) -> Result<(), TypeFault>
    ensures ranged { Answers (λ _. plain_item item.new) (ranged_item (plain_item item.old)) result }
    ensures sure { IfErr result IsRefusal }
{
    match item {
        Item::Declare(_) => Ok(()),
        Item::Specify(..) => Ok(()),
        Item::Run(a) => range_statement(a),
        Item::Asserts(annots) => clause_ranges(annots),
    }
}

#[cycle(statements)]
fn range_items(items: &mut Vec<Item>) -> Result<(), TypeFault>
    ensures ranged { Answers (λ _. plain_items items.new.items) (ranged_items (plain_items items.old.items)) result }
    ensures sure { IfErr result IsRefusal }
{
    for i in 0..items.len() {
        range_item(&mut items[i])?;
    }
    Ok(())
}

#[cycle(statements)]
fn range_cases(cases: &mut Vec<Case>) -> Result<(), TypeFault>
    ensures ranged { Answers (λ _. plain_cases cases.new.items) (ranged_cases (plain_cases cases.old.items)) result }
    ensures sure { IfErr result IsRefusal }
{
    for i in 0..cases.len() {
        range_case(&mut cases[i])?;
    }
    Ok(())
}

#[cycle(statements)]
fn range_case(case: &mut Case) -> Result<(), TypeFault>
    ensures ranged { Answers (λ _. plain_items case.new.items.items) (ranged_items (plain_items case.old.items.items)) result }
    ensures place { case.new.place ≡ case.old.place }
    ensures value { option_map plain_expr case.new.value ≡ option_map plain_expr case.old.value }
    ensures sure { IfErr result IsRefusal }
{
    range_items(&mut case.items)
}

/// Sets the ranges of the annotations in the body of a function, where it has one.
pub fn range_body(body: &mut Option<Stmt>) -> Result<(), TypeFault>
    ensures ranged { Answers (λ _. option_map plain_stmt body.new) (ranged_body (option_map plain_stmt body.old)) result }
    ensures sure { IfErr result IsRefusal }
{
    match body {
        None => Ok(()),
        Some(s) => range_statement(s),
    }
}
