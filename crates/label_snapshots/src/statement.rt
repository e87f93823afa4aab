//! The terms at labels in the annotations of statements.

ghost use Rattle.std.specs.Prelude.{◌≡◌, ◌++◌, OnOk, option_map};
ghost use Rattle.c_syntax.specs.declared.place.Place.{Place};
ghost use Rattle.c_syntax.specs.Statements.{plain_cases, plain_else_part, plain_item, plain_items, plain_stmt, plain_stmt_kind};
ghost use Rattle.annot_simulation.specs.Plan.{in_body, in_cases, in_else, in_first, in_item, in_items, in_statement};
ghost use Rattle.label_snapshots.specs.Plain.{plain_entries, plain_first_part};

use crate::entry::Entry;
use crate::term::add_annotations;
use c_syntax::{Case, Item, Stmt, StmtKind};
use std::alloc::AllocError;

// Adds those in a statement.
#[cycle(entries)]
fn add_statement<'a>(s: &'a Stmt, to: &mut Vec<Entry<'a>>) -> Result<(), AllocError>
    ensures { OnOk result (plain_entries to.new.items ≡ plain_entries to.old.items ++ in_statement (plain_stmt s.now)) }
{
    add_kind(&s.kind, to)
}

#[cycle(entries)]
fn add_kind<'a>(kind: &'a StmtKind, to: &mut Vec<Entry<'a>>) -> Result<(), AllocError>
    ensures { (at : Place) → OnOk result (plain_entries to.new.items ≡ plain_entries to.old.items ++ in_statement (plain_stmt_kind at kind.now)) }
{
    match kind {
        StmtKind::Block(items) => add_items(items, to),
        StmtKind::If(_, a, b) => {
            add_statement(a, to)?;
            add_else(b, to)
        }
        StmtKind::While(annots, _, a) => {
            add_annotations(annots, to)?;
            add_statement(a, to)
        }
        StmtKind::For(annots, first, _, _, a) => {
            add_annotations(annots, to)?;
            add_first(first, to)?;
            add_statement(a, to)
        }
        StmtKind::Do(a, _) | StmtKind::Labelled(_, a) => add_statement(a, to),
        StmtKind::Switch(_, cases) => add_cases(cases, to),
        StmtKind::Empty | StmtKind::Eval(_) | StmtKind::Return(_) => Ok(()),
        StmtKind::Break | StmtKind::Continue => Ok(()),
    }
}

#[cycle(entries)]
fn add_else<'a>(b: &'a Option<Stmt>, to: &mut Vec<Entry<'a>>) -> Result<(), AllocError>
    ensures { OnOk result (plain_entries to.new.items ≡ plain_entries to.old.items ++ in_else (plain_else_part b.now)) }
{
    match b {
        None => Ok(()),
        Some(a) => add_statement(a, to),
    }
}

#[cycle(entries)]
fn add_first<'a>(first: &'a Option<Item>, to: &mut Vec<Entry<'a>>) -> Result<(), AllocError>
    ensures { OnOk result (plain_entries to.new.items ≡ plain_entries to.old.items ++ in_first (plain_first_part first.now)) }
{
    match first {
        None => Ok(()),
        Some(item) => add_item(item, to),
    }
}

#[cycle(entries)]
fn add_item<'a>(item: &'a Item, to: &mut Vec<Entry<'a>>) -> Result<(), AllocError>
    ensures { OnOk result (plain_entries to.new.items ≡ plain_entries to.old.items ++ in_item (plain_item item.now)) }
{
    match item {
        Item::Declare(_) | Item::Specify(..) => Ok(()),
        Item::Run(a) => add_statement(a, to),
        Item::Asserts(annots) => add_annotations(annots, to),
    }
}

#[cycle(entries)]
fn add_items<'a>(items: &'a [Item], to: &mut Vec<Entry<'a>>) -> Result<(), AllocError>
    ensures { OnOk result (plain_entries to.new.items ≡ plain_entries to.old.items ++ in_items (plain_items items.now)) }
{
    'turn: for item in items {
        add_item(item, to)?;
    }
    Ok(())
}

#[cycle(entries)]
fn add_cases<'a>(cases: &'a [Case], to: &mut Vec<Entry<'a>>) -> Result<(), AllocError>
    ensures { OnOk result (plain_entries to.new.items ≡ plain_entries to.old.items ++ in_cases (plain_cases cases.now)) }
{
    'turn: for case in cases {
        add_items(&case.items, to)?;
    }
    Ok(())
}

/// Adds those in the body of a function, where it has one.
pub fn add_body<'a>(body: &'a Option<Stmt>, to: &mut Vec<Entry<'a>>) -> Result<(), AllocError>
    ensures { OnOk result (plain_entries to.new.items ≡ plain_entries to.old.items ++ in_body (option_map plain_stmt body.now)) }
{
    match body {
        None => Ok(()),
        Some(s) => add_statement(s, to),
    }
}
