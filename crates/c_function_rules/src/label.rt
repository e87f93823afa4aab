//! Labels of functions, which have names of their own (C99 6.2.3, 6.8.1).

ghost use Rattle.std.specs.Prelude.{◌≡◌, ◌++◌, ◌∷◌, [], IfNone, IfSome, OnOk, option_map};
ghost use Rattle.c_syntax.specs.declared.place.Place.{Place};
ghost use Rattle.c_syntax.specs.Statements.{plain_cases, plain_else_part, plain_item, plain_items, plain_stmt, plain_stmt_kind};
ghost use Rattle.c_model.specs.StatementTyping.{distinct_labels, labels_in_cases, labels_in_else, labels_in_item, labels_in_items, labels_within, typed_labels};
ghost use Rattle.c_scopes.specs.Answers.{Answers};

use c_scopes::fault::{TypeFault, no_name};
use c_scopes::tag::Tags;
use c_syntax::{Case, Item, Place, Stmt, StmtKind};
use std::alloc::{AllocError, Global};

/// Adds the labels of a statement in the order of the text, each at its place.
#[cycle(labels)]
fn add_labels(labels: &mut Vec<(Place, u32)>, s: &Stmt) -> Result<(), AllocError>
    ensures { OnOk result (labels.new.items ≡ labels.old.items ++ labels_within (plain_stmt s.now)) }
{
    add_of_kind(labels, s.place, &s.kind)
}

#[cycle(labels)]
fn add_of_kind(
    labels: &mut Vec<(Place, u32)>,
    place: Place,
    kind: &StmtKind,
) -> Result<(), AllocError>
    ensures { OnOk result (labels.new.items ≡ labels.old.items ++ labels_within (plain_stmt_kind place kind.now)) }
{
    match kind {
        StmtKind::Block(items) => add_of_items(labels, items),
        StmtKind::If(_, a, b) => {
            add_labels(labels, a)?;
            add_of_else(labels, b)
        }
        StmtKind::While(_, _, a) => add_labels(labels, a),
        StmtKind::Do(a, _) => add_labels(labels, a),
        StmtKind::For(_, _, _, _, a) => add_labels(labels, a),
        StmtKind::Labelled(name, a) => {
            labels.push((place, *name))?;
            add_labels(labels, a)
        }
        StmtKind::Switch(_controlling, cases) => add_of_cases(labels, cases),
        StmtKind::Empty
        | StmtKind::Eval(_)
        | StmtKind::Break
        | StmtKind::Continue
        | StmtKind::Return(_) => Ok(()),
    }
}

#[cycle(labels)]
fn add_of_else(labels: &mut Vec<(Place, u32)>, b: &Option<Stmt>) -> Result<(), AllocError>
    ensures { OnOk result (labels.new.items ≡ labels.old.items ++ labels_in_else (plain_else_part b.now)) }
{
    match b {
        None => Ok(()),
        Some(a) => add_labels(labels, a),
    }
}

#[cycle(labels)]
fn add_of_item(labels: &mut Vec<(Place, u32)>, item: &Item) -> Result<(), AllocError>
    ensures { OnOk result (labels.new.items ≡ labels.old.items ++ labels_in_item (plain_item item.now)) }
{
    match item {
        Item::Declare(_) => Ok(()),
        Item::Specify(..) => Ok(()),
        Item::Run(a) => add_labels(labels, a),
        Item::Asserts(_) => Ok(()),
    }
}

#[cycle(labels)]
fn add_of_items(labels: &mut Vec<(Place, u32)>, items: &[Item]) -> Result<(), AllocError>
    ensures { OnOk result (labels.new.items ≡ labels.old.items ++ labels_in_items (plain_items items.now)) }
{
    'items: for item in items {
        add_of_item(labels, item)?;
    }
    Ok(())
}

#[cycle(labels)]
fn add_of_cases(labels: &mut Vec<(Place, u32)>, cases: &[Case]) -> Result<(), AllocError>
    ensures { OnOk result (labels.new.items ≡ labels.old.items ++ labels_in_cases (plain_cases cases.now)) }
{
    'cases: for case in cases {
        add_of_items(labels, &case.items)?;
    }
    Ok(())
}

/// The first of labels, and those behind it.
fn first_label<'a>(labels: &'a [(Place, u32)]) -> Option<((Place, u32), &'a [(Place, u32)])>
    ensures some { IfSome result (λ x. labels.now ≡ x.0 ∷ x.1.now) }
    ensures none { IfNone result (labels.now ≡ []) }
{
    match labels {
        [] => None,
        [label, after @ ..] => Some((*label, after)),
    }
}

/// Whether no two labels have one name (C99 6.8.1 p3).
#[tactic(auto, using(crate::proofs::Labels::distinct_step))]
fn check_distinct(alloc: Global, labels: &[(Place, u32)]) -> Result<(), TypeFault>
    ensures { Answers (λ u. u) (distinct_labels [] labels.now) result }
{
    let mut names = Tags::new(alloc);
    let mut rest = labels;
    'turn: while let Some((label, after)) = first_label(rest) {
        if names.has(label.1) {
            return Err(no_name(label.0));
        }
        names.push(label.1)?;
        rest = after;
    }
    Ok(())
}

/// Whether the labels of a function's body have names of their own.
pub fn check_labels(alloc: Global, body: &Option<Stmt>) -> Result<(), TypeFault>
    ensures { Answers (λ u. u) (typed_labels (option_map plain_stmt body.now)) result }
{
    match body {
        None => Ok(()),
        Some(s) => {
            let mut labels = Vec::new(alloc);
            add_labels(&mut labels, s)?;
            check_distinct(alloc, &labels)
        }
    }
}
