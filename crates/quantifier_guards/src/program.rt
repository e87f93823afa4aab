//! The quantifiers of a text that have no guard, wherever they stand in its annotations.

ghost use Rattle.std.specs.Prelude.{◌≡◌, map, option_map};
ghost use Rattle.c_syntax.specs.declared.place.Place.{Place};
ghost use Rattle.c_syntax.specs.Logic.{plain_annot, plain_body};
ghost use Rattle.c_syntax.specs.Programs.{plain_behavior, plain_contract, plain_func, plain_program};
ghost use Rattle.c_syntax.specs.Statements.{plain_cases, plain_else_part, plain_item, plain_items, plain_stmt, plain_stmt_kind};
ghost use Rattle.c_model.specs.QuantifierGuards.{first_place};
ghost use Rattle.c_model.specs.UnguardedPrograms.{unguarded_in_annotations, unguarded_in_behaviors, unguarded_in_body, unguarded_in_cases};
ghost use Rattle.c_model.specs.UnguardedPrograms.{unguarded_in_clause, unguarded_in_contract, unguarded_in_else, unguarded_in_functions};
ghost use Rattle.c_model.specs.UnguardedPrograms.{unguarded_in_item, unguarded_in_items, unguarded_in_statement, unguarded_in_unit};

use crate::form::{first_place, unguarded_in};
use c_syntax::logic::{Annot, Body};
use c_syntax::{Behavior, Case, Contract, Func, Item, Place, Program, Stmt, StmtKind};

/// The place of the first one in a clause; typed clauses have guards.
fn unguarded_in_clause(body: &Body) -> Option<Place>
    ensures { result ≡ unguarded_in_clause (plain_body body.now) }
{
    match body {
        Body::Raw(f) => unguarded_in(f),
        Body::Truth(_) | Body::Value(_) | Body::Names(_) => None,
    }
}

fn unguarded_in_annotations(annots: &[Annot]) -> Option<Place>
    ensures { result ≡ unguarded_in_annotations (map plain_annot annots.now) }
{
    let mut found = None;
    'annots: for annot in annots {
        found = first_place(found, unguarded_in_clause(&annot.body));
    }
    found
}

fn unguarded_in_behaviors(behaviors: &[Behavior]) -> Option<Place>
    ensures { result ≡ unguarded_in_behaviors (map plain_behavior behaviors.now) }
{
    let mut found = None;
    'behaviors: for behavior in behaviors {
        found = first_place(found, unguarded_in_annotations(&behavior.clauses));
    }
    found
}

fn unguarded_in_contract(contract: &Option<Contract>) -> Option<Place>
    ensures { result ≡ unguarded_in_contract (option_map plain_contract contract.now) }
{
    match contract {
        None => None,
        Some(contract) => first_place(
            unguarded_in_annotations(&contract.clauses),
            unguarded_in_behaviors(&contract.behaviors),
        ),
    }
}

#[cycle(statement)]
fn unguarded_in_statement(s: &Stmt) -> Option<Place>
    ensures { result ≡ unguarded_in_statement (plain_stmt s.now) }
{
    unguarded_in_kind(&s.kind)
}

#[cycle(statement)]
fn unguarded_in_kind(kind: &StmtKind) -> Option<Place>
    ensures { (at : Place) → result ≡ unguarded_in_statement (plain_stmt_kind at kind.now) }
{
    match kind {
        StmtKind::Block(items) => unguarded_in_items(items),
        StmtKind::If(_, a, b) => first_place(unguarded_in_statement(a), unguarded_in_else(b)),
        StmtKind::While(annots, _, a) | StmtKind::For(annots, _, _, _, a) => {
            first_place(unguarded_in_annotations(annots), unguarded_in_statement(a))
        }
        StmtKind::Do(a, _) => unguarded_in_statement(a),
        StmtKind::Labelled(_, a) => unguarded_in_statement(a),
        StmtKind::Switch(_, cases) => unguarded_in_cases(cases),
        StmtKind::Empty
        | StmtKind::Eval(_)
        | StmtKind::Break
        | StmtKind::Continue
        | StmtKind::Return(_) => None,
    }
}

#[cycle(statement)]
fn unguarded_in_else(b: &Option<Stmt>) -> Option<Place>
    ensures { result ≡ unguarded_in_else (plain_else_part b.now) }
{
    match b {
        None => None,
        Some(a) => unguarded_in_statement(a),
    }
}

#[cycle(statement)]
fn unguarded_in_item(item: &Item) -> Option<Place>
    ensures { result ≡ unguarded_in_item (plain_item item.now) }
{
    match item {
        Item::Declare(_) => None,
        Item::Specify(..) => None,
        Item::Run(a) => unguarded_in_statement(a),
        Item::Asserts(annots) => unguarded_in_annotations(annots),
    }
}

#[cycle(statement)]
fn unguarded_in_items(items: &[Item]) -> Option<Place>
    ensures { result ≡ unguarded_in_items (plain_items items.now) }
{
    let mut found = None;
    'items: for item in items {
        found = first_place(found, unguarded_in_item(item));
    }
    found
}

#[cycle(statement)]
fn unguarded_in_cases(cases: &[Case]) -> Option<Place>
    ensures { result ≡ unguarded_in_cases (plain_cases cases.now) }
{
    let mut found = None;
    'cases: for case in cases {
        found = first_place(found, unguarded_in_items(&case.items));
    }
    found
}

fn unguarded_in_body(body: &Option<Stmt>) -> Option<Place>
    ensures { result ≡ unguarded_in_body (option_map plain_stmt body.now) }
{
    match body {
        None => None,
        Some(a) => unguarded_in_statement(a),
    }
}

/// The place of the first one in a function.
fn unguarded_in_function(f: &Func) -> Option<Place>
    ensures { let g = plain_func f.now in result ≡ first_place (unguarded_in_contract g.contract) (unguarded_in_body g.body) }
{
    first_place(
        unguarded_in_contract(&f.contract),
        unguarded_in_body(&f.body),
    )
}

/// The place of the first quantifier in a file that has no guard.
pub fn unguarded_in_unit(p: &Program) -> Option<Place>
    ensures { result ≡ unguarded_in_unit (plain_program p.now) }
{
    let mut found = None;
    'functions: for f in &p.funcs {
        found = first_place(found, unguarded_in_function(f));
    }
    found
}
