//! Names and types of the annotations of statements and functions (ACSL 2.2, 2.3, 2.4), whose C has no fault.

ghost use Rattle.std.specs.Prelude.{◌≡◌, ◌++◌, OnOk, Option, Some, map, option_map};
ghost use Rattle.c_syntax.specs.declared.place.Place.{Place};
ghost use Rattle.c_syntax.specs.Expressions.{Expression, plain_expr};
ghost use Rattle.c_syntax.specs.Logic.{plain_annot};
ghost use Rattle.c_syntax.specs.Statements.{For, While, plain_cases, plain_decl, plain_else_part, plain_item, plain_items, plain_stmt, plain_stmt_kind};
ghost use Rattle.c_syntax.specs.Programs.{plain_func};
ghost use Rattle.c_model.specs.ExpressionTyping.{inner, with_objects};
ghost use Rattle.c_model.specs.PredicateTyping.{typed_annotations};
ghost use Rattle.c_model.specs.StatementTyping.{behind, behind_first};
ghost use Rattle.c_model.specs.AnnotationTyping.{in_body, known_at, noted_body, noted_cases, noted_else, noted_in, noted_item, noted_items};
ghost use Rattle.c_model.specs.AnnotationTyping.{noted_statement, with_label};
ghost use Rattle.c_scopes.specs.Answers.{Answers};
ghost use Rattle.c_scopes.specs.KnownLabels.{marks_of};
ghost use Rattle.c_scopes.specs.Sights.{plain_sight};
ghost use Rattle.c_function_rules.specs.Blocks.{behind_items};
ghost use Rattle.c_function_rules.specs.Trees.{plain_for_first};
ghost use Rattle.c_typing.specs.NotedContracts.{function_by, numbers_in};
ghost use Rattle.c_typing.specs.NotedLabels.{IsInBody, here, marks_before, marks_in_case, marks_in_items, marks_of_item, seen_in_body};

use crate::contract::note_contract;
use crate::known::{hide_later, show_all};
use annot_typing::clause_sight::ClauseSight;
use annot_typing::type_clauses;
use c_function_rules::parameter::see_parameters;
use c_scopes::fault::TypeFault;
use c_scopes::label::Labels;
use c_scopes::sight::{Mark, Sight, enter, leave, mark_here, with_object};
use c_syntax::logic::Annot;
use c_syntax::{Case, Decl, Func, Item, Stmt, StmtKind};
use indexmap::IndexMap;
use std::alloc::{AllocError, Global};

/// Brings declared objects in sight.
fn see_objects(alloc: Global, sight: &mut Sight, list: &[Decl]) -> Result<(), AllocError>
    ensures { OnOk result (plain_sight sight.new ≡ with_objects (plain_sight sight.old) (map plain_decl list.now)) }
{
    let mut rest = list;
    'turn: while let [d, after @ ..] = rest {
        with_object(alloc, sight, d)?;
        rest = after;
    }
    Ok(())
}

/// Brings in sight what an item declares.
fn see(alloc: Global, sight: &mut Sight, item: &Item) -> Result<(), AllocError>
    ensures { OnOk result (plain_sight sight.new ≡ behind (plain_sight sight.old) (plain_item item.now)) }
{
    match item {
        Item::Declare(list) => see_objects(alloc, sight, list),
        Item::Specify(..) => Ok(()),
        Item::Run(_) => Ok(()),
        Item::Asserts(_) => Ok(()),
    }
}

/// Brings in sight what stands first in a `for`.
fn see_first(alloc: Global, sight: &mut Sight, first: &Option<Item>) -> Result<(), AllocError>
    ensures { OnOk result (plain_sight sight.new ≡ behind_first (plain_sight sight.old) (plain_for_first first.now)) }
{
    match first {
        None => Ok(()),
        Some(item) => see(alloc, sight, item),
    }
}

/// Brings the labels before a statement in sight, which stand at this mark.
fn see_labels(labels: &mut Labels, mark: Mark, s: &Stmt) -> Result<(), AllocError>
    ensures { OnOk result (marks_of labels.new ≡ marks_of labels.old ++ marks_before mark (plain_stmt s.now)) }
{
    match &*s.kind {
        StmtKind::Labelled(name, a) => {
            labels.push(*name, mark)?;
            see_labels(labels, mark, a)
        }
        StmtKind::Empty
        | StmtKind::Eval(_)
        | StmtKind::Block(_)
        | StmtKind::If(..)
        | StmtKind::While(..)
        | StmtKind::Do(..)
        | StmtKind::For(..)
        | StmtKind::Break
        | StmtKind::Continue
        | StmtKind::Return(_)
        | StmtKind::Switch(..) => Ok(()),
    }
}

/// Brings the labels before an item in sight, which stand at this mark.
fn see_labels_of(labels: &mut Labels, mark: Mark, item: &Item) -> Result<(), AllocError>
    ensures { OnOk result (marks_of labels.new ≡ marks_of labels.old ++ marks_of_item mark (plain_item item.now)) }
{
    match item {
        Item::Declare(_) => Ok(()),
        Item::Specify(..) => Ok(()),
        Item::Run(a) => see_labels(labels, mark, a),
        Item::Asserts(_) => Ok(()),
    }
}

/// Brings the labels before the items of a case in sight, which stand at this mark.
fn see_labels_in(labels: &mut Labels, mark: Mark, items: &[Item]) -> Result<(), AllocError>
    ensures { OnOk result (marks_of labels.new ≡ marks_of labels.old ++ marks_in_case mark (plain_items items.now)) }
{
    let mut rest = items;
    'turn: while let [item, after @ ..] = rest {
        see_labels_of(labels, mark, item)?;
        rest = after;
    }
    Ok(())
}

/// Types asserts, or the clauses of a loop, in a body that begins at a mark and where these labels are known.
fn note_clauses(
    alloc: Global,
    sight: &mut Sight,
    labels: &Labels,
    begin: Mark,
    annots: &mut Vec<Annot>,
) -> Result<(), TypeFault>
    ensures noted { Answers (λ _. map plain_annot annots.new.items)
        (typed_annotations (seen_in_body (plain_sight sight.old) begin (marks_of labels.now)) (map plain_annot annots.old.items)) result }
    ensures same { plain_sight sight.new ≡ plain_sight sight.old }
{
    type_clauses(alloc, sight, ClauseSight::InBody(begin, labels), annots)
}

/// Types the annotations of a statement, or gives their first fault. What was in sight before is in sight after it, and so are the labels.
#[cycle(noted)]
fn note_statement(
    alloc: Global,
    sight: &mut Sight,
    labels: &mut Labels,
    begin: Mark,
    s: &mut Stmt,
) -> Result<(), TypeFault>
    requires { IsInBody (plain_sight sight.old) begin (marks_of labels.old) }
    ensures noted { Answers (λ _. plain_stmt s.new)
        (noted_statement (seen_in_body (plain_sight sight.old) begin (marks_of labels.old)) (plain_stmt s.old)) result }
    ensures same { OnOk result (plain_sight sight.new ≡ plain_sight sight.old) }
    ensures labels { OnOk result (marks_of labels.new ≡ marks_of labels.old) }
{
    note_kind(alloc, sight, labels, begin, &mut s.kind)
}

#[cycle(noted)]
fn note_kind(
    alloc: Global,
    sight: &mut Sight,
    labels: &mut Labels,
    begin: Mark,
    kind: &mut StmtKind,
) -> Result<(), TypeFault>
    requires { IsInBody (plain_sight sight.old) begin (marks_of labels.old) }
    ensures noted { (at : Place) → Answers (λ _. plain_stmt_kind at kind.new)
        (noted_statement (seen_in_body (plain_sight sight.old) begin (marks_of labels.old)) (plain_stmt_kind at kind.old)) result }
    ensures same { OnOk result (plain_sight sight.new ≡ plain_sight sight.old) }
    ensures labels { OnOk result (marks_of labels.new ≡ marks_of labels.old) }
{
    match kind {
        StmtKind::Switch(_controlling, cases) => note_cases(alloc, sight, labels, begin, cases),
        StmtKind::Block(items) => note_block(alloc, sight, labels, begin, items),
        StmtKind::If(_condition, a, b) => {
            note_statement(alloc, sight, labels, begin, a)?;
            note_else(alloc, sight, labels, begin, b)
        }
        StmtKind::While(annots, _condition, a) => {
            note_while(alloc, sight, labels, begin, a, annots)
        }
        StmtKind::Do(a, _) => note_statement(alloc, sight, labels, begin, a),
        StmtKind::For(annots, first, _condition, _step, a) => {
            note_for(alloc, sight, labels, begin, a, first, annots)
        }
        StmtKind::Labelled(name, a) => note_labelled(alloc, sight, labels, begin, *name, a),
        StmtKind::Empty
        | StmtKind::Eval(_)
        | StmtKind::Break
        | StmtKind::Continue
        | StmtKind::Return(_) => Ok(()),
    }
}

/// The clauses and the statement of a `while`.
#[cycle(noted)]
fn note_while(
    alloc: Global,
    sight: &mut Sight,
    labels: &mut Labels,
    begin: Mark,
    a: &mut Stmt,
    annots: &mut Vec<Annot>,
) -> Result<(), TypeFault>
    requires { IsInBody (plain_sight sight.old) begin (marks_of labels.old) }
    ensures noted { (at : Place) (e : Expression) → Answers (λ _. While at (map plain_annot annots.new.items) e (plain_stmt a.new))
        (noted_statement (seen_in_body (plain_sight sight.old) begin (marks_of labels.old))
        (While at (map plain_annot annots.old.items) e (plain_stmt a.old))) result }
    ensures same { OnOk result (plain_sight sight.new ≡ plain_sight sight.old) }
    ensures labels { OnOk result (marks_of labels.new ≡ marks_of labels.old) }
{
    note_clauses(alloc, sight, labels, begin, annots)?;
    note_statement(alloc, sight, labels, begin, a)
}

/// The clauses and the statement of a `for`, in both of which what stands first is in sight.
#[cycle(noted)]
fn note_for(
    alloc: Global,
    sight: &mut Sight,
    labels: &mut Labels,
    begin: Mark,
    a: &mut Stmt,
    first: &Option<Item>,
    annots: &mut Vec<Annot>,
) -> Result<(), TypeFault>
    requires { IsInBody (plain_sight sight.old) begin (marks_of labels.old) }
    ensures noted { (at : Place) (e : Option Expression) (step : Option Expression)
        → Answers (λ _. For at (map plain_annot annots.new.items) (plain_for_first first.now) e step (plain_stmt a.new))
        (noted_statement (seen_in_body (plain_sight sight.old) begin (marks_of labels.old))
        (For at (map plain_annot annots.old.items) (plain_for_first first.now) e step (plain_stmt a.old))) result }
    ensures same { OnOk result (plain_sight sight.new ≡ plain_sight sight.old) }
    ensures labels { OnOk result (marks_of labels.new ≡ marks_of labels.old) }
{
    let mark = enter(sight);
    see_first(alloc, sight, first)?;
    note_clauses(alloc, sight, labels, begin, annots)?;
    note_statement(alloc, sight, labels, begin, a)?;
    leave(sight, mark);
    Ok(())
}

/// A statement behind a label, which is known in it.
#[cycle(noted)]
fn note_labelled(
    alloc: Global,
    sight: &mut Sight,
    labels: &mut Labels,
    begin: Mark,
    name: u32,
    a: &mut Stmt,
) -> Result<(), TypeFault>
    requires { IsInBody (plain_sight sight.old) begin (marks_of labels.old) }
    ensures noted { Answers (λ _. plain_stmt a.new)
        (noted_statement (with_label (seen_in_body (plain_sight sight.old) begin (marks_of labels.old)) name) (plain_stmt a.old)) result }
    ensures same { OnOk result (plain_sight sight.new ≡ plain_sight sight.old) }
    ensures labels { OnOk result (marks_of labels.new ≡ marks_of labels.old) }
{
    let count = labels.len();
    labels.push(name, mark_here(sight))?;
    note_statement(alloc, sight, labels, begin, a)?;
    labels.truncate(count);
    Ok(())
}

#[cycle(noted)]
fn note_else(
    alloc: Global,
    sight: &mut Sight,
    labels: &mut Labels,
    begin: Mark,
    b: &mut Option<Stmt>,
) -> Result<(), TypeFault>
    requires { IsInBody (plain_sight sight.old) begin (marks_of labels.old) }
    ensures noted { Answers (λ _. plain_else_part b.new)
        (noted_else (seen_in_body (plain_sight sight.old) begin (marks_of labels.old)) (plain_else_part b.old)) result }
    ensures same { OnOk result (plain_sight sight.new ≡ plain_sight sight.old) }
    ensures labels { OnOk result (marks_of labels.new ≡ marks_of labels.old) }
{
    match b {
        None => Ok(()),
        Some(a) => note_statement(alloc, sight, labels, begin, a),
    }
}

/// Types the annotations of an item, and brings in sight what it declares, and the labels before it.
#[cycle(noted)]
fn note_item(
    alloc: Global,
    sight: &mut Sight,
    labels: &mut Labels,
    begin: Mark,
    item: &mut Item,
) -> Result<(), TypeFault>
    requires { IsInBody (plain_sight sight.old) begin (marks_of labels.old) }
    ensures noted { Answers (λ _. plain_item item.new)
        (noted_item (seen_in_body (plain_sight sight.old) begin (marks_of labels.old)) (plain_item item.old)) result }
    ensures behind { OnOk result (plain_sight sight.new ≡ behind (plain_sight sight.old) (plain_item item.new)) }
    ensures labels { OnOk result (marks_of labels.new ≡ marks_of labels.old ++ marks_of_item (here (plain_sight sight.old)) (plain_item item.new)) }
{
    match item {
        Item::Declare(list) => {
            see_objects(alloc, sight, list)?;
            Ok(())
        }
        Item::Specify(..) => Ok(()),
        Item::Run(a) => {
            note_statement(alloc, sight, labels, begin, a)?;
            see_labels(labels, mark_here(sight), a)?;
            Ok(())
        }
        Item::Asserts(annots) => note_clauses(alloc, sight, labels, begin, annots),
    }
}

/// Types the annotations of the items of a block, each in sight of those after it.
#[cycle(noted)]
fn note_items(
    alloc: Global,
    sight: &mut Sight,
    labels: &mut Labels,
    begin: Mark,
    items: &mut Vec<Item>,
) -> Result<(), TypeFault>
    requires { IsInBody (plain_sight sight.old) begin (marks_of labels.old) }
    ensures noted { Answers (λ _. plain_items items.new.items)
        (noted_items (seen_in_body (plain_sight sight.old) begin (marks_of labels.old)) (plain_items items.old.items)) result }
    ensures behind { OnOk result (plain_sight sight.new ≡ behind_items (plain_sight sight.old) (plain_items items.new.items)) }
    ensures labels { OnOk result (marks_of labels.new ≡ marks_of labels.old ++ marks_in_items (plain_sight sight.old) (plain_items items.new.items)) }
{
    for i in 0..items.len() {
        note_item(alloc, sight, labels, begin, &mut items[i])?;
    }
    Ok(())
}

/// Types the annotations of the cases of a `switch`. The labels before the items of a case are known in those after it.
#[cycle(noted)]
fn note_cases(
    alloc: Global,
    sight: &mut Sight,
    labels: &mut Labels,
    begin: Mark,
    cases: &mut Vec<Case>,
) -> Result<(), TypeFault>
    requires { IsInBody (plain_sight sight.old) begin (marks_of labels.old) }
    ensures noted { Answers (λ _. plain_cases cases.new.items)
        (noted_cases (seen_in_body (plain_sight sight.old) begin (marks_of labels.old)) (plain_cases cases.old.items)) result }
    ensures same { OnOk result (plain_sight sight.new ≡ plain_sight sight.old) }
    ensures labels { OnOk result (marks_of labels.new ≡ marks_of labels.old) }
{
    let count = labels.len();
    for i in 0..cases.len() {
        note_case(alloc, sight, labels, begin, &mut cases[i])?;
    }
    labels.truncate(count);
    Ok(())
}

/// The items of a case, which are in sight of none after them, but for the labels before them.
#[cycle(noted)]
fn note_case(
    alloc: Global,
    sight: &mut Sight,
    labels: &mut Labels,
    begin: Mark,
    case: &mut Case,
) -> Result<(), TypeFault>
    requires { IsInBody (plain_sight sight.old) begin (marks_of labels.old) }
    ensures noted { Answers (λ _. plain_items case.new.items.items)
        (noted_items (seen_in_body (plain_sight sight.old) begin (marks_of labels.old)) (plain_items case.old.items.items)) result }
    ensures place { case.new.place ≡ case.old.place }
    ensures value { option_map plain_expr case.new.value ≡ option_map plain_expr case.old.value }
    ensures same { OnOk result (plain_sight sight.new ≡ plain_sight sight.old) }
    ensures labels { OnOk result (marks_of labels.new
        ≡ marks_of labels.old ++ marks_in_case (here (plain_sight sight.old)) (plain_items case.new.items.items)) }
{
    let count = labels.len();
    let mark = mark_here(sight);
    note_items(alloc, sight, labels, begin, &mut case.items)?;
    leave(sight, mark);
    labels.truncate(count);
    see_labels_in(labels, mark, &case.items)?;
    Ok(())
}

/// A block in a scope of its own.
#[cycle(noted)]
fn note_block(
    alloc: Global,
    sight: &mut Sight,
    labels: &mut Labels,
    begin: Mark,
    items: &mut Vec<Item>,
) -> Result<(), TypeFault>
    requires { IsInBody (plain_sight sight.old) begin (marks_of labels.old) }
    ensures noted { Answers (λ _. plain_items items.new.items)
        (noted_items (seen_in_body (inner (plain_sight sight.old)) begin (marks_of labels.old)) (plain_items items.old.items)) result }
    ensures same { OnOk result (plain_sight sight.new ≡ plain_sight sight.old) }
    ensures labels { OnOk result (marks_of labels.new ≡ marks_of labels.old) }
{
    let count = labels.len();
    let mark = enter(sight);
    note_items(alloc, sight, labels, begin, items)?;
    leave(sight, mark);
    labels.truncate(count);
    Ok(())
}

/// The items of a body, which begins here, and whose scope is the function's.
fn note_body_items(alloc: Global, sight: &mut Sight, items: &mut Vec<Item>) -> Result<(), TypeFault>
    ensures noted { Answers (λ _. plain_items items.new.items)
        (noted_items (in_body (plain_sight sight.old)) (plain_items items.old.items)) result }
    ensures same { OnOk result (plain_sight sight.new ≡ plain_sight sight.old) }
{
    let mut labels = Labels::new(alloc);
    let mark = mark_here(sight);
    note_items(alloc, sight, &mut labels, mark, items)?;
    leave(sight, mark);
    Ok(())
}

/// A body is a block.
fn note_body_kind(alloc: Global, sight: &mut Sight, kind: &mut StmtKind) -> Result<(), TypeFault>
    ensures noted { (at : Place) → Answers (λ _. Some (plain_stmt_kind at kind.new))
        (noted_body (in_body (plain_sight sight.old)) (Some (plain_stmt_kind at kind.old))) result }
    ensures same { OnOk result (plain_sight sight.new ≡ plain_sight sight.old) }
{
    match kind {
        StmtKind::Block(items) => note_body_items(alloc, sight, items),
        StmtKind::Empty
        | StmtKind::Eval(_)
        | StmtKind::If(..)
        | StmtKind::While(..)
        | StmtKind::Do(..)
        | StmtKind::For(..)
        | StmtKind::Break
        | StmtKind::Continue
        | StmtKind::Return(_)
        | StmtKind::Labelled(..)
        | StmtKind::Switch(..) => Ok(()),
    }
}

fn note_body(alloc: Global, sight: &mut Sight, body: &mut Option<Stmt>) -> Result<(), TypeFault>
    ensures noted { Answers (λ _. option_map plain_stmt body.new)
        (noted_body (in_body (plain_sight sight.old)) (option_map plain_stmt body.old)) result }
    ensures same { OnOk result (plain_sight sight.new ≡ plain_sight sight.old) }
{
    match body {
        None => Ok(()),
        Some(s) => note_body_kind(alloc, sight, &mut s.kind),
    }
}

/// The annotations of a function's body, where this is in sight in the function.
fn note_within(alloc: Global, sight: &mut Sight, f: &mut Func) -> Result<(), TypeFault>
    ensures noted { Answers (λ _. option_map plain_stmt f.new.body) (noted_in (plain_sight sight.old) (plain_func f.old)) result }
    ensures rest { plain_func f.new ≡ record (plain_func f.old) { body = option_map plain_stmt f.new.body } }
    ensures same { OnOk result (plain_sight sight.new ≡ plain_sight sight.old) }
{
    let mark = enter(sight);
    see_parameters(alloc, sight, &f.params)?;
    note_body(alloc, sight, &mut f.body)?;
    leave(sight, mark);
    Ok(())
}

/// The same of a function that is in sight, where structs that are defined behind it have no size.
fn note_parts(alloc: Global, sight: &mut Sight, f: &mut Func) -> Result<(), TypeFault>
    ensures noted { Answers (λ _. option_map plain_stmt f.new.body) (noted_in (known_at f.old.place (plain_sight sight.old)) (plain_func f.old)) result }
    ensures rest { plain_func f.new ≡ record (plain_func f.old) { body = option_map plain_stmt f.new.body } }
    ensures same { OnOk result (plain_sight sight.new ≡ plain_sight sight.old) }
{
    let sizes = hide_later(alloc, &mut sight.structs, f.place)?;
    let noted = note_within(alloc, sight, f);
    show_all(&mut sight.structs, &sizes);
    noted
}

/// The contract before a function that is in sight, and the annotations of its body, by the numbers that the parameters of definitions have.
pub fn note_function(
    alloc: Global,
    sight: &mut Sight,
    definitions: &IndexMap<u32, Vec<u32>>,
    f: &mut Func,
) -> Result<(), TypeFault>
    ensures noted { Answers (λ _. plain_func f.new) (function_by (numbers_in definitions.now) (plain_sight sight.old) (plain_func f.old)) result }
    ensures same { OnOk result (plain_sight sight.new ≡ plain_sight sight.old) }
{
    note_contract(alloc, sight, definitions, f)?;
    note_parts(alloc, sight, f)
}
