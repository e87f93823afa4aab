//! Declarations in blocks, and statements (C99 6.7, 6.8).

ghost use Rattle.std.specs.Prelude.{◌≡◌, ◌||◌, ℤ, [], IfErr, OnOk, Some, false, map, option_map, true};
ghost use Rattle.c_syntax.specs.Ctypes.{plain_type};
ghost use Rattle.c_syntax.specs.Expressions.{plain_expr};
ghost use Rattle.c_syntax.specs.Statements.{Break, Continue, Return, Specify};
ghost use Rattle.c_syntax.specs.Statements.{plain_cases, plain_decl, plain_else_part, plain_item, plain_items, plain_stmt, plain_stmt_kind};
ghost use Rattle.c_model.specs.Checked.{Good, one_part, where_so};
ghost use Rattle.c_model.specs.ExpressionTyping.{decayed_of, inner, no_type, typed, typed_type, with_objects};
ghost use Rattle.c_model.specs.StatementTyping.{behind, behind_first, condition, in_loop, in_switch, returned, typed_cases, typed_condition};
ghost use Rattle.c_model.specs.StatementTyping.{typed_declarations, typed_else, typed_first, typed_item, typed_items, typed_maybe, typed_statement};
ghost use Rattle.c_scopes.specs.Answers.{Answers, IsRefusal};
ghost use Rattle.c_scopes.specs.Sights.{plain_sight};
ghost use Rattle.c_expression_rules.specs.Constants.{has_small_sizes};
ghost use Rattle.c_function_rules.specs.Blocks.{behind_items};
ghost use Rattle.c_function_rules.specs.PassedCases.{holds};
ghost use Rattle.c_function_rules.specs.Cases.{is_default, typed_case, with_label};
ghost use Rattle.c_function_rules.specs.Trees.{plain_around, plain_for_first};

use crate::switch::{Passed, type_controlling, type_label};
use c_conversions::conversion::{is_scalar, is_void};
use c_declaration_rules::declaration::type_variable;
use c_expression_rules::assignment::is_assigned;
use c_expression_rules::expression::{type_expr, type_value, type_written};
use c_expression_rules::operator::in_type;
use c_scopes::fault::{TypeFault, no_type};
use c_scopes::sight::{Sight, enter, leave, mark_here};
use c_syntax::{CInt, CType, Case, Decl, Expr, Item, Place, Stmt, StmtKind};
use std::alloc::Global;

/// Where a statement stands: what its function gives, whether a `break` may stand there, and whether it is inside a loop.
#[derive(Clone, Copy, Drop)]
pub struct Around<'a> {
    pub result: &'a CType,
    pub breaks: bool,
    pub loops: bool,
}

fn in_loop<'a>(around: &Around<'a>) -> Around<'a>
    ensures { plain_around result ≡ in_loop (plain_around around.now) }
{
    Around {
        result: around.result,
        breaks: true,
        loops: true,
    }
}

fn in_switch<'a>(around: &Around<'a>) -> Around<'a>
    ensures { plain_around result ≡ in_switch (plain_around around.now) }
{
    Around {
        result: around.result,
        breaks: true,
        loops: around.loops,
    }
}

/// A condition is a scalar (C99 6.8.4.1, 6.8.5).
fn condition(e: &Expr) -> Result<(), TypeFault>
    ensures checked { Answers (λ _. plain_expr e.now) (condition (plain_expr e.now)) result }
    ensures sure { IfErr result IsRefusal }
{
    if is_scalar(&e.ctype) {
        Ok(())
    } else {
        Err(no_type(e.place))
    }
}

fn type_condition(alloc: Global, sight: &Sight, e: &mut Expr) -> Result<(), TypeFault>
    ensures { Answers (λ _. plain_expr e.new) (typed_condition (plain_sight sight.now) (plain_expr e.old)) result }
{
    type_value(alloc, sight, e)?;
    condition(e)
}

/// A condition that may be left out.
fn type_some_condition(alloc: Global, sight: &Sight, e: &mut Option<Expr>) -> Result<(), TypeFault>
    ensures { Answers (λ _. option_map plain_expr e.new) (typed_maybe (typed_condition (plain_sight sight.now)) (option_map plain_expr e.old)) result }
{
    match e {
        None => Ok(()),
        Some(e) => type_condition(alloc, sight, e),
    }
}

/// An expression that may be left out.
fn type_some(alloc: Global, sight: &Sight, e: &mut Option<Expr>) -> Result<(), TypeFault>
    ensures { Answers (λ _. option_map plain_expr e.new) (typed_maybe (typed (plain_sight sight.now)) (option_map plain_expr e.old)) result }
{
    match e {
        None => Ok(()),
        Some(e) => type_expr(alloc, sight, e),
    }
}

/// The value that `return` gives (C99 6.8.6.4).
fn return_value(
    alloc: Global,
    sight: &Sight,
    place: Place,
    ctype: &CType,
    e: &mut Expr,
) -> Result<(), TypeFault>
    requires { has_small_sizes (plain_sight sight.now).structs (plain_expr e.old) ≡ true }
    ensures { Answers (λ _. Return place (Some (plain_expr e.new)))
        (returned (plain_sight sight.now) place (plain_type ctype.now) (Some (plain_expr e.old))) result }
{
    if is_void(ctype) {
        return Err(no_type(place));
    }
    if !is_assigned(sight, e, ctype) {
        return Err(no_type(place));
    }
    in_type(alloc, ctype, e)?;
    Ok(())
}

/// `return` has an expression exactly in a function that isn't void (C99 6.8.6.4).
fn type_return(
    alloc: Global,
    sight: &Sight,
    place: Place,
    ctype: &CType,
    e: &mut Option<Expr>,
) -> Result<(), TypeFault>
    ensures { Answers (λ _. Return place (option_map plain_expr e.new))
        (one_part (typed_maybe (λ e. decayed_of (typed (plain_sight sight.now) e)) (option_map plain_expr e.old))
        (returned (plain_sight sight.now) place (plain_type ctype.now))) result }
{
    match e {
        None => {
            if is_void(ctype) {
                Ok(())
            } else {
                Err(no_type(place))
            }
        }
        Some(e) => {
            type_value(alloc, sight, e)?;
            return_value(alloc, sight, place, ctype, e)
        }
    }
}

/// `break` and `continue` stand where they may (C99 6.8.6.2, 6.8.6.3).
fn jump(place: Place, may: bool) -> Result<(), TypeFault>
    ensures breaks { Answers (λ _. Break place) (where_so may (no_type place) (Good (Break place))) result }
    ensures continues { Answers (λ _. Continue place) (where_so may (no_type place) (Good (Continue place))) result }
    ensures sure { IfErr result IsRefusal }
{
    if may { Ok(()) } else { Err(no_type(place)) }
}

/// Types declarations, each in sight behind its declarator.
fn type_declarations(
    alloc: Global,
    sight: &mut Sight,
    list: &mut Vec<Decl>,
) -> Result<(), TypeFault>
    ensures typed { Answers (λ _. map plain_decl list.new.items) (typed_declarations (plain_sight sight.old) (map plain_decl list.old.items)) result }
    ensures behind { OnOk result (plain_sight sight.new ≡ with_objects (plain_sight sight.old) (map plain_decl list.new.items)) }
{
    for i in 0..list.len() {
        type_variable(alloc, sight, &mut list[i])?;
    }
    Ok(())
}

/// Types the type of a declaration without declarators, which is at its `;` (C99 6.7 p2).
fn type_specified(
    alloc: Global,
    sight: &Sight,
    place: Place,
    t: &mut CType,
) -> Result<(), TypeFault>
    ensures { Answers (λ _. Specify place (plain_type t.new))
        (one_part (typed_type (plain_sight sight.now) place (plain_type t.old)) (λ u. Good (Specify place u))) result }
{
    type_written(alloc, sight, place, t)
}

/// Types a statement, or gives its first fault. What was in sight before is in sight after it.
#[cycle(statement)]
pub fn type_statement(
    alloc: Global,
    sight: &mut Sight,
    around: &Around<'_>,
    s: &mut Stmt,
) -> Result<(), TypeFault>
    ensures typed { Answers (λ _. plain_stmt s.new) (typed_statement (plain_sight sight.old) (plain_around around.now) (plain_stmt s.old)) result }
    ensures same { OnOk result (plain_sight sight.new ≡ plain_sight sight.old) }
{
    let place = s.place;
    type_kind(alloc, sight, around, place, &mut s.kind)
}

#[cycle(statement)]
fn type_kind(
    alloc: Global,
    sight: &mut Sight,
    around: &Around<'_>,
    place: Place,
    kind: &mut StmtKind,
) -> Result<(), TypeFault>
    ensures typed { Answers (λ _. plain_stmt_kind place kind.new)
        (typed_statement (plain_sight sight.old) (plain_around around.now) (plain_stmt_kind place kind.old)) result }
    ensures same { OnOk result (plain_sight sight.new ≡ plain_sight sight.old) }
{
    match kind {
        StmtKind::Empty => Ok(()),
        StmtKind::Eval(e) => type_expr(alloc, sight, e),
        StmtKind::Block(items) => type_block(alloc, sight, around, items),
        StmtKind::If(e, a, b) => {
            type_condition(alloc, sight, e)?;
            type_statement(alloc, sight, around, a)?;
            type_else(alloc, sight, around, b)
        }
        StmtKind::While(_, e, a) => {
            type_condition(alloc, sight, e)?;
            let inside = in_loop(around);
            type_statement(alloc, sight, &inside, a)
        }
        StmtKind::Do(a, e) => {
            let inside = in_loop(around);
            type_statement(alloc, sight, &inside, a)?;
            type_condition(alloc, sight, e)
        }
        StmtKind::For(_, first, e, step, a) => {
            let mark = enter(sight);
            type_first(alloc, sight, around, first)?;
            type_some_condition(alloc, sight, e)?;
            type_some(alloc, sight, step)?;
            let inside = in_loop(around);
            type_statement(alloc, sight, &inside, a)?;
            leave(sight, mark);
            Ok(())
        }
        StmtKind::Break => jump(place, around.breaks),
        StmtKind::Continue => jump(place, around.loops),
        StmtKind::Return(e) => type_return(alloc, sight, place, around.result, e),
        StmtKind::Labelled(_, a) => type_statement(alloc, sight, around, a),
        StmtKind::Switch(e, cases) => {
            let k = type_controlling(alloc, sight, e)?;
            let inside = in_switch(around);
            type_cases(alloc, sight, &inside, k, cases)
        }
    }
}

/// Types the cases of a `switch`, whose expression has the type.
#[cycle(statement)]
fn type_cases(
    alloc: Global,
    sight: &mut Sight,
    around: &Around<'_>,
    k: CInt,
    cases: &mut Vec<Case>,
) -> Result<(), TypeFault>
    ensures typed { Answers (λ _. plain_cases cases.new.items)
        (typed_cases (plain_sight sight.old) (plain_around around.now) k [] false (plain_cases cases.old.items)) result }
    ensures same { OnOk result (plain_sight sight.new ≡ plain_sight sight.old) }
{
    let mut passed = Passed::new(alloc);
    for i in 0..cases.len() {
        type_case(alloc, sight, around, k, &mut passed, &mut cases[i])?;
    }
    Ok(())
}

/// Types a case, after those that are passed.
#[cycle(statement)]
fn type_case(
    alloc: Global,
    sight: &mut Sight,
    around: &Around<'_>,
    k: CInt,
    passed: &mut Passed,
    case: &mut Case,
) -> Result<(), TypeFault>
    ensures typed { Answers (λ _. (option_map plain_expr case.new.value, plain_items case.new.items.items))
        (typed_case (plain_sight sight.old) (plain_around around.now) k (holds passed.old) passed.old.has_default
        case.old.place (option_map plain_expr case.old.value) (plain_items case.old.items.items)) result }
    ensures place { case.new.place ≡ case.old.place }
    ensures values { OnOk result ((x : ℤ) → holds passed.new x ≡ with_label (option_map plain_expr case.new.value) (holds passed.old) x) }
    ensures default { OnOk result (passed.new.has_default ≡ (is_default (option_map plain_expr case.new.value) || passed.old.has_default)) }
    ensures same { OnOk result (plain_sight sight.new ≡ plain_sight sight.old) }
{
    type_label(alloc, sight, passed, k, case.place, &mut case.value)?;
    type_case_items(alloc, sight, around, &mut case.items)
}

/// The items of a case, which are in sight of none after them.
#[cycle(statement)]
fn type_case_items(
    alloc: Global,
    sight: &mut Sight,
    around: &Around<'_>,
    items: &mut Vec<Item>,
) -> Result<(), TypeFault>
    ensures typed { Answers (λ _. plain_items items.new.items)
        (typed_items (plain_sight sight.old) (plain_around around.now) (plain_items items.old.items)) result }
    ensures same { OnOk result (plain_sight sight.new ≡ plain_sight sight.old) }
{
    let mark = mark_here(sight);
    type_items(alloc, sight, around, items)?;
    leave(sight, mark);
    Ok(())
}

#[cycle(statement)]
fn type_else(
    alloc: Global,
    sight: &mut Sight,
    around: &Around<'_>,
    b: &mut Option<Stmt>,
) -> Result<(), TypeFault>
    ensures typed { Answers (λ _. plain_else_part b.new) (typed_else (plain_sight sight.old) (plain_around around.now) (plain_else_part b.old)) result }
    ensures same { OnOk result (plain_sight sight.new ≡ plain_sight sight.old) }
{
    match b {
        None => Ok(()),
        Some(a) => type_statement(alloc, sight, around, a),
    }
}

#[cycle(statement)]
fn type_first(
    alloc: Global,
    sight: &mut Sight,
    around: &Around<'_>,
    first: &mut Option<Item>,
) -> Result<(), TypeFault>
    ensures typed { Answers (λ _. plain_for_first first.new)
        (typed_first (plain_sight sight.old) (plain_around around.now) (plain_for_first first.old)) result }
    ensures behind { OnOk result (plain_sight sight.new ≡ behind_first (plain_sight sight.old) (plain_for_first first.new)) }
{
    match first {
        None => Ok(()),
        Some(i) => type_item(alloc, sight, around, i),
    }
}

#[cycle(statement)]
fn type_item(
    alloc: Global,
    sight: &mut Sight,
    around: &Around<'_>,
    item: &mut Item,
) -> Result<(), TypeFault>
    ensures typed { Answers (λ _. plain_item item.new) (typed_item (plain_sight sight.old) (plain_around around.now) (plain_item item.old)) result }
    ensures behind { OnOk result (plain_sight sight.new ≡ behind (plain_sight sight.old) (plain_item item.new)) }
{
    match item {
        Item::Declare(list) => type_declarations(alloc, sight, list),
        Item::Specify(place, t) => type_specified(alloc, sight, *place, t),
        Item::Run(a) => type_statement(alloc, sight, around, a),
        Item::Asserts(_) => Ok(()),
    }
}

/// Types the items of a block, each in sight of those after it.
#[cycle(statement)]
pub fn type_items(
    alloc: Global,
    sight: &mut Sight,
    around: &Around<'_>,
    items: &mut Vec<Item>,
) -> Result<(), TypeFault>
    ensures typed { Answers (λ _. plain_items items.new.items)
        (typed_items (plain_sight sight.old) (plain_around around.now) (plain_items items.old.items)) result }
    ensures behind { OnOk result (plain_sight sight.new ≡ behind_items (plain_sight sight.old) (plain_items items.new.items)) }
{
    for i in 0..items.len() {
        type_item(alloc, sight, around, &mut items[i])?;
    }
    Ok(())
}

/// A block in a scope of its own.
#[cycle(statement)]
fn type_block(
    alloc: Global,
    sight: &mut Sight,
    around: &Around<'_>,
    items: &mut Vec<Item>,
) -> Result<(), TypeFault>
    ensures typed { Answers (λ _. plain_items items.new.items)
        (typed_items (inner (plain_sight sight.old)) (plain_around around.now) (plain_items items.old.items)) result }
    ensures same { OnOk result (plain_sight sight.new ≡ plain_sight sight.old) }
{
    let mark = enter(sight);
    type_items(alloc, sight, around, items)?;
    leave(sight, mark);
    Ok(())
}
