//! Functions (C99 6.9.1).

ghost use Rattle.std.specs.Prelude.{◌≡◌, ℕ, OnOk, Some, nat_eq, option_map};
ghost use Rattle.c_syntax.specs.Ctypes.{plain_type};
ghost use Rattle.c_syntax.specs.declared.place.Place.{Place};
ghost use Rattle.c_syntax.specs.Statements.{plain_items, plain_stmt, plain_stmt_kind};
ghost use Rattle.c_syntax.specs.Programs.{plain_func};
ghost use Rattle.c_model.specs.StatementTyping.{typed_items};
ghost use Rattle.c_model.specs.UnitTyping.{typed_body};
ghost use Rattle.c_model.specs.TypedTrees.{around_body};
ghost use Rattle.c_scopes.specs.Answers.{Answers};
ghost use Rattle.c_scopes.specs.Sights.{plain_sight};
ghost use Rattle.indexmap.specs.IndexMap.{get};
ghost use Rattle.c_function_rules.specs.Functions.{function_in_turn, names_behind, parts_in_turn, typed_parts, with_function_by};

use crate::heading::{Callee, Noted, note_name, see_function, type_heading};
use crate::label::check_labels;
use crate::parameter::see_parameters;
use crate::statement::{Around, type_items};
use c_scopes::fault::{TypeFault, both};
use c_scopes::sight::{Sight, enter, leave, mark_here};
use c_syntax::{CType, Func, Item, Stmt, StmtKind};
use indexmap::IndexMap;
use std::alloc::Global;

/// The items of a body, whose scope is the function's.
fn type_body_items(
    alloc: Global,
    sight: &mut Sight,
    ctype: &CType,
    items: &mut Vec<Item>,
) -> Result<(), TypeFault>
    ensures typed { Answers (λ _. plain_items items.new.items)
        (typed_items (plain_sight sight.old) (around_body (plain_type ctype.now)) (plain_items items.old.items)) result }
    ensures same { OnOk result (plain_sight sight.new ≡ plain_sight sight.old) }
{
    let around = Around {
        result: ctype,
        breaks: false,
        loops: false,
    };
    let mark = mark_here(sight);
    type_items(alloc, sight, &around, items)?;
    leave(sight, mark);
    Ok(())
}

/// A body is a block (C99 6.9.1).
fn type_body_kind(
    alloc: Global,
    sight: &mut Sight,
    ctype: &CType,
    kind: &mut StmtKind,
) -> Result<(), TypeFault>
    ensures typed { (at : Place) → Answers (λ _. Some (plain_stmt_kind at kind.new))
        (typed_body (plain_sight sight.old) (plain_type ctype.now) (Some (plain_stmt_kind at kind.old))) result }
    ensures same { OnOk result (plain_sight sight.new ≡ plain_sight sight.old) }
{
    match kind {
        StmtKind::Block(items) => type_body_items(alloc, sight, ctype, items),
        StmtKind::Empty
        | StmtKind::Eval(_)
        | StmtKind::If(..)
        | StmtKind::While(..)
        | StmtKind::Do(..)
        | StmtKind::For(..)
        | StmtKind::Break
        | StmtKind::Continue
        | StmtKind::Return(_)
        | StmtKind::Labelled(..)
        | StmtKind::Switch(..) => Ok(()),
    }
}

fn type_body(
    alloc: Global,
    sight: &mut Sight,
    ctype: &CType,
    body: &mut Option<Stmt>,
) -> Result<(), TypeFault>
    ensures typed { Answers (λ _. option_map plain_stmt body.new)
        (typed_body (plain_sight sight.old) (plain_type ctype.now) (option_map plain_stmt body.old)) result }
    ensures same { OnOk result (plain_sight sight.new ≡ plain_sight sight.old) }
{
    match body {
        None => Ok(()),
        Some(s) => type_body_kind(alloc, sight, ctype, &mut s.kind),
    }
}

/// The body of a function that is in sight.
fn type_parts(alloc: Global, sight: &mut Sight, f: &mut Func) -> Result<(), TypeFault>
    ensures typed { Answers (λ _. plain_func f.new) (typed_parts (plain_sight sight.old) (plain_func f.old)) result }
    ensures same { OnOk result (plain_sight sight.new ≡ plain_sight sight.old) }
{
    let mark = enter(sight);
    see_parameters(alloc, sight, &f.params)?;
    type_body(alloc, sight, &f.result, &mut f.body)?;
    leave(sight, mark);
    Ok(())
}

/// Types a function but for its labels by what each name denotes in the file, and brings it in sight.
fn type_but_labels(
    alloc: Global,
    sight: &mut Sight,
    numbers: &IndexMap<u32, Callee>,
    names: &mut IndexMap<u32, Noted>,
    f: &mut Func,
) -> Result<(), TypeFault>
    ensures typed { Answers (λ _. plain_func f.new)
        (parts_in_turn (get nat_eq numbers.now) (plain_sight sight.old) (get nat_eq names.old) (plain_func f.old)) result }
    ensures behind { OnOk result (plain_sight sight.new ≡ with_function_by (get nat_eq numbers.now) (plain_sight sight.old) (plain_func f.new)) }
    ensures names { OnOk result ((x : ℕ) → get nat_eq names.new x ≡ names_behind (plain_sight sight.old) (get nat_eq names.old) (plain_func f.new) x) }
{
    type_heading(alloc, sight, names, f)?;
    note_name(&sight.functions, names, f)?;
    see_function(alloc, sight, numbers, f)?;
    type_parts(alloc, sight, f)
}

/// Types a function by what each name denotes in the file, and brings it in sight. Its labels have names of their own.
pub fn type_function(
    alloc: Global,
    sight: &mut Sight,
    numbers: &IndexMap<u32, Callee>,
    names: &mut IndexMap<u32, Noted>,
    f: &mut Func,
) -> Result<(), TypeFault>
    ensures typed { Answers (λ _. plain_func f.new)
        (function_in_turn (get nat_eq numbers.now) (plain_sight sight.old) (get nat_eq names.old) (plain_func f.old)) result }
    ensures behind { OnOk result (plain_sight sight.new ≡ with_function_by (get nat_eq numbers.now) (plain_sight sight.old) (plain_func f.new)) }
    ensures names { OnOk result ((x : ℕ) → get nat_eq names.new x ≡ names_behind (plain_sight sight.old) (get nat_eq names.old) (plain_func f.new) x) }
{
    let labels = check_labels(alloc, &f.body);
    let typed = type_but_labels(alloc, sight, numbers, names, f);
    both(labels, typed)
}
