//! The body of a function, around which its contract is checked (ACSL 2.3).

ghost use Rattle.std.specs.Prelude.{◌≡◌, ◌+◌, ◌≤◌, ◌<◌, suc, ℕ, IfOk, OnOk, Some, length, map, option_map, reverse};
ghost use Rattle.c_syntax.specs.Logic.{plain_annot, plain_body};
ghost use Rattle.c_syntax.specs.Ctypes.{plain_type};
ghost use Rattle.c_syntax.specs.Programs.{plain_behavior, plain_contract, plain_func};
ghost use Rattle.c_syntax.specs.Statements.{plain_decl, plain_stmt};
ghost use Rattle.c_model.specs.ContractChecks.{entry_checks, leave_checks};
ghost use Rattle.c_model.specs.ContractTyping.{named_behaviors};
ghost use Rattle.mon_syntax.specs.Registers.{next_register, with_table};
ghost use Rattle.mon_syntax.specs.Trees.{plain_stmts};
ghost use Rattle.c_effects.specs.Expressions.{before};
ghost use Rattle.c_effects.specs.Named.{with_registers};
ghost use Rattle.annot_code.specs.Checks.{annotations_of, entry_by, leave_by, names_behind_entry, names_behind_leave};
ghost use Rattle.annot_simulation.specs.ContractCode.{named_flags};
ghost use Rattle.annot_simulation.specs.Numbered.{AreNumbered};
ghost use Rattle.annot_pieces.specs.Tables.{plain_helds};
ghost use Rattle.instrument.specs.Limits.{BodyHasNumbers, ContractHasNumbers, CoversFew};
ghost use Rattle.instrument.specs.Options.{bare_in, behind_body, behind_checked_in, behind_contracted_in, body_by};
ghost use Rattle.instrument.specs.Options.{bound_from, brace, checked_in, contracted_in};
ghost use Rattle.instrument.specs.Options.{end_in, func_in, inner_in, kept_in, known_at_end, plain_spot, plan_in, with_these_alone};
ghost use Rattle.instrument.specs.Translation.{last_return, result_held, result_of};

use crate::block::{leave, one_more};
use crate::name::leave_label;
use crate::spot::Spot;
use crate::statement::statement;
use annot_code::contract::{entry, leave as leave_contract};
use annot_pieces::kept::Held;
use annot_pieces::plan::{Plan, Stored};
use c_effects::conversion::register_type;
use c_effects::operator::{constant, register};
use c_effects::part::then;
use c_scopes::entity::RESULT;
use c_syntax::logic::Body;
use c_syntax::{Annot, Behavior, CType, Contract, Decl, Func, Place, Stmt};
use mon_syntax::{MonStmt, MonStmtKind, MonType, Registers};
use std::alloc::{AllocError, Global};

// The flags that are counted for a clause are fewer than the largest `i32`: no memory holds the code of more.
const MOST_COUNTED: usize = 2147483647;

/// A function, the terms that it keeps at its labels, the register of what it gives, and the blocks of its parameters, by the registers
/// that point to them, in order of birth: from the first one on.
#[derive(Clone, Copy, Drop)]
pub struct Frame<'a> {
    pub func: &'a Func,
    pub plan: &'a Plan<'a>,
    pub given: u32,
    pub first: u32,
    pub params: &'a [u32],
}

/// What a function gives.
pub fn result_of(t: &CType) -> Option<MonType>
    ensures { result ≡ result_of (plain_type t.now) }
{
    match t {
        CType::Int(k) => Some(register_type(*k)),
        CType::Ptr(_) => Some(MonType::Ptr),
        _ => None,
    }
}

// ---- bodies

// The statement that is the body of a function, where it has one.
fn statement_of(
    alloc: Global,
    spot: &Spot<'_>,
    body: &Option<Stmt>,
    names: &mut Registers<'_>,
    to: &mut Vec<MonStmt>,
) -> Result<(), AllocError>
    ensures code { OnOk result (plain_stmts to.new.items ≡ before (plain_stmts to.old.items)
        (body_by (plan_in spot.now) names.old (plain_spot spot.now) (option_map plain_stmt body.now))) }
    ensures names { OnOk result (names.new ≡ behind_body (plan_in spot.now) (option_map plain_stmt body.now) names.old) }
    ensures numbers { OnOk result (BodyHasNumbers (option_map plain_stmt body.now)) }
{
    match body {
        Some(body) => statement(alloc, spot, body, names, to),
        None => Ok(()),
    }
}

// A body around which nothing is checked, and the deaths of the parameters' blocks.
#[tactic(auto, using(c_effects::proofs::Sequences::before_assoc))]
fn bare_body(
    alloc: Global,
    frame: &Frame<'_>,
    names: &mut Registers<'_>,
    to: &mut Vec<MonStmt>,
) -> Result<(), AllocError>
    ensures code { OnOk result (plain_stmts to.new.items ≡ before (plain_stmts to.old.items) (bare_in frame.now names.old)) }
    ensures names { OnOk result (names.new ≡ behind_body (kept_in frame.now) (func_in frame.now).body names.old) }
    ensures numbers { OnOk result (BodyHasNumbers (func_in frame.now).body) }
{
    let spot = Spot {
        levels: 0,
        innermost: 0,
        inside: frame.params,
        between: &[],
        outside: &[],
        result: None,
        plan: frame.plan,
    };
    statement_of(alloc, &spot, &frame.func.body, names, to)?;
    leave(alloc, frame.params, to)
}

// `main` gives 0 at its closing brace (C99 5.1.2.2.3).
#[tactic(auto, using(c_effects::proofs::Sequences::before_none))]
fn give_at_brace(
    alloc: Global,
    is_main: bool,
    given: u32,
    to: &mut Vec<MonStmt>,
) -> Result<(), AllocError>
    ensures { OnOk result (plain_stmts to.new.items ≡ before (plain_stmts to.old.items) (brace given is_main)) }
{
    if is_main {
        let zero = constant(alloc, MonType::I32, 0)?;
        then(alloc, to, MonStmtKind::Set(given, zero))
    } else {
        Ok(())
    }
}

// A body of which each `return` goes to its end.
fn inner_body(
    alloc: Global,
    is_main: bool,
    frame: &Frame<'_>,
    names: &mut Registers<'_>,
) -> Result<Vec<MonStmt>, AllocError>
    ensures code { IfOk result (λ code. plain_stmts code.items ≡ inner_in frame.now is_main names.old) }
    ensures names { OnOk result (names.new ≡ behind_body (kept_in frame.now) (func_in frame.now).body names.old) }
    ensures numbers { OnOk result (BodyHasNumbers (func_in frame.now).body) }
{
    let spot = Spot {
        levels: 0,
        innermost: 0,
        inside: &[],
        between: &[],
        outside: &[],
        result: Some(frame.given),
        plan: frame.plan,
    };
    let mut code = Vec::new(alloc);
    statement_of(alloc, &spot, &frame.func.body, names, &mut code)?;
    give_at_brace(alloc, is_main, frame.given, &mut code)?;
    Ok(code)
}

// ---- where the body begins

// The behaviors that a clause names.
fn names_in(body: &Body) -> &[(Place, u32)]
    ensures { result.now ≡ named_behaviors (plain_body body.now) }
{
    match body {
        Body::Names(listed) => listed,
        Body::Raw(_) | Body::Truth(_) | Body::Value(_) => &[],
    }
}

// How many flags are counted for these behaviors: no names are all of them.
fn counted(listed: &[(Place, u32)], behaviors: &[Behavior]) -> usize
    ensures { (h : ℕ) → length (named_flags listed.now h (map plain_behavior behaviors.now)) ≡ result }
{
    match listed {
        [] => behaviors.len(),
        [_, ..] => listed.len(),
    }
}

// For a clause few flags are counted.
fn few_counted(annot: &Annot, behaviors: &[Behavior]) -> Result<(), AllocError>
    ensures { OnOk result ((h : ℕ) → length (named_flags (named_behaviors (plain_annot annot.now).body) h (map plain_behavior behaviors.now)) < 2147483647) }
{
    if counted(names_in(&annot.body), behaviors) < MOST_COUNTED {
        Ok(())
    } else {
        Err(AllocError)
    }
}

// And so for each clause.
fn few_covers(covers: &[Annot], behaviors: &[Behavior]) -> Result<(), AllocError>
    ensures { OnOk result ((h : ℕ) → CoversFew h (map plain_behavior behaviors.now) (map plain_annot covers.now)) }
{
    'covers: for annot in covers {
        few_counted(annot, behaviors)?;
    }
    Ok(())
}

// The register of the first behavior's flag, behind that of the result.
fn first_flag(given: u32) -> Result<u32, AllocError>
    ensures { IfOk result (λ h. h ≡ suc given) }
{
    one_more(given)
}

// What a contract asks where the body begins.
fn begin_body(
    alloc: Global,
    frame: &Frame<'_>,
    c: &Contract,
    names: &mut Registers<'_>,
    to: &mut Vec<MonStmt>,
) -> Result<(), AllocError>
    ensures code { OnOk result
        (plain_stmts to.new.items ≡ before (plain_stmts to.old.items) (entry_by names.old (suc frame.now.given) (plain_contract c.now))) }
    ensures names { OnOk result (names.new ≡ names_behind_entry (suc frame.now.given) (plain_contract c.now) names.old) }
    ensures numbered { OnOk result (AreNumbered (annotations_of (entry_checks (plain_contract c.now)))) }
    ensures few { OnOk result ((h : ℕ) → CoversFew h (plain_contract c.now).behaviors (plain_contract c.now).covers) }
{
    few_covers(&c.covers, &c.behaviors)?;
    let flags = first_flag(frame.given)?;
    entry(alloc, c, flags, names, to)
}

// ---- where it ends

// Registers of these types.
fn make_all(kinds: &[MonType], names: &mut Registers<'_>) -> Result<(), AllocError>
    ensures { OnOk result (names.new ≡ with_registers kinds.now names.old) }
{
    'kinds: for kind in kinds {
        let _ = names.fresh(*kind)?;
    }
    Ok(())
}

// The registers from this one on are bound to these variables.
fn bind_all(params: &[Decl], first: u32, names: &mut Registers<'_>) -> Result<(), AllocError>
    requires { first + length params.now ≤ next_register names.old.table }
    ensures { OnOk result (names.new
        ≡ with_table (record names.old.table { bound = bound_from first (map plain_decl params.now) names.old.table.bound }) names.old) }
{
    let mut register = first;
    'params: for d in params {
        names.bind(d.place.offset, register)?;
        register = one_more(register)?;
    }
    Ok(())
}

// Behind a body its parameters alone are in scope.
fn leave_scopes(
    alloc: Global,
    params: &[Decl],
    first: u32,
    names: &mut Registers<'_>,
) -> Result<(), AllocError>
    requires { first + length params.now ≤ next_register names.old.table }
    ensures { OnOk result (names.new ≡ with_these_alone first (map plain_decl params.now) names.old) }
{
    let kinds = Vec::from_slice(alloc, names.kinds())?;
    names.forget(alloc);
    make_all(&kinds, names)?;
    bind_all(params, first, names)
}

// `\result`, where the function gives something.
fn held_at_end(alloc: Global, frame: &Frame<'_>) -> Result<Vec<Held>, AllocError>
    ensures { IfOk result (λ held. plain_helds held.items ≡ result_held frame.now.given (result_of (func_in frame.now).result)) }
{
    let mut held = Vec::new(alloc);
    match result_of(&frame.func.result) {
        None => Ok(held),
        Some(kind) => {
            held.push(Held {
                number: RESULT,
                register: frame.given,
                kind,
            })?;
            Ok(held)
        }
    }
}

// What a contract asks where the body ends.
fn check_end(
    alloc: Global,
    frame: &Frame<'_>,
    c: &Contract,
    names: &mut Registers<'_>,
    to: &mut Vec<MonStmt>,
) -> Result<(), AllocError>
    ensures code { OnOk result (plain_stmts to.new.items ≡ before (plain_stmts to.old.items) (leave_by names.old
        (known_at_end (kept_in frame.now) frame.now.given (func_in frame.now).result) (suc frame.now.given) (plain_contract c.now))) }
    ensures names { OnOk result (names.new ≡ names_behind_leave (known_at_end (kept_in frame.now) frame.now.given (func_in frame.now).result)
        (suc frame.now.given) (plain_contract c.now) names.old) }
    ensures numbered { OnOk result (AreNumbered (annotations_of (leave_checks (plain_contract c.now)))) }
{
    let held = held_at_end(alloc, frame)?;
    let stored = Stored {
        plan: frame.plan,
        held: &held,
    };
    let flags = first_flag(frame.given)?;
    leave_contract(alloc, c, flags, &stored, names, to)
}

// The one `return` of a function that gives something.
#[tactic(auto, using(c_effects::proofs::Sequences::before_none))]
fn last_return(alloc: Global, frame: &Frame<'_>, to: &mut Vec<MonStmt>) -> Result<(), AllocError>
    ensures { OnOk result (plain_stmts to.new.items
        ≡ before (plain_stmts to.old.items) (last_return frame.now.given (result_of (func_in frame.now).result))) }
{
    match result_of(&frame.func.result) {
        None => Ok(()),
        Some(_) => {
            let value = register(alloc, frame.given)?;
            then(alloc, to, MonStmtKind::Return(Some(value)))
        }
    }
}

// What stands behind the body: what the contract asks there, the deaths of the parameters' blocks, and one `return`.
#[tactic(auto, using(c_effects::proofs::Sequences::before_assoc))]
fn end_body(
    alloc: Global,
    frame: &Frame<'_>,
    c: &Contract,
    names: &mut Registers<'_>,
    to: &mut Vec<MonStmt>,
) -> Result<(), AllocError>
    ensures code { OnOk result (plain_stmts to.new.items ≡ before (plain_stmts to.old.items) (end_in frame.now names.old (plain_contract c.now))) }
    ensures names { OnOk result (names.new ≡ names_behind_leave (known_at_end (kept_in frame.now) frame.now.given (func_in frame.now).result)
        (suc frame.now.given) (plain_contract c.now) names.old) }
    ensures numbered { OnOk result (AreNumbered (annotations_of (leave_checks (plain_contract c.now)))) }
{
    check_end(alloc, frame, c, names, to)?;
    leave(alloc, frame.params, to)?;
    last_return(alloc, frame, to)
}

// ---- the whole

// A body with what its contract asks where it begins and where it ends.
fn checked_body(
    alloc: Global,
    is_main: bool,
    frame: &Frame<'_>,
    c: &Contract,
    names: &mut Registers<'_>,
    to: &mut Vec<MonStmt>,
) -> Result<(), AllocError>
    requires { frame.now.first + length (func_in frame.now).params ≤ next_register names.old.table }
    ensures code { OnOk result (plain_stmts to.new.items ≡ before (plain_stmts to.old.items) (checked_in frame.now is_main names.old (plain_contract c.now))) }
    ensures names { OnOk result (names.new ≡ behind_checked_in frame.now (plain_contract c.now) names.old) }
    ensures body { OnOk result (BodyHasNumbers (func_in frame.now).body) }
    ensures contract { OnOk result (ContractHasNumbers (suc frame.now.given) (Some (plain_contract c.now))) }
{
    begin_body(alloc, frame, c, names, to)?;
    let inner = inner_body(alloc, is_main, frame, names)?;
    let label = leave_label(alloc)?;
    then(alloc, to, MonStmtKind::Labelled(inner, label))?;
    leave_scopes(alloc, &frame.func.params, frame.first, names)?;
    end_body(alloc, frame, c, names, to)
}

/// The body of a function whose parameters live: with a contract what this asks around it.
pub fn body(
    alloc: Global,
    is_main: bool,
    frame: &Frame<'_>,
    names: &mut Registers<'_>,
    to: &mut Vec<MonStmt>,
) -> Result<(), AllocError>
    requires { frame.now.first + length (func_in frame.now).params ≤ next_register names.old.table }
    ensures code { OnOk result (plain_stmts to.new.items
        ≡ before (plain_stmts to.old.items) (contracted_in frame.now is_main names.old (func_in frame.now).contract)) }
    ensures names { OnOk result (names.new ≡ behind_contracted_in frame.now (func_in frame.now).contract names.old) }
    ensures body { OnOk result (BodyHasNumbers (func_in frame.now).body) }
    ensures contract { OnOk result (ContractHasNumbers (suc frame.now.given) (func_in frame.now).contract) }
{
    match &frame.func.contract {
        None => bare_body(alloc, frame, names, to),
        Some(c) => checked_body(alloc, is_main, frame, c, names, to),
    }
}
