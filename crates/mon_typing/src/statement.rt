//! Statements, in a function of a result and inside bodies of labels.

ghost use Rattle.std.specs.Prelude.{◌≡◌, ◌≤◌, ◌++◌, [], ◌∷◌, length, drop, nat_eq, reverse, Some, None, option_map, slice_get, Ok, OnOk, IfErr};
ghost use Rattle.std.specs.List.{list_any};
ghost use Rattle.mon_syntax.specs.Trees as tree;
ghost use Rattle.mon_syntax.specs.Trees.{MonStatements, plain_expr, plain_stmt, plain_stmts};
ghost use Rattle.mon_syntax.specs.Valid.{memory_result};
ghost use Rattle.mon_syntax.specs.Checking.{bytes_of, result_of, value_type, with_target, taken, returned, known_label, new_label, labels_in, labels_in_all};
ghost use Rattle.mon_syntax.specs.Checking.{checked_statement, checked_statements};
ghost use Rattle.mon_syntax.specs.Parsed as parsed;
ghost use Rattle.mon_parser.specs.ParsedTrees as read;
ghost use Rattle.mon_typing.specs.Answers.{Fails, Gives, TakesNoMemory, plain_typed};
ghost use Rattle.mon_typing.specs.Scopes.{plain_scope};
ghost use Rattle.mon_typing.specs.Statements.{checked_bodies, register_of_type, set_to, stored_to, taken_by};

use crate::call::checked_call;
use crate::expression::{Typed, checked_expression, condition, of_type};
use crate::fault::CheckFault;
use crate::scope::{Scope, is_free, name_at, register_or_fault, target_of};
use c_syntax::Place;
use mon_parser::parsed::{NameUse, ParsedCall, ParsedExpr, ParsedStmt, ParsedStmtKind};
use mon_parser::word_at;
use mon_syntax::{MemoryCall, MonExpr, MonStmt, MonStmtKind, MonType, same_type};
use std::alloc::Global;

/// The labels around a statement, and those of the bodies after which it stands, by their names' numbers.
#[derive(Drop)]
pub struct Labels {
    /// Those of the bodies in which it stands, the innermost last.
    pub around: Vec<u32>,
    /// Those of bodies that are closed.
    pub closed: Vec<u32>,
}

/// The type of the value that a call on the memory gives.
fn memory_result(f: MemoryCall) -> Option<MonType>
    ensures { result ≡ memory_result f }
{
    match f {
        MemoryCall::StoreBlock => Some(MonType::Ptr),
        MemoryCall::DeleteBlock => None,
        MemoryCall::Copy(_) => None,
        MemoryCall::Number(_) => Some(MonType::I32),
        MemoryCall::Valid(_) | MemoryCall::ValidRead(_) => Some(MonType::I32),
        MemoryCall::Initialized(_) => Some(MonType::I32),
        MemoryCall::Pointer | MemoryCall::Inside | MemoryCall::Separated => Some(MonType::I32),
        MemoryCall::BaseAddr => Some(MonType::Ptr),
        MemoryCall::BlockLength | MemoryCall::Offset => Some(MonType::I64),
        MemoryCall::Malloc | MemoryCall::Calloc => Some(MonType::Ptr),
        MemoryCall::Free => None,
    }
}

/// The result of the function with this number.
fn result_of(scope: &Scope, number: u32) -> Option<MonType>
    ensures { result ≡ result_of (slice_get (plain_scope scope.now).functions number) }
{
    match scope.functions.headers.get(number as usize) {
        Some(header) => header.result,
        None => None,
    }
}

/// The type of the value that a call gives.
fn value_type(scope: &Scope, call: &MonStmt) -> Option<MonType>
    ensures { result ≡ value_type (plain_scope scope.now) (plain_stmt call.now) }
{
    match &*call.kind {
        MonStmtKind::PutChar(_, _) | MonStmtKind::GetChar(_) => Some(MonType::I32),
        MonStmtKind::Act(_, f, _) => memory_result(*f),
        MonStmtKind::Call(_, number, _) => result_of(scope, *number),
        _ => None,
    }
}

/// The register takes the value of the call.
fn with_target(number: u32, call: &mut MonStmt)
    ensures { plain_stmt call.new ≡ with_target number (plain_stmt call.old) }
{
    match &mut *call.kind {
        MonStmtKind::PutChar(target, _) => *target = Some(number),
        MonStmtKind::GetChar(target) => *target = Some(number),
        MonStmtKind::Act(target, _, _) => *target = Some(number),
        MonStmtKind::Call(target, _, _) => *target = Some(number),
        _ => {}
    }
}

/// A register takes the value of a call.
fn taken(
    scope: &Scope,
    register: (u32, MonType),
    place: Place,
    call: MonStmt,
) -> Result<MonStmt, CheckFault>
    ensures typed { Gives plain_stmt result (taken (plain_scope scope.now) register place (plain_stmt call)) }
    ensures sure { IfErr result TakesNoMemory }
{
    let (number, kind) = register;
    match value_type(scope, &call) {
        Some(given) => {
            if same_type(given, kind) {
                let mut call = call;
                with_target(number, &mut call);
                Ok(call)
            } else {
                Err(CheckFault::BadType(place))
            }
        }
        None => Err(CheckFault::BadType(place)),
    }
}

/// An expression of the type, whose value is given back.
fn returned_value(
    alloc: Global,
    scope: &Scope,
    kind: MonType,
    place: Place,
    e: &ParsedExpr,
) -> Result<MonStmt, CheckFault>
    ensures { Gives plain_stmt result (returned (plain_scope scope.now) (Some kind) place (Some (read.plain_expr e.now))) }
{
    let value = of_type(alloc, scope, kind, place, e)?;
    Ok(MonStmt::new(alloc, MonStmtKind::Return(Some(value)))?)
}

/// The fault of an expression whose value is given back where none is.
fn unwanted_value(alloc: Global, scope: &Scope, place: Place, e: &ParsedExpr) -> CheckFault
    ensures { Fails result (returned (plain_scope scope.now) None place (Some (read.plain_expr e.now))) }
{
    match checked_expression(alloc, scope, e) {
        Ok(_) => CheckFault::BadType(place),
        Err(fault) => fault,
    }
}

fn returned(
    alloc: Global,
    scope: &Scope,
    result_type: Option<MonType>,
    place: Place,
    e: &Option<ParsedExpr>,
) -> Result<MonStmt, CheckFault>
    ensures { Gives plain_stmt result (returned (plain_scope scope.now) result_type place (option_map read.plain_expr e.now)) }
{
    match (result_type, e) {
        (None, None) => Ok(MonStmt::new(alloc, MonStmtKind::Return(None))?),
        (None, Some(e)) => Err(unwanted_value(alloc, scope, place, e)),
        (Some(_), None) => Err(CheckFault::BadType(place)),
        (Some(kind), Some(e)) => returned_value(alloc, scope, kind, place, e),
    }
}

fn is_among(labels: &[u32], number: u32) -> bool
    ensures { result ≡ list_any (nat_eq number) labels.now }
{
    labels.iter().any(|label| number == *label)
}

/// The label of a body around it.
#[tactic(auto, using(crate::proofs::Labels::any_reversed))]
fn known_label(around: &[u32], label: NameUse) -> Result<(), CheckFault>
    ensures known { Gives (λ u. tt) result (known_label (reverse around.now) (read.plain_name label)) }
    ensures sure { IfErr result TakesNoMemory }
{
    if is_among(around, label.number) {
        Ok(())
    } else {
        Err(CheckFault::BadName(label.place))
    }
}

/// The label of a body in which these labels stand.
fn new_label(scope: &Scope, inside: &[u32], label: NameUse) -> Result<(), CheckFault>
    ensures new { Gives (λ u. tt) result (new_label (plain_scope scope.now) inside.now (read.plain_name label)) }
    ensures sure { IfErr result TakesNoMemory }
{
    let free = is_free(word_at(scope.words, label.number));
    if free && !is_among(inside, label.number) {
        Ok(())
    } else {
        Err(CheckFault::BadName(label.place))
    }
}

/// `R = e;`, which is the same in each function and in each body.
fn assigned(
    alloc: Global,
    scope: &Scope,
    register: NameUse,
    place: Place,
    e: &ParsedExpr,
) -> Result<MonStmt, CheckFault>
    ensures { Gives plain_stmt result (checked_statement (plain_scope scope.now) None []
        (parsed.Set (read.plain_name register) place (read.plain_expr e.now))) }
{
    let target = target_of(scope, register)?;
    let value = checked_expression(alloc, scope, e)?;
    set_to(alloc, target, place, value)
}

/// A register by its number, which is to be one of the type.
fn register_of_type(
    target: Option<(u32, MonType)>,
    kind: MonType,
    place: Place,
) -> Result<u32, CheckFault>
    ensures register { Gives (λ r. r) result (register_of_type target kind place) }
    ensures sure { IfErr result TakesNoMemory }
{
    let (number, known) = register_or_fault(target, place)?;
    if same_type(kind, known) {
        Ok(number)
    } else {
        Err(CheckFault::BadType(place))
    }
}

/// A register takes a value.
fn set_to(
    alloc: Global,
    target: Option<(u32, MonType)>,
    place: Place,
    value: Typed,
) -> Result<MonStmt, CheckFault>
    ensures { Gives plain_stmt result (set_to target place (plain_typed value)) }
{
    let (value, kind) = value;
    let number = register_of_type(target, kind, place)?;
    Ok(MonStmt::new(alloc, MonStmtKind::Set(number, value))?)
}

/// A value of the type is stored at the pointer of a register.
fn stored_to(
    alloc: Global,
    target: Option<(u32, MonType)>,
    place: Place,
    kind: MonType,
    value: MonExpr,
) -> Result<MonStmt, CheckFault>
    ensures { Gives plain_stmt result (stored_to target place kind (plain_expr value)) }
{
    let number = register_of_type(target, MonType::Ptr, place)?;
    Ok(MonStmt::new(alloc, MonStmtKind::Store(number, kind, value))?)
}

/// `*(t *)R = e;`, which is the same in each function and in each body.
fn stored(
    alloc: Global,
    scope: &Scope,
    kind: MonType,
    register: NameUse,
    place: Place,
    e: &ParsedExpr,
) -> Result<MonStmt, CheckFault>
    ensures { Gives plain_stmt result (checked_statement (plain_scope scope.now) None []
        (parsed.Store kind (read.plain_name register) place (read.plain_expr e.now))) }
{
    let target = target_of(scope, register)?;
    let value = of_type(alloc, scope, kind, place, e)?;
    stored_to(alloc, target, place, kind, value)
}

/// A register takes the value of a call, where it is one.
fn taken_by(
    scope: &Scope,
    target: Option<(u32, MonType)>,
    place: Place,
    call: MonStmt,
) -> Result<MonStmt, CheckFault>
    ensures typed { Gives plain_stmt result (taken_by (plain_scope scope.now) target place (plain_stmt call)) }
    ensures sure { IfErr result TakesNoMemory }
{
    let register = register_or_fault(target, place)?;
    taken(scope, register, place, call)
}

/// `R = f(..);`, which is the same in each function and in each body.
fn assigned_call(
    alloc: Global,
    scope: &Scope,
    register: NameUse,
    place: Place,
    call: &ParsedCall,
) -> Result<MonStmt, CheckFault>
    ensures { Gives plain_stmt result (checked_statement (plain_scope scope.now) None []
        (parsed.Take (read.plain_name register) place (read.plain_call call.now))) }
{
    let target = target_of(scope, register)?;
    let call = checked_call(alloc, scope, call)?;
    taken_by(scope, target, place, call)
}

/// `goto LABEL;`, inside bodies of these labels.
fn jump(alloc: Global, scope: &Scope, around: &[u32], label: NameUse) -> Result<MonStmt, CheckFault>
    ensures { Gives plain_stmt result (checked_statement (plain_scope scope.now) None (reverse around.now) (parsed.Goto (read.plain_name label))) }
{
    known_label(around, label)?;
    let label = name_at(alloc, scope.names, label.number)?;
    Ok(MonStmt::new(alloc, MonStmtKind::Goto(label))?)
}

/// The statement that is spelled. The labels of its bodies go after those that are closed.
#[tactic(auto, using(mon_parser::proofs::Rows::if_is, mon_parser::proofs::Rows::loop_is, mon_parser::proofs::Rows::labelled_is))]
#[cycle(statement)]
pub fn checked_statement(
    alloc: Global,
    scope: &Scope,
    result_type: Option<MonType>,
    labels: &mut Labels,
    s: &ParsedStmt,
) -> Result<MonStmt, CheckFault>
    ensures spelled { Gives plain_stmt result (checked_statement (plain_scope scope.now) result_type (reverse labels.old.around.items)
        (read.plain_stmt s.now)) }
    ensures around { OnOk result (labels.new.around.items ≡ labels.old.around.items) }
    ensures closed { OnOk result (labels.new.closed.items ≡ labels.old.closed.items ++ labels_in (read.plain_stmt s.now)) }
{
    match &*s.kind {
        ParsedStmtKind::Set(register, place, e) => assigned(alloc, scope, *register, *place, e),
        ParsedStmtKind::Store(kind, register, place, e) => {
            stored(alloc, scope, *kind, *register, *place, e)
        }
        ParsedStmtKind::Take(register, place, call) => {
            assigned_call(alloc, scope, *register, *place, call)
        }
        ParsedStmtKind::Call(call) => checked_call(alloc, scope, call),
        ParsedStmtKind::If(e, first, second) => {
            selection(alloc, scope, result_type, labels, e, first, second)
        }
        ParsedStmtKind::Loop(before, behind) => {
            iteration(alloc, scope, result_type, labels, before, behind)
        }
        ParsedStmtKind::Labelled(body, label) => {
            labelled(alloc, scope, result_type, labels, body, *label)
        }
        ParsedStmtKind::Goto(label) => jump(alloc, scope, &labels.around, *label),
        ParsedStmtKind::Return(place, e) => returned(alloc, scope, result_type, *place, e),
    }
}

/// Two bodies, one after the other.
#[cycle(statement)]
fn checked_bodies(
    alloc: Global,
    scope: &Scope,
    result_type: Option<MonType>,
    labels: &mut Labels,
    first: &[ParsedStmt],
    second: &[ParsedStmt],
) -> Result<(Vec<MonStmt>, Vec<MonStmt>), CheckFault>
    ensures spelled { Gives {A = MonStatements × MonStatements} (λ x. (plain_stmts x.0.items, plain_stmts x.1.items)) result
        (checked_bodies (plain_scope scope.now) result_type (reverse labels.old.around.items) (read.plain_stmts first.now) (read.plain_stmts second.now)) }
    ensures around { OnOk result (labels.new.around.items ≡ labels.old.around.items) }
    ensures closed { OnOk result (labels.new.closed.items ≡ labels.old.closed.items ++ (labels_in_all (read.plain_stmts first.now) ++ labels_in_all
        (read.plain_stmts second.now))) }
{
    let first = checked_statements(alloc, scope, result_type, labels, first)?;
    let second = checked_statements(alloc, scope, result_type, labels, second)?;
    Ok((first, second))
}

/// A condition and its two bodies.
#[cycle(statement)]
fn selection(
    alloc: Global,
    scope: &Scope,
    result_type: Option<MonType>,
    labels: &mut Labels,
    e: &ParsedExpr,
    first: &[ParsedStmt],
    second: &[ParsedStmt],
) -> Result<MonStmt, CheckFault>
    ensures spelled { Gives plain_stmt result (checked_statement (plain_scope scope.now) result_type (reverse labels.old.around.items)
        (parsed.If (read.plain_expr e.now) (read.plain_stmts first.now) (read.plain_stmts second.now))) }
    ensures around { OnOk result (labels.new.around.items ≡ labels.old.around.items) }
    ensures closed { OnOk result (labels.new.closed.items ≡ labels.old.closed.items ++ (labels_in_all (read.plain_stmts first.now) ++ labels_in_all
        (read.plain_stmts second.now))) }
{
    let e = condition(alloc, scope, e)?;
    let (first, second) = checked_bodies(alloc, scope, result_type, labels, first, second)?;
    Ok(MonStmt::new(alloc, MonStmtKind::If(e, first, second))?)
}

/// A loop, by what stands before its step and what after it.
#[cycle(statement)]
fn iteration(
    alloc: Global,
    scope: &Scope,
    result_type: Option<MonType>,
    labels: &mut Labels,
    before: &[ParsedStmt],
    behind: &[ParsedStmt],
) -> Result<MonStmt, CheckFault>
    ensures spelled { Gives plain_stmt result (checked_statement (plain_scope scope.now) result_type (reverse labels.old.around.items)
        (parsed.Loop (read.plain_stmts before.now) (read.plain_stmts behind.now))) }
    ensures around { OnOk result (labels.new.around.items ≡ labels.old.around.items) }
    ensures closed { OnOk result (labels.new.closed.items ≡ labels.old.closed.items ++ (labels_in_all (read.plain_stmts before.now) ++ labels_in_all
        (read.plain_stmts behind.now))) }
{
    let (before, behind) = checked_bodies(alloc, scope, result_type, labels, before, behind)?;
    Ok(MonStmt::new(alloc, MonStmtKind::Loop(before, behind))?)
}

/// The label of a body is closed, which is new among those that were closed in it, from this one on.
#[tactic(auto, using(crate::proofs::Statements::rest_is))]
fn close_label(
    scope: &Scope,
    closed: &mut Vec<u32>,
    from: usize,
    label: NameUse,
) -> Result<(), CheckFault>
    requires { from ≤ length closed.old.items }
    ensures new { Gives (λ u. tt) result (new_label (plain_scope scope.now) (drop from closed.old.items) (read.plain_name label)) }
    ensures closed { OnOk result (closed.new.items ≡ closed.old.items ++ label.number ∷ []) }
{
    new_label(scope, &closed.as_slice()[from..], label)?;
    closed.push(label.number)?;
    Ok(())
}

/// A body with its label.
fn make_labelled(
    alloc: Global,
    scope: &Scope,
    body: Vec<MonStmt>,
    label: u32,
) -> Result<MonStmt, CheckFault>
    ensures { Gives plain_stmt result (Ok (tree.Labelled (plain_stmts body.items) (bytes_of (plain_scope scope.now) label))) }
{
    let label = name_at(alloc, scope.names, label)?;
    Ok(MonStmt::new(alloc, MonStmtKind::Labelled(body, label))?)
}

/// The statements of a body with this label.
#[cycle(statement)]
fn labelled_body(
    alloc: Global,
    scope: &Scope,
    result_type: Option<MonType>,
    labels: &mut Labels,
    body: &[ParsedStmt],
    label: u32,
) -> Result<Vec<MonStmt>, CheckFault>
    ensures spelled { Gives (λ v. plain_stmts v.items) result (checked_statements (plain_scope scope.now) result_type (label ∷ reverse labels.old.around.items)
        (read.plain_stmts body.now)) }
    ensures around { OnOk result (labels.new.around.items ≡ labels.old.around.items) }
    ensures closed { OnOk result (labels.new.closed.items ≡ labels.old.closed.items ++ labels_in_all (read.plain_stmts body.now)) }
{
    labels.around.push(label)?;
    let body = checked_statements(alloc, scope, result_type, labels, body)?;
    labels.around.pop();
    Ok(body)
}

/// A body with its label after it.
#[cycle(statement)]
fn labelled(
    alloc: Global,
    scope: &Scope,
    result_type: Option<MonType>,
    labels: &mut Labels,
    body: &[ParsedStmt],
    label: NameUse,
) -> Result<MonStmt, CheckFault>
    ensures spelled { Gives plain_stmt result (checked_statement (plain_scope scope.now) result_type (reverse labels.old.around.items)
        (parsed.Labelled (read.plain_stmts body.now) (read.plain_name label))) }
    ensures around { OnOk result (labels.new.around.items ≡ labels.old.around.items) }
    ensures closed { OnOk result (labels.new.closed.items ≡ labels.old.closed.items ++ (labels_in_all (read.plain_stmts body.now) ++ label.number ∷ [])) }
{
    let from = labels.closed.len();
    let body = labelled_body(alloc, scope, result_type, labels, body, label.number)?;
    close_label(scope, &mut labels.closed, from, label)?;
    make_labelled(alloc, scope, body, label.number)
}

/// The statements that are spelled, in order.
#[cycle(statement)]
pub fn checked_statements(
    alloc: Global,
    scope: &Scope,
    result_type: Option<MonType>,
    labels: &mut Labels,
    list: &[ParsedStmt],
) -> Result<Vec<MonStmt>, CheckFault>
    ensures spelled { Gives (λ v. plain_stmts v.items) result (checked_statements (plain_scope scope.now) result_type (reverse labels.old.around.items)
        (read.plain_stmts list.now)) }
    ensures around { OnOk result (labels.new.around.items ≡ labels.old.around.items) }
    ensures closed { OnOk result (labels.new.closed.items ≡ labels.old.closed.items ++ labels_in_all (read.plain_stmts list.now)) }
{
    let mut all = Vec::new(alloc);
    'each: for one in list {
        let one = checked_statement(alloc, scope, result_type, labels, one)?;
        all.push(one)?;
    }
    Ok(all)
}
