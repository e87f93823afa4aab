//! Expressions, each with its type.

ghost use Rattle.std.specs.Prelude.{◌≡◌};
ghost use Rattle.mon_syntax.specs.Trees.{plain_expr};
ghost use Rattle.mon_syntax.specs.Checking.{place_of, checked_expression, of_type, condition, named};
ghost use Rattle.mon_syntax.specs.Parsed as parsed;
ghost use Rattle.mon_parser.specs.ParsedTrees as read;
ghost use Rattle.mon_typing.specs.Answers.{Gives, plain_typed};
ghost use Rattle.mon_typing.specs.Operators.{constant, binary, minus, flip, cast, load};
ghost use Rattle.mon_typing.specs.Scopes.{plain_scope};

use crate::fault::CheckFault;
use crate::scope::Scope;
use crate::types::{has_constant, has_operator, is_arithmetic, is_whole};
use c_syntax::Place;
use mon_parser::parsed::{Literal, NameUse, ParsedExpr, ParsedExprKind};
use mon_syntax::{MonExpr, MonExprKind, MonOp, MonType, result_type, same_type, second_type};
use std::alloc::Global;

/// An expression with its type.
pub type Typed = (MonExpr, MonType);

pub fn place_of(e: &ParsedExpr) -> Place
    ensures { result ≡ place_of (read.plain_expr e.now) }
{
    match &*e.kind {
        ParsedExprKind::Name(name) => name.place,
        ParsedExprKind::Constant(place, _, _) => *place,
        ParsedExprKind::Binary(place, _, _, _) => *place,
        ParsedExprKind::Minus(place, _) => *place,
        ParsedExprKind::Flip(place, _) => *place,
        ParsedExprKind::Cast(place, _, _) => *place,
        ParsedExprKind::Load(place, _, _) => *place,
    }
}

fn constant(
    alloc: Global,
    place: Place,
    kind: MonType,
    literal: Literal,
) -> Result<Typed, CheckFault>
    ensures { Gives plain_typed result (constant place kind (read.plain_literal literal)) }
{
    match literal.value() {
        Some(value) => {
            if has_constant(kind, value) {
                let constant = MonExpr::new(alloc, MonExprKind::Constant(kind, value))?;
                Ok((constant, kind))
            } else {
                Err(CheckFault::BadType(place))
            }
        }
        None => Err(CheckFault::BadType(place)),
    }
}

fn binary(
    alloc: Global,
    place: Place,
    op: MonOp,
    left: Typed,
    right: Typed,
) -> Result<Typed, CheckFault>
    ensures { Gives plain_typed result (binary place op (plain_typed left) (plain_typed right)) }
{
    let (a, kind) = left;
    let (b, other) = right;
    if !same_type(other, second_type(op, kind)) || !has_operator(op, kind) {
        return Err(CheckFault::BadType(place));
    }
    let value = MonExpr::new(alloc, MonExprKind::Binary(op, kind, a, b))?;
    Ok((value, result_type(op, kind)))
}

fn minus(alloc: Global, place: Place, operand: Typed) -> Result<Typed, CheckFault>
    ensures { Gives plain_typed result (minus place (plain_typed operand)) }
{
    let (a, kind) = operand;
    if !is_arithmetic(kind) {
        return Err(CheckFault::BadType(place));
    }
    Ok((MonExpr::new(alloc, MonExprKind::Minus(kind, a))?, kind))
}

fn flip(alloc: Global, place: Place, operand: Typed) -> Result<Typed, CheckFault>
    ensures { Gives plain_typed result (flip place (plain_typed operand)) }
{
    let (a, kind) = operand;
    if !is_arithmetic(kind) {
        return Err(CheckFault::BadType(place));
    }
    Ok((MonExpr::new(alloc, MonExprKind::Flip(kind, a))?, kind))
}

fn cast(alloc: Global, place: Place, kind: MonType, operand: Typed) -> Result<Typed, CheckFault>
    ensures { Gives plain_typed result (cast place kind (plain_typed operand)) }
{
    let (a, from) = operand;
    if !is_whole(from) || !is_whole(kind) {
        return Err(CheckFault::BadType(place));
    }
    Ok((MonExpr::new(alloc, MonExprKind::Cast(kind, a))?, kind))
}

fn load(alloc: Global, place: Place, kind: MonType, operand: Typed) -> Result<Typed, CheckFault>
    ensures { Gives plain_typed result (load place kind (plain_typed operand)) }
{
    let (a, from) = operand;
    if !same_type(from, MonType::Ptr) {
        return Err(CheckFault::BadType(place));
    }
    Ok((MonExpr::new(alloc, MonExprKind::Load(kind, a))?, kind))
}

/// A register or a global, with its type.
fn named(alloc: Global, scope: &Scope, name: NameUse) -> Result<Typed, CheckFault>
    ensures { Gives plain_typed result (named (plain_scope scope.now) (read.plain_name name)) }
{
    if let Some((number, kind)) = scope.registers.find(name.number) {
        return Ok((MonExpr::new(alloc, MonExprKind::Register(number))?, kind));
    }
    match scope.globals.find(name.number) {
        Some(number) => Ok((
            MonExpr::new(alloc, MonExprKind::Global(number))?,
            MonType::Ptr,
        )),
        None => Err(CheckFault::BadName(name.place)),
    }
}

/// `(-e)`
#[cycle(expression)]
fn negated(alloc: Global, scope: &Scope, place: Place, a: &ParsedExpr) -> Result<Typed, CheckFault>
    ensures { Gives plain_typed result (checked_expression (plain_scope scope.now) (parsed.Minus place (read.plain_expr a.now))) }
{
    let operand = checked_expression(alloc, scope, a)?;
    minus(alloc, place, operand)
}

/// `(~e)`
#[cycle(expression)]
fn flipped(alloc: Global, scope: &Scope, place: Place, a: &ParsedExpr) -> Result<Typed, CheckFault>
    ensures { Gives plain_typed result (checked_expression (plain_scope scope.now) (parsed.Flip place (read.plain_expr a.now))) }
{
    let operand = checked_expression(alloc, scope, a)?;
    flip(alloc, place, operand)
}

/// `((t)e)`
#[cycle(expression)]
fn converted(
    alloc: Global,
    scope: &Scope,
    place: Place,
    kind: MonType,
    a: &ParsedExpr,
) -> Result<Typed, CheckFault>
    ensures { Gives plain_typed result (checked_expression (plain_scope scope.now) (parsed.Cast place kind (read.plain_expr a.now))) }
{
    let operand = checked_expression(alloc, scope, a)?;
    cast(alloc, place, kind, operand)
}

/// `(*(t *)e)`
#[cycle(expression)]
fn loaded(
    alloc: Global,
    scope: &Scope,
    place: Place,
    kind: MonType,
    a: &ParsedExpr,
) -> Result<Typed, CheckFault>
    ensures { Gives plain_typed result (checked_expression (plain_scope scope.now) (parsed.Load place kind (read.plain_expr a.now))) }
{
    let operand = checked_expression(alloc, scope, a)?;
    load(alloc, place, kind, operand)
}

/// An operator on two operands.
#[cycle(expression)]
fn operation(
    alloc: Global,
    scope: &Scope,
    place: Place,
    op: MonOp,
    a: &ParsedExpr,
    b: &ParsedExpr,
) -> Result<Typed, CheckFault>
    ensures { Gives plain_typed result (checked_expression (plain_scope scope.now) (parsed.Binary place op (read.plain_expr a.now) (read.plain_expr b.now))) }
{
    let left = checked_expression(alloc, scope, a)?;
    let right = checked_expression(alloc, scope, b)?;
    binary(alloc, place, op, left, right)
}

/// The expression that is spelled, with its type.
#[cycle(expression)]
pub fn checked_expression(alloc: Global, scope: &Scope, e: &ParsedExpr) -> Result<Typed, CheckFault>
    ensures { Gives plain_typed result (checked_expression (plain_scope scope.now) (read.plain_expr e.now)) }
{
    match &*e.kind {
        ParsedExprKind::Name(name) => named(alloc, scope, *name),
        ParsedExprKind::Constant(place, kind, literal) => constant(alloc, *place, *kind, *literal),
        ParsedExprKind::Binary(place, op, a, b) => operation(alloc, scope, *place, *op, a, b),
        ParsedExprKind::Minus(place, a) => negated(alloc, scope, *place, a),
        ParsedExprKind::Flip(place, a) => flipped(alloc, scope, *place, a),
        ParsedExprKind::Cast(place, kind, a) => converted(alloc, scope, *place, *kind, a),
        ParsedExprKind::Load(place, kind, a) => loaded(alloc, scope, *place, *kind, a),
    }
}

/// An expression of the type, which is demanded at the place.
pub fn of_type(
    alloc: Global,
    scope: &Scope,
    kind: MonType,
    place: Place,
    e: &ParsedExpr,
) -> Result<MonExpr, CheckFault>
    ensures { Gives plain_expr result (of_type (plain_scope scope.now) kind place (read.plain_expr e.now)) }
{
    let (value, found) = checked_expression(alloc, scope, e)?;
    if same_type(found, kind) {
        Ok(value)
    } else {
        Err(CheckFault::BadType(place))
    }
}

/// An expression of type `i32`.
pub fn condition(alloc: Global, scope: &Scope, e: &ParsedExpr) -> Result<MonExpr, CheckFault>
    ensures { Gives plain_expr result (condition (plain_scope scope.now) (read.plain_expr e.now)) }
{
    of_type(alloc, scope, MonType::I32, place_of(e), e)
}
