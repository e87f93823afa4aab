//! Copies of names and types, and of the expressions that stand in types.

ghost use Rattle.std.specs.Prelude.{◌≡◌, IfOk, Ok};
ghost use Rattle.c_syntax.specs.Expressions.{plain_expr, plain_exprs, plain_kind, plain_length, plain_type};

use crate::expression::{Expr, ExprKind};
use crate::name::Name;
use crate::types::{CType, Length};
use std::alloc::{AllocError, Global};

/// A copy of a name.
pub fn copy_name(alloc: Global, name: &Name) -> Result<Name, AllocError>
    ensures { IfOk result (λ copy. copy ≡ name.now) }
{
    Ok(Name::new(name.bytes().to_vec(alloc)?))
}

/// A copy of a type.
#[cycle(copy)]
pub fn copy_type(alloc: Global, t: &CType) -> Result<CType, AllocError>
    ensures { IfOk result (λ copy. plain_type copy ≡ plain_type t.now) }
{
    match t {
        CType::Void => Ok(CType::Void),
        CType::Int(k) => Ok(CType::Int(*k)),
        CType::Ptr(t) => {
            let t = copy_type(alloc, t)?;
            Ok(CType::Ptr(Box::new(alloc, t)?))
        }
        CType::Array(t, n) => {
            let n = copy_length(alloc, n)?;
            let t = copy_type(alloc, t)?;
            Ok(CType::Array(Box::new(alloc, t)?, n))
        }
        CType::Struct(n) => Ok(CType::Struct(*n)),
        CType::Named(x) => Ok(CType::Named(*x)),
        CType::StructTag(x, at) => Ok(CType::StructTag(*x, *at)),
        CType::EnumTag(x, place) => Ok(CType::EnumTag(*x, *place)),
    }
}

#[cycle(copy)]
fn copy_length(alloc: Global, n: &Length) -> Result<Length, AllocError>
    ensures { IfOk result (λ copy. plain_length copy ≡ plain_length n.now) }
{
    match n {
        Length::Left => Ok(Length::Left),
        Length::Written(e) => {
            let e = copy_expr(alloc, e)?;
            Ok(Length::Written(Box::new(alloc, e)?))
        }
        Length::Count(n) => Ok(Length::Count(*n)),
    }
}

#[cycle(copy)]
fn copy_expr(alloc: Global, e: &Expr) -> Result<Expr, AllocError>
    ensures { IfOk result (λ copy. plain_expr copy ≡ plain_expr e.now) }
{
    let kind = copy_kind(alloc, &e.kind)?;
    let ctype = copy_type(alloc, &e.ctype)?;
    Ok(Expr {
        place: e.place,
        kind,
        ctype,
    })
}

#[cycle(copy)]
fn copy_all(alloc: Global, list: &[Expr]) -> Result<Vec<Expr>, AllocError>
    ensures { IfOk result (λ copies. plain_exprs copies.items ≡ plain_exprs list.now) }
{
    let mut copies = Vec::new(alloc);
    'list: for e in list {
        let e = copy_expr(alloc, e)?;
        copies.push(e)?;
    }
    Ok(copies)
}

/// Both values, where both were made.
fn both<A: Drop, B: Drop>(
    a: Result<A, AllocError>,
    b: Result<B, AllocError>,
) -> Result<(A, B), AllocError>
    ensures first { IfOk result (λ made. a ≡ Ok made.0) }
    ensures second { IfOk result (λ made. b ≡ Ok made.1) }
{
    let a = a?;
    let b = b?;
    Ok((a, b))
}

fn boxed(alloc: Global, kind: ExprKind) -> Result<Box<ExprKind>, AllocError>
    ensures { IfOk result (λ b. b.value ≡ kind) }
{
    Ok(Box::new(alloc, kind)?)
}

#[cycle(copy)]
fn copy_kind(alloc: Global, kind: &ExprKind) -> Result<Box<ExprKind>, AllocError>
    ensures { IfOk result (λ copy. plain_kind copy.value ≡ plain_kind kind.now) }
{
    match kind {
        ExprKind::Number(n, k) => boxed(alloc, ExprKind::Number(*n, *k)),
        ExprKind::Letter(n) => boxed(alloc, ExprKind::Letter(*n)),
        ExprKind::Text(n) => boxed(alloc, ExprKind::Text(*n)),
        ExprKind::Variable(x) => boxed(alloc, ExprKind::Variable(*x)),
        ExprKind::Unary(op, a) => {
            let a = copy_expr(alloc, a)?;
            boxed(alloc, ExprKind::Unary(*op, a))
        }
        ExprKind::Binary(op, a, b) => {
            let (a, b) = both(copy_expr(alloc, a), copy_expr(alloc, b))?;
            boxed(alloc, ExprKind::Binary(*op, a, b))
        }
        ExprKind::Both(a, b) => {
            let (a, b) = both(copy_expr(alloc, a), copy_expr(alloc, b))?;
            boxed(alloc, ExprKind::Both(a, b))
        }
        ExprKind::Either(a, b) => {
            let (a, b) = both(copy_expr(alloc, a), copy_expr(alloc, b))?;
            boxed(alloc, ExprKind::Either(a, b))
        }
        ExprKind::Choice(a, b, c) => {
            let operands = both(copy_expr(alloc, a), copy_expr(alloc, b));
            let ((a, b), c) = both(operands, copy_expr(alloc, c))?;
            boxed(alloc, ExprKind::Choice(a, b, c))
        }
        ExprKind::Assign(op, a, b) => {
            let (a, b) = both(copy_expr(alloc, a), copy_expr(alloc, b))?;
            boxed(alloc, ExprKind::Assign(*op, a, b))
        }
        ExprKind::Bump(op, a) => {
            let a = copy_expr(alloc, a)?;
            boxed(alloc, ExprKind::Bump(*op, a))
        }
        ExprKind::Call(f, args) => {
            let args = copy_all(alloc, args)?;
            boxed(alloc, ExprKind::Call(*f, args))
        }
        ExprKind::Cast(t, a) => {
            let (t, a) = both(copy_type(alloc, t), copy_expr(alloc, a))?;
            boxed(alloc, ExprKind::Cast(t, a))
        }
        ExprKind::SizeOfType(t) => {
            let t = copy_type(alloc, t)?;
            boxed(alloc, ExprKind::SizeOfType(t))
        }
        ExprKind::SizeOfExpr(a) => {
            let a = copy_expr(alloc, a)?;
            boxed(alloc, ExprKind::SizeOfExpr(a))
        }
        ExprKind::Index(a, b) => {
            let (a, b) = both(copy_expr(alloc, a), copy_expr(alloc, b))?;
            boxed(alloc, ExprKind::Index(a, b))
        }
        ExprKind::Dot(a, m) => {
            let a = copy_expr(alloc, a)?;
            boxed(alloc, ExprKind::Dot(a, *m))
        }
        ExprKind::Arrow(a, m) => {
            let a = copy_expr(alloc, a)?;
            boxed(alloc, ExprKind::Arrow(a, *m))
        }
        ExprKind::Comma(a, b) => {
            let (a, b) = both(copy_expr(alloc, a), copy_expr(alloc, b))?;
            boxed(alloc, ExprKind::Comma(a, b))
        }
    }
}
