//! Which values are kept in registers while what comes later is evaluated.

ghost use Rattle.std.specs.Prelude.{◌≡◌, ◌&&◌, if◌then◌else◌};
ghost use Rattle.c_syntax.specs.Ctypes.{plain_type};
ghost use Rattle.c_syntax.specs.Expressions.{plain_expr, plain_exprs};
ghost use Rattle.c_model.specs.Meaning.{bump_operator, is_array};
ghost use Rattle.mon_syntax.specs.Checking.{same_type};
ghost use Rattle.c_effects.specs.Expressions.{value_type};
ghost use Rattle.c_effects.specs.Full.{are_pure, gives_old, is_pure, is_settled, is_whole, keeps, keeps_all};

use crate::conversion::value_type;
use c_conversions::conversion::is_array;
use c_syntax::{BinOp, BumpOp, CType, Expr, ExprKind, UnOp, Use};
use mon_syntax::same_type;

/// Whether an expression has no effect and no call. What `sizeof` is of isn't evaluated (C99 6.5.3.4 p2).
pub fn is_pure(e: &Expr) -> bool
    ensures { result ≡ is_pure (plain_expr e.now) }
{
    match &*e.kind {
        ExprKind::Number(_, _)
        | ExprKind::Letter(_)
        | ExprKind::Text(_)
        | ExprKind::Variable(_)
        | ExprKind::SizeOfType(_)
        | ExprKind::SizeOfExpr(_) => true,
        ExprKind::Unary(_, a) => is_pure(a),
        ExprKind::Binary(_, a, b) => is_pure(a) && is_pure(b),
        ExprKind::Both(a, b) => is_pure(a) && is_pure(b),
        ExprKind::Either(a, b) => is_pure(a) && is_pure(b),
        ExprKind::Choice(a, b, c) => is_pure(a) && (is_pure(b) && is_pure(c)),
        ExprKind::Cast(_, a) => is_pure(a),
        ExprKind::Index(a, b) => is_pure(a) && is_pure(b),
        ExprKind::Dot(a, _) => is_pure(a),
        ExprKind::Arrow(a, _) => is_pure(a),
        ExprKind::Comma(a, b) => is_pure(a) && is_pure(b),
        ExprKind::Assign(_, _, _) | ExprKind::Bump(_, _) | ExprKind::Call(_, _) => false,
    }
}

/// Whether neither of two has an effect.
pub fn are_both_pure(a: &Expr, b: &Expr) -> bool
    ensures { result ≡ (is_pure (plain_expr a.now) && is_pure (plain_expr b.now)) }
{
    is_pure(a) && is_pure(b)
}

// Whether none of these has an effect.
fn are_pure(args: &[Expr]) -> bool
    ensures { result ≡ are_pure (plain_exprs args.now) }
{
    match args.split_first() {
        Some((e, rest)) => is_pure(e) && are_pure(rest),
        None => true,
    }
}

// Whether an expression is a whole variable or a literal, to whose block a register or a global points.
fn is_whole(e: &Expr) -> bool
    ensures { result ≡ is_whole (plain_expr e.now) }
{
    match &*e.kind {
        ExprKind::Text(_) | ExprKind::Variable(_) => true,
        ExprKind::Number(_, _)
        | ExprKind::Letter(_)
        | ExprKind::Unary(_, _)
        | ExprKind::Binary(_, _, _)
        | ExprKind::Both(_, _)
        | ExprKind::Either(_, _)
        | ExprKind::Choice(_, _, _)
        | ExprKind::Assign(_, _, _)
        | ExprKind::Bump(_, _)
        | ExprKind::Call(_, _)
        | ExprKind::Cast(_, _)
        | ExprKind::SizeOfType(_)
        | ExprKind::SizeOfExpr(_)
        | ExprKind::Index(_, _)
        | ExprKind::Dot(_, _)
        | ExprKind::Arrow(_, _)
        | ExprKind::Comma(_, _) => false,
    }
}

// Whether a cast is settled: it leaves a settled value as it is.
#[cycle(settled)]
fn is_settled_in(t: &CType, a: &Expr) -> bool
    ensures { result ≡ (if is_array (plain_type a.now.ctype) then is_whole (plain_expr a.now)
        else (same_type (value_type (plain_type a.now.ctype)) (value_type (plain_type t.now)) && is_settled (plain_expr a.now))) }
{
    if is_array(&a.ctype) {
        is_whole(a)
    } else {
        same_type(value_type(&a.ctype), value_type(t)) && is_settled(a)
    }
}

/// Whether no later effect changes the value: it is a constant or an address, or stands in a register.
#[cycle(settled)]
pub fn is_settled(e: &Expr) -> bool
    ensures { result ≡ is_settled (plain_expr e.now) }
{
    match &*e.kind {
        ExprKind::Number(_, _)
        | ExprKind::Letter(_)
        | ExprKind::Text(_)
        | ExprKind::Both(_, _)
        | ExprKind::Either(_, _)
        | ExprKind::Choice(_, _, _)
        | ExprKind::Assign(_, _, _)
        | ExprKind::Bump(_, _)
        | ExprKind::Call(_, _)
        | ExprKind::SizeOfType(_)
        | ExprKind::SizeOfExpr(_) => true,
        ExprKind::Variable(x) => x.decl == Use::LIBRARY,
        ExprKind::Unary(UnOp::Address, a) => is_whole(a),
        ExprKind::Cast(t, a) => is_settled_in(t, a),
        ExprKind::Comma(_, b) => is_settled(b),
        ExprKind::Unary(_, _)
        | ExprKind::Binary(_, _, _)
        | ExprKind::Index(_, _)
        | ExprKind::Dot(_, _)
        | ExprKind::Arrow(_, _) => false,
    }
}

/// Whether a value is kept while the other expression is evaluated.
pub fn keeps(a: &Expr, b: &Expr) -> bool
    ensures { result ≡ keeps (plain_expr a.now) (plain_expr b.now) }
{
    !is_settled(a) && !is_pure(b)
}

/// Whether it is kept while these are evaluated.
pub fn keeps_all(a: &Expr, args: &[Expr]) -> bool
    ensures { result ≡ keeps_all (plain_expr a.now) (plain_exprs args.now) }
{
    !is_settled(a) && !are_pure(args)
}

/// Whether `++` and `--` give the old value.
pub fn gives_old(op: BumpOp) -> bool
    ensures { result ≡ gives_old op }
{
    match op {
        BumpOp::PreUp | BumpOp::PreDown => false,
        BumpOp::PostUp | BumpOp::PostDown => true,
    }
}

/// The operator of `++` and of `--`.
pub fn bump_operator(op: BumpOp) -> BinOp
    ensures { result ≡ bump_operator op }
{
    match op {
        BumpOp::PreUp | BumpOp::PostUp => BinOp::Add,
        BumpOp::PreDown | BumpOp::PostDown => BinOp::Sub,
    }
}
