//! Constant expressions (C99 6.6).

ghost use Rattle.std.specs.Prelude.{◌≡◌, ◌&&◌, cond, map, true};
ghost use Rattle.c_syntax.specs.Ctypes.{plain_type};
ghost use Rattle.c_syntax.specs.Expressions.{plain_expr};
ghost use Rattle.c_syntax.specs.Programs.{plain_layout};
ghost use Rattle.c_model.specs.Integers.{operate};
ghost use Rattle.c_model.specs.ExpressionTyping.{constant, integer_value, is_constant, is_constant_operator};
ghost use Rattle.c_model.specs.ExpressionTyping.{is_null, is_null_name, is_other, is_zero, tables_in};
ghost use Rattle.c_scopes.specs.Sights.{plain_sight};
ghost use Rattle.c_expression_rules.specs.Constants.{converted_to, folded, from, has_small_sizes, is_nought, one, size_number, true_of};

use c_conversions::arithmetic::{convert, operate, operate_one, truth};
use c_conversions::conversion::{integer_type, is_array};
use c_scopes::limits::small_size;
use c_scopes::sight::Sight;
use c_syntax::{BinOp, CType, Expr, ExprKind, Layout, UnOp, Use};

/// The size of a type, where it is within the limit.
fn size_in(structs: &[Layout], t: &CType) -> Option<i128>
    ensures { result ≡ size_number (map plain_layout structs.now) (plain_type t.now) }
{
    match small_size(structs, t) {
        None => None,
        Some(n) => Some(i128::from(n)),
    }
}

/// An operator on one value.
fn one(t: &CType, op: UnOp, x: i128) -> Option<i128>
    ensures { result ≡ one (plain_type t.now) op x }
{
    match op {
        UnOp::Not => Some(truth(x == 0)),
        UnOp::Deref | UnOp::Address => None,
        _ => operate_one(t, op, x),
    }
}

/// Whether a value that is there isn't 0.
fn is_other(x: Option<i128>) -> bool
    ensures { result ≡ is_other x }
{
    match x {
        None => false,
        Some(x) => x != 0,
    }
}

fn is_zero(x: Option<i128>) -> bool
    ensures { result ≡ is_zero x }
{
    match x {
        None => false,
        Some(x) => x == 0,
    }
}

/// The truth of a value that is there.
fn true_of(x: Option<i128>) -> Option<i128>
    ensures { result ≡ from x true_of }
{
    match x {
        None => None,
        Some(x) => Some(truth(x != 0)),
    }
}

/// A value that is there converted to a type.
fn converted_to(to: &CType, x: Option<i128>) -> Option<i128>
    ensures { result ≡ from x (converted_to (plain_type to.now)) }
{
    match (x, integer_type(to)) {
        (Some(x), Some(k)) => Some(convert(k, x)),
        (None, _) | (Some(_), None) => None,
    }
}

/// An operator on a value that is there.
fn applied(t: &CType, op: UnOp, x: Option<i128>) -> Option<i128>
    ensures { result ≡ from x (one (plain_type t.now) op) }
{
    match x {
        None => None,
        Some(x) => one(t, op, x),
    }
}

/// An operator on two values that are there.
fn operated(t: &CType, op: BinOp, x: Option<i128>, y: Option<i128>) -> Option<i128>
    ensures { result ≡ from x (λ x. from y (λ y. operate (plain_type t.now) op x y)) }
{
    match (x, y) {
        (Some(x), Some(y)) => operate(t, op, x, y),
        (None, _) | (Some(_), None) => None,
    }
}

/// The value of a choice, by those of its condition and of its operands.
fn chosen(x: Option<i128>, other: Option<i128>, zero: Option<i128>) -> Option<i128>
    ensures { result ≡ from x (λ x. cond (is_nought x) zero other) }
{
    match x {
        None => None,
        Some(x) => { if x == 0 { zero } else { other } }
    }
}

/// The value of a constant expression by its forms.
fn value_of(structs: &[Layout], e: &Expr) -> Option<i128>
    ensures { result ≡ folded (map plain_layout structs.now) (plain_expr e.now) }
{
    match &*e.kind {
        ExprKind::Number(n, _) => Some(*n),
        ExprKind::Letter(n) => Some(i128::from(*n)),
        ExprKind::Unary(op, a) => applied(&e.ctype, *op, value_of(structs, a)),
        ExprKind::Binary(op, a, b) => {
            operated(&e.ctype, *op, value_of(structs, a), value_of(structs, b))
        }
        ExprKind::Both(a, b) => {
            chosen(value_of(structs, a), true_of(value_of(structs, b)), Some(0))
        }
        ExprKind::Either(a, b) => {
            chosen(value_of(structs, a), Some(1), true_of(value_of(structs, b)))
        }
        ExprKind::Choice(a, b, c) => {
            chosen(
                value_of(structs, a),
                value_of(structs, b),
                value_of(structs, c),
            )
        }
        ExprKind::Cast(to, a) => {
            if is_array(&a.ctype) {
                None
            } else {
                converted_to(to, value_of(structs, a))
            }
        }
        ExprKind::SizeOfType(t) => size_in(structs, t),
        ExprKind::SizeOfExpr(a) => size_in(structs, &a.ctype),
        _ => None,
    }
}

fn is_constant_operator(op: UnOp) -> bool
    ensures { result ≡ is_constant_operator op }
{
    !matches!(op, UnOp::Deref | UnOp::Address)
}

fn are_both(p: bool, q: bool) -> bool
    ensures { result ≡ (p && q) }
{
    p && q
}

/// The value of an expression that is constant among the structs in sight.
fn value_in(sight: &Sight, e: &Expr) -> Option<i128>
    requires sizes { has_small_sizes (map plain_layout sight.now.structs.items) (plain_expr e.now) ≡ true }
    requires constant { is_constant (tables_in (plain_sight sight.now)) true (plain_expr e.now) ≡ true }
    ensures { result ≡ integer_value (tables_in (plain_sight sight.now)) (plain_expr e.now) }
{
    value_of(&sight.structs, e)
}

/// Whether what comes after a condition that is evaluated is evaluated: where the condition isn't 0.
fn is_after_other(sight: &Sight, evaluated: bool, a: &Expr) -> bool
    requires sizes { has_small_sizes (map plain_layout sight.now.structs.items) (plain_expr a.now) ≡ true }
    requires constant { is_constant (tables_in (plain_sight sight.now)) evaluated (plain_expr a.now) ≡ true }
    ensures { result ≡ (evaluated && is_other (integer_value (tables_in (plain_sight sight.now)) (plain_expr a.now))) }
{
    evaluated && is_other(value_in(sight, a))
}

/// The same where the condition is 0.
fn is_after_zero(sight: &Sight, evaluated: bool, a: &Expr) -> bool
    requires sizes { has_small_sizes (map plain_layout sight.now.structs.items) (plain_expr a.now) ≡ true }
    requires constant { is_constant (tables_in (plain_sight sight.now)) evaluated (plain_expr a.now) ≡ true }
    ensures { result ≡ (evaluated && is_zero (integer_value (tables_in (plain_sight sight.now)) (plain_expr a.now))) }
{
    evaluated && is_zero(value_in(sight, a))
}

/// An integer constant expression, which is evaluated or isn't: of integers alone, without variables, assignments and calls.
fn is_constant(sight: &Sight, evaluated: bool, e: &Expr) -> bool
    requires { has_small_sizes (map plain_layout sight.now.structs.items) (plain_expr e.now) ≡ true }
    ensures { result ≡ is_constant (tables_in (plain_sight sight.now)) evaluated (plain_expr e.now) }
{
    match &*e.kind {
        ExprKind::Number(..) | ExprKind::Letter(_) => true,
        ExprKind::SizeOfType(_) | ExprKind::SizeOfExpr(_) => true,
        ExprKind::Unary(op, a) => is_constant_operator(*op) && is_constant(sight, evaluated, a),
        ExprKind::Binary(_, a, b) => {
            is_constant(sight, evaluated, a) && is_constant(sight, evaluated, b)
        }
        ExprKind::Both(a, b) => {
            is_constant(sight, evaluated, a)
                && is_constant(sight, is_after_other(sight, evaluated, a), b)
        }
        ExprKind::Either(a, b) => {
            is_constant(sight, evaluated, a)
                && is_constant(sight, is_after_zero(sight, evaluated, a), b)
        }
        ExprKind::Choice(a, b, c) => {
            if is_constant(sight, evaluated, a) {
                let second = is_constant(sight, is_after_other(sight, evaluated, a), b);
                let third = is_constant(sight, is_after_zero(sight, evaluated, a), c);
                are_both(second, third)
            } else {
                false
            }
        }
        ExprKind::Cast(to, a) => integer_type(to).is_some() && is_constant(sight, evaluated, a),
        ExprKind::Comma(a, b) => {
            !evaluated && is_constant(sight, evaluated, a) && is_constant(sight, evaluated, b)
        }
        _ => false,
    }
}

/// The value of a typed integer constant expression.
pub fn constant(sight: &Sight, e: &Expr) -> Option<i128>
    requires { has_small_sizes (map plain_layout sight.now.structs.items) (plain_expr e.now) ≡ true }
    ensures { result ≡ constant (plain_sight sight.now) (plain_expr e.now) }
{
    if is_constant(sight, true, e) && integer_type(&e.ctype).is_some() {
        value_in(sight, e)
    } else {
        None
    }
}

/// `NULL`.
fn is_null_name(e: &Expr) -> bool
    ensures { result ≡ is_null_name (plain_expr e.now) }
{
    match &*e.kind {
        ExprKind::Variable(x) => x.decl == Use::LIBRARY,
        _ => false,
    }
}

/// The null constant (C99 6.3.2.3 p3).
pub fn is_null(sight: &Sight, e: &Expr) -> bool
    requires { has_small_sizes (map plain_layout sight.now.structs.items) (plain_expr e.now) ≡ true }
    ensures { result ≡ is_null (plain_sight sight.now) (plain_expr e.now) }
{
    is_null_name(e) || is_zero(constant(sight, e))
}
