//! What each form of an expression demands of its parts, which have no fault (C99 6.5): the conversions of its operands in place, and
//! the type that it has.

ghost use Rattle.std.specs.Prelude.{◌≡◌, IfErr, IfOk, OnOk, Some, cond, option_map};
ghost use Rattle.c_syntax.specs.Ctypes.{Ptr, plain_type};
ghost use Rattle.c_syntax.specs.Expressions.{Assign, Binary, Both, Bump, Cast, Either, Index};
ghost use Rattle.c_syntax.specs.Expressions.{Node, SizeOfExpr, SizeOfType, Unary, place_of, plain_expr, plain_kind, type_of};
ghost use Rattle.c_syntax.specs.declared.expression.UnOp.TheVariants as unary;
ghost use Rattle.c_model.specs.Checked.{Good};
ghost use Rattle.c_model.specs.Conversions.{common, is_shift, promoted};
ghost use Rattle.c_model.specs.ExpressionTyping.{assign, both_of, bump, decayed, either_of, element, in_int, in_type, is_place};
ghost use Rattle.c_model.specs.ExpressionTyping.{index, knows_elements, on_integers, on_pointers};
ghost use Rattle.c_model.specs.ExpressionTyping.{points_to_unknown, size_of_expression, size_of_type, unary_on};
ghost use Rattle.c_scopes.specs.Answers.{Answers, IsRefusal};
ghost use Rattle.c_scopes.specs.Sights.{plain_sight};
ghost use Rattle.c_expression_rules.specs.Operators.{assigned_with, bumped, compoundable, element_of};
ghost use Rattle.c_expression_rules.specs.Operators.{pointed_element, has_elements, has_size, indexed_type, typed_literal};

use c_conversions::conversion::{
    are_compatible, common, fits, integer_type, is_difference, is_equality, is_relation, is_scalar,
    is_shift, is_step, is_void, pointed, promoted, result_type, same_type,
};
use c_scopes::fault::{TypeFault, no_name, no_type};
use c_scopes::limits::{KnownSize, sized};
use c_scopes::sight::Sight;
use c_syntax::copy::copy_type;
use c_syntax::{BinOp, BumpOp, CInt, CType, Expr, ExprKind, Place, UnOp, Use};
use std::alloc::{AllocError, Global};
use std::mem::replace;

/// Puts another kind in the place of one.
pub fn put(kind: &mut ExprKind, by: ExprKind)
    ensures { kind.new ≡ by }
{
    drop(replace(kind, by));
}

/// Puts a cast around an expression. Its box and its types are there before the expression moves into it.
fn cast_around(alloc: Global, ctype: &CType, e: &mut Expr) -> Result<(), AllocError>
    ensures { OnOk result (plain_expr e.new ≡ Node (place_of (plain_expr e.old)) (plain_type ctype.now) (Cast (plain_type ctype.now) (plain_expr e.old))) }
{
    let kind = Box::new(alloc, ExprKind::Letter(0))?;
    let to = copy_type(alloc, ctype)?;
    let ctype = copy_type(alloc, ctype)?;
    let place = e.place;
    let operand = replace(e, Expr { place, kind, ctype });
    put(&mut e.kind, ExprKind::Cast(to, operand));
    Ok(())
}

/// Puts an expression in a type: in a cast, where it has another (C99 6.3).
pub fn in_type(alloc: Global, ctype: &CType, e: &mut Expr) -> Result<(), AllocError>
    ensures { OnOk result (plain_expr e.new ≡ in_type (plain_type ctype.now) (plain_expr e.old)) }
{
    if same_type(&e.ctype, ctype) {
        Ok(())
    } else {
        cast_around(alloc, ctype, e)
    }
}

pub fn in_int(alloc: Global, k: CInt, e: &mut Expr) -> Result<(), AllocError>
    ensures { OnOk result (plain_expr e.new ≡ in_int k (plain_expr e.old)) }
{
    let ctype = CType::Int(k);
    in_type(alloc, &ctype, e)
}

/// A pointer to a type.
pub fn pointer_to(alloc: Global, t: &CType) -> Result<CType, AllocError>
    ensures { IfOk result (λ p. plain_type p ≡ Ptr (plain_type t.now)) }
{
    let t = copy_type(alloc, t)?;
    Ok(CType::Ptr(Box::new(alloc, t)?))
}

/// The type of an array's elements, where the type is an array's.
fn element_of(t: &CType) -> Option<&CType>
    ensures { option_map (λ u. plain_type u.now) result ≡ element_of (plain_type t.now) }
{
    match t {
        CType::Array(t, _) => Some(t),
        _ => None,
    }
}

/// An array is a pointer to its first element, in a cast (C99 6.3.2.1 p3).
pub fn decay(alloc: Global, e: &mut Expr) -> Result<(), AllocError>
    ensures { OnOk result (plain_expr e.new ≡ decayed (plain_expr e.old)) }
{
    match element_of(&e.ctype) {
        None => Ok(()),
        Some(t) => {
            let ctype = pointer_to(alloc, t)?;
            cast_around(alloc, &ctype, e)
        }
    }
}

/// Whether an expression designates an object (C99 6.3.2.1, 6.5.2.3).
pub fn is_place(e: &Expr) -> bool
    ensures { result ≡ is_place (plain_expr e.now) }
{
    match &*e.kind {
        ExprKind::Variable(x) => x.decl != Use::LIBRARY,
        ExprKind::Text(_)
        | ExprKind::Unary(UnOp::Deref, _)
        | ExprKind::Index(..)
        | ExprKind::Arrow(..) => true,
        ExprKind::Dot(a, _) => is_place(a),
        _ => false,
    }
}

/// An integer literal has the first type that holds it (C99 6.4.4.1).
pub fn literal(place: Place, kind: &ExprKind) -> Result<CType, TypeFault>
    ensures typed { Answers (λ t. Node place (plain_type t) (plain_kind kind.now)) (typed_literal place (plain_kind kind.now)) result }
    ensures sure { IfErr result IsRefusal }
{
    match kind {
        ExprKind::Number(n, Some(k)) if fits(*k, *n) => Ok(CType::Int(*k)),
        _ => Err(no_type(place)),
    }
}

/// A type that has a size.
pub fn has_size(sight: &Sight, place: Place, t: &CType) -> Result<(), TypeFault>
    ensures checked { Answers (λ u. u) (has_size (plain_sight sight.now) place (plain_type t.now)) result }
    ensures sure { IfErr result IsRefusal }
{
    match sized(&sight.structs, t) {
        KnownSize::HasSize => Ok(()),
        KnownSize::HasNoSize => Err(no_type(place)),
        KnownSize::NotYet => Err(no_name(place)),
    }
}

/// A type to which a pointer goes on by elements: it isn't void, and its size is known.
pub fn elements(sight: &Sight, place: Place, t: &CType) -> Result<(), TypeFault>
    ensures checked { Answers (λ u. u) (has_elements (plain_sight sight.now) place (plain_type t.now)) result }
    ensures sure { IfErr result IsRefusal }
{
    if is_void(t) {
        Err(no_type(place))
    } else {
        has_size(sight, place, t)
    }
}

/// Whether a type points to a struct whose members aren't known yet.
fn points_to_unknown(sight: &Sight, t: &CType) -> bool
    ensures { result ≡ points_to_unknown (plain_sight sight.now) (plain_type t.now) }
{
    match t {
        CType::Ptr(t) => sized(&sight.structs, t) == KnownSize::NotYet,
        _ => false,
    }
}

/// Whether an operator knows the sizes that it needs of what its operands point to (C99 6.5.6 p2, p3).
pub fn knows_elements(sight: &Sight, op: BinOp, t: &CType, u: &CType) -> bool
    ensures { result ≡ knows_elements (plain_sight sight.now) op (plain_type t.now) (plain_type u.now) }
{
    !(is_step(op, true) && (points_to_unknown(sight, t) || points_to_unknown(sight, u)))
}

/// `a && b` and `a || b` (C99 6.5.13, 6.5.14).
pub fn truth_of(place: Place, a: &Expr, b: &Expr) -> Result<CType, TypeFault>
    ensures both { Answers (λ t. Node place (plain_type t) (Both (plain_expr a.now) (plain_expr b.now)))
        (both_of place (plain_expr a.now) (plain_expr b.now)) result }
    ensures either { Answers (λ t. Node place (plain_type t) (Either (plain_expr a.now) (plain_expr b.now)))
        (either_of place (plain_expr a.now) (plain_expr b.now)) result }
    ensures sure { IfErr result IsRefusal }
{
    if is_scalar(&a.ctype) && is_scalar(&b.ctype) {
        Ok(CType::Int(CInt::I32))
    } else {
        Err(no_type(place))
    }
}

/// `sizeof` of a type that has a size (C99 6.5.3.4).
pub fn size_of_type(sight: &Sight, place: Place, u: &CType) -> Result<CType, TypeFault>
    ensures { Answers (λ t. Node place (plain_type t) (SizeOfType (plain_type u.now)))
        (size_of_type (plain_sight sight.now) place (plain_type u.now)) result }
{
    has_size(sight, place, u)?;
    Ok(CType::Int(CInt::U64))
}

/// `sizeof` of an expression that has a size (C99 6.5.3.4).
pub fn size_of_expression(sight: &Sight, place: Place, a: &Expr) -> Result<CType, TypeFault>
    ensures { Answers (λ t. Node place (plain_type t) (SizeOfExpr (plain_expr a.now)))
        (size_of_expression (plain_sight sight.now) place (plain_expr a.now)) result }
{
    has_size(sight, place, &a.ctype)?;
    Ok(CType::Int(CInt::U64))
}

/// `!a` (C99 6.5.3.3).
fn not(alloc: Global, place: Place, a: &mut Expr) -> Result<CType, TypeFault>
    ensures { Answers (λ t. Node place (plain_type t) (Unary unary.Not (plain_expr a.new))) (unary_on place unary.Not (plain_expr a.old)) result }
{
    decay(alloc, a)?;
    if is_scalar(&a.ctype) {
        Ok(CType::Int(CInt::I32))
    } else {
        Err(no_type(place))
    }
}

/// `&a` (C99 6.5.3.2).
fn address(alloc: Global, place: Place, a: &Expr) -> Result<CType, TypeFault>
    ensures { Answers (λ t. Node place (plain_type t) (Unary unary.Address (plain_expr a.now))) (unary_on place unary.Address (plain_expr a.now)) result }
{
    if is_place(a) {
        let ctype = pointer_to(alloc, &a.ctype)?;
        Ok(ctype)
    } else {
        Err(no_type(place))
    }
}

/// `*a` (C99 6.5.3.2).
fn behind(alloc: Global, place: Place, a: &mut Expr) -> Result<CType, TypeFault>
    ensures { Answers (λ t. Node place (plain_type t) (Unary unary.Deref (plain_expr a.new))) (unary_on place unary.Deref (plain_expr a.old)) result }
{
    decay(alloc, a)?;
    match pointed(&a.ctype) {
        None => Err(no_type(place)),
        Some(t) => {
            if is_void(t) {
                return Err(no_type(place));
            }
            let ctype = copy_type(alloc, t)?;
            Ok(ctype)
        }
    }
}

/// What `a op= b`, and `++` and `--`, demand, with a right operand that is an integer or isn't (C99 6.5.16.2, 6.5.2.4, 6.5.3.1).
fn compoundable(
    sight: &Sight,
    place: Place,
    op: BinOp,
    a: &Expr,
    integer: bool,
) -> Result<(), TypeFault>
    ensures { Answers (λ u. u) (compoundable (plain_sight sight.now) place op (plain_expr a.now) integer) result }
{
    match integer_type(&a.ctype) {
        Some(_) => {
            if is_place(a) && integer {
                Ok(())
            } else {
                Err(no_type(place))
            }
        }
        None => match pointed(&a.ctype) {
            None => Err(no_type(place)),
            Some(t) => {
                if is_place(a) && integer && is_step(op, true) {
                    elements(sight, place, t)
                } else {
                    Err(no_type(place))
                }
            }
        },
    }
}

/// `a op= b` of types that fit the operator.
fn assigned_with(
    alloc: Global,
    sight: &Sight,
    place: Place,
    op: BinOp,
    a: &Expr,
    b: &Expr,
) -> Result<CType, TypeFault>
    ensures { Answers (λ t. Node place (plain_type t) (Assign (Some op) (plain_expr a.now) (plain_expr b.now)))
        (assigned_with (plain_sight sight.now) place op (plain_expr a.now) (plain_expr b.now)) result }
{
    compoundable(sight, place, op, a, integer_type(&b.ctype).is_some())?;
    let ctype = copy_type(alloc, &a.ctype)?;
    Ok(ctype)
}

/// `a op= b` (C99 6.5.16.2).
pub fn compounded(
    alloc: Global,
    sight: &Sight,
    place: Place,
    op: BinOp,
    a: &Expr,
    b: &Expr,
) -> Result<CType, TypeFault>
    ensures { Answers (λ t. Node place (plain_type t) (Assign (Some op) (plain_expr a.now) (plain_expr b.now)))
        (assign (plain_sight sight.now) place (Some op) (plain_expr a.now) (plain_expr b.now)) result }
{
    if !knows_elements(sight, op, &a.ctype, &b.ctype) {
        return Err(no_name(place));
    }
    assigned_with(alloc, sight, place, op, a, b)
}

/// `++` and `--` of a type that fits.
fn bumped(
    alloc: Global,
    sight: &Sight,
    place: Place,
    _op: BumpOp,
    a: &Expr,
) -> Result<CType, TypeFault>
    ensures { Answers (λ t. Node place (plain_type t) (Bump _op (plain_expr a.now))) (bumped (plain_sight sight.now) place _op (plain_expr a.now)) result }
{
    compoundable(sight, place, BinOp::Add, a, true)?;
    let ctype = copy_type(alloc, &a.ctype)?;
    Ok(ctype)
}

/// `++` and `--` (C99 6.5.2.4, 6.5.3.1).
pub fn bump(
    alloc: Global,
    sight: &Sight,
    place: Place,
    op: BumpOp,
    a: &Expr,
) -> Result<CType, TypeFault>
    ensures { Answers (λ t. Node place (plain_type t) (Bump op (plain_expr a.now))) (bump (plain_sight sight.now) place op (plain_expr a.now)) result }
{
    let one = CType::Int(CInt::I32);
    if !knows_elements(sight, BinOp::Add, &a.ctype, &one) {
        return Err(no_name(place));
    }
    bumped(alloc, sight, place, op, a)
}

/// Prefix operators (C99 6.5.3.2, 6.5.3.3).
pub fn unary(alloc: Global, place: Place, op: UnOp, a: &mut Expr) -> Result<CType, TypeFault>
    ensures { Answers (λ t. Node place (plain_type t) (Unary op (plain_expr a.new))) (unary_on place op (plain_expr a.old)) result }
{
    match op {
        UnOp::Not => not(alloc, place, a),
        UnOp::Address => address(alloc, place, a),
        UnOp::Deref => behind(alloc, place, a),
        UnOp::Plus | UnOp::Minus | UnOp::Flip => match integer_type(&a.ctype) {
            None => Err(no_type(place)),
            Some(k) => {
                in_int(alloc, promoted(k), a)?;
                Ok(CType::Int(promoted(k)))
            }
        },
    }
}

/// The types that an operator takes its operands in: each promoted, or both in the common type.
fn operand_types(op: BinOp, k: CInt, l: CInt) -> (CInt, CInt)
    ensures first { result.0 ≡ cond (is_shift op) (promoted k) (common k l) }
    ensures second { result.1 ≡ cond (is_shift op) (promoted l) (common k l) }
{
    if is_shift(op) {
        (promoted(k), promoted(l))
    } else {
        (common(k, l), common(k, l))
    }
}

/// Two integers, each promoted, or both in the common type (C99 6.5.5 to 6.5.12).
pub fn on_integers(
    alloc: Global,
    place: Place,
    op: BinOp,
    k: CInt,
    l: CInt,
    a: &mut Expr,
    b: &mut Expr,
) -> Result<CType, TypeFault>
    ensures { Answers (λ t. Node place (plain_type t) (Binary op (plain_expr a.new) (plain_expr b.new)))
        (Good (on_integers place op k l (plain_expr a.old) (plain_expr b.old))) result }
{
    let (first, second) = operand_types(op, k, l);
    in_int(alloc, first, a)?;
    in_int(alloc, second, b)?;
    Ok(CType::Int(result_type(op, k, l)))
}

/// Two pointers: their difference, an order, or whether they are equal (C99 6.5.6 p9, 6.5.8 p2, 6.5.9 p2).
pub fn on_pointers(
    sight: &Sight,
    place: Place,
    op: BinOp,
    t: &CType,
    u: &CType,
    a: &Expr,
    b: &Expr,
) -> Result<CType, TypeFault>
    requires left { type_of (plain_expr a.now) ≡ Ptr (plain_type t.now) }
    requires right { type_of (plain_expr b.now) ≡ Ptr (plain_type u.now) }
    ensures { Answers (λ r. Node place (plain_type r) (Binary op (plain_expr a.now) (plain_expr b.now)))
        (on_pointers (plain_sight sight.now) place op (plain_type t.now) (plain_type u.now) (plain_expr a.now) (plain_expr b.now)) result }
{
    if is_difference(op) {
        if !same_type(t, u) {
            return Err(no_type(place));
        }
        elements(sight, place, t)?;
        return Ok(CType::Int(CInt::I64));
    }
    let fits = if is_equality(op) {
        are_compatible(&a.ctype, &b.ctype)
    } else {
        is_relation(op) && same_type(t, u)
    };
    if fits {
        Ok(CType::Int(CInt::I32))
    } else {
        Err(no_type(place))
    }
}

/// The type of an element that a pointer goes on to.
fn element_type(alloc: Global, sight: &Sight, place: Place, t: &CType) -> Result<CType, TypeFault>
    ensures { Answers plain_type (pointed_element (plain_sight sight.now) place (plain_type t.now)) result }
{
    elements(sight, place, t)?;
    let t = copy_type(alloc, t)?;
    Ok(t)
}

/// The type of `a[b]`, of which one is a pointer and the other an integer (C99 6.5.2.1).
fn indexed_type(
    alloc: Global,
    sight: &Sight,
    place: Place,
    u: &CType,
    v: &CType,
) -> Result<CType, TypeFault>
    ensures { Answers plain_type (indexed_type (plain_sight sight.now) place (plain_type u.now) (plain_type v.now)) result }
{
    match pointed(u) {
        Some(t) => {
            if integer_type(v).is_some() {
                element_type(alloc, sight, place, t)
            } else {
                Err(no_type(place))
            }
        }
        None => match pointed(v) {
            None => Err(no_type(place)),
            Some(t) => {
                if integer_type(u).is_some() {
                    element_type(alloc, sight, place, t)
                } else {
                    Err(no_type(place))
                }
            }
        },
    }
}

/// `a[b]` of types that fit.
fn element(
    alloc: Global,
    sight: &Sight,
    place: Place,
    a: &Expr,
    b: &Expr,
) -> Result<CType, TypeFault>
    ensures { Answers (λ t. Node place (plain_type t) (Index (plain_expr a.now) (plain_expr b.now)))
        (element (plain_sight sight.now) place (plain_expr a.now) (plain_expr b.now)) result }
{
    indexed_type(alloc, sight, place, &a.ctype, &b.ctype)
}

/// `a[b]` (C99 6.5.2.1).
pub fn index(
    alloc: Global,
    sight: &Sight,
    place: Place,
    a: &Expr,
    b: &Expr,
) -> Result<CType, TypeFault>
    ensures { Answers (λ t. Node place (plain_type t) (Index (plain_expr a.now) (plain_expr b.now)))
        (index (plain_sight sight.now) place (plain_expr a.now) (plain_expr b.now)) result }
{
    if !knows_elements(sight, BinOp::Add, &a.ctype, &b.ctype) {
        return Err(no_name(place));
    }
    element(alloc, sight, place, a, b)
}
