//! Operators on two values, and choices between them (C99 6.5.5 to 6.5.12, 6.5.15).

ghost use Rattle.std.specs.Prelude.{◌≡◌, IfOk, OnOk, option_map, true};
ghost use Rattle.c_syntax.specs.Ctypes.{plain_type};
ghost use Rattle.c_syntax.specs.Expressions.{Binary, Choice, Node, plain_expr, type_of};
ghost use Rattle.c_model.specs.Checked.{given};
ghost use Rattle.c_model.specs.ExpressionTyping.{binary, choice_of, choice_type, in_type, no_type, on_integer_and_pointer, on_pointer_and_integer};
ghost use Rattle.c_model.specs.ExpressionTyping.{on_pointers, operated, pointed, pointer_choice};
ghost use Rattle.c_scopes.specs.Answers.{Answers};
ghost use Rattle.c_scopes.specs.Sights.{plain_sight};
ghost use Rattle.c_expression_rules.specs.Constants.{has_small_sizes};

use crate::constant::is_null;
use crate::operator::{elements, in_type, knows_elements, on_integers, on_pointers};
use c_conversions::conversion::{
    are_compatible, common, integer_type, is_equality, is_pointer, is_scalar, is_step, is_void,
    pointed, points_to_void,
};
use c_scopes::fault::{TypeFault, no_name, no_type};
use c_scopes::sight::Sight;
use c_syntax::copy::copy_type;
use c_syntax::{BinOp, CInt, CType, Expr, Place};
use std::alloc::{AllocError, Global};

/// A pointer and an integer on its right: so many elements on, or the null constant (C99 6.5.6 p8, 6.5.9 p2).
fn on_pointer_and_integer(
    alloc: Global,
    sight: &Sight,
    place: Place,
    op: BinOp,
    a: &Expr,
    b: &mut Expr,
) -> Result<CType, TypeFault>
    requires { has_small_sizes (plain_sight sight.now).structs (plain_expr b.old) ≡ true }
    ensures { Answers (λ t. Node place (plain_type t) (Binary op (plain_expr a.now) (plain_expr b.new)))
        (given (pointed (type_of (plain_expr a.now))) (no_type place)
        (λ t. on_pointer_and_integer (plain_sight sight.now) place op t (plain_expr a.now) (plain_expr b.old))) result }
{
    match pointed(&a.ctype) {
        None => Err(no_type(place)),
        Some(t) => {
            if is_step(op, true) {
                elements(sight, place, t)?;
                let ctype = copy_type(alloc, &a.ctype)?;
                Ok(ctype)
            } else if is_equality(op) && is_null(sight, b) {
                in_type(alloc, &a.ctype, b)?;
                Ok(CType::Int(CInt::I32))
            } else {
                Err(no_type(place))
            }
        }
    }
}

/// The same with the integer on its left.
fn on_integer_and_pointer(
    alloc: Global,
    sight: &Sight,
    place: Place,
    op: BinOp,
    a: &mut Expr,
    b: &Expr,
) -> Result<CType, TypeFault>
    requires { has_small_sizes (plain_sight sight.now).structs (plain_expr a.old) ≡ true }
    ensures { Answers (λ t. Node place (plain_type t) (Binary op (plain_expr a.new) (plain_expr b.now)))
        (given (pointed (type_of (plain_expr b.now))) (no_type place)
        (λ t. on_integer_and_pointer (plain_sight sight.now) place op t (plain_expr a.old) (plain_expr b.now))) result }
{
    match pointed(&b.ctype) {
        None => Err(no_type(place)),
        Some(t) => {
            if is_step(op, false) {
                elements(sight, place, t)?;
                let ctype = copy_type(alloc, &b.ctype)?;
                Ok(ctype)
            } else if is_equality(op) && is_null(sight, a) {
                in_type(alloc, &b.ctype, a)?;
                Ok(CType::Int(CInt::I32))
            } else {
                Err(no_type(place))
            }
        }
    }
}

/// Two operands of which neither is an integer.
fn without_integers(
    sight: &Sight,
    place: Place,
    op: BinOp,
    a: &Expr,
    b: &Expr,
) -> Result<CType, TypeFault>
    ensures { Answers (λ r. Node place (plain_type r) (Binary op (plain_expr a.now) (plain_expr b.now)))
        (given (pointed (type_of (plain_expr a.now))) (no_type place) (λ t. given (pointed (type_of (plain_expr b.now))) (no_type place)
        (λ u. on_pointers (plain_sight sight.now) place op t u (plain_expr a.now) (plain_expr b.now)))) result }
{
    match pointed(&a.ctype) {
        None => Err(no_type(place)),
        Some(t) => match pointed(&b.ctype) {
            None => Err(no_type(place)),
            Some(u) => on_pointers(sight, place, op, t, u, a, b),
        },
    }
}

/// Two values of types that fit the operator.
fn operated(
    alloc: Global,
    sight: &Sight,
    place: Place,
    op: BinOp,
    a: &mut Expr,
    b: &mut Expr,
) -> Result<CType, TypeFault>
    requires left { has_small_sizes (plain_sight sight.now).structs (plain_expr a.old) ≡ true }
    requires right { has_small_sizes (plain_sight sight.now).structs (plain_expr b.old) ≡ true }
    ensures { Answers (λ t. Node place (plain_type t) (Binary op (plain_expr a.new) (plain_expr b.new)))
        (operated (plain_sight sight.now) place op (plain_expr a.old) (plain_expr b.old)) result }
{
    match integer_type(&a.ctype) {
        Some(k) => match integer_type(&b.ctype) {
            Some(l) => on_integers(alloc, place, op, k, l, a, b),
            None => on_integer_and_pointer(alloc, sight, place, op, a, b),
        },
        None => match integer_type(&b.ctype) {
            Some(_) => on_pointer_and_integer(alloc, sight, place, op, a, b),
            None => without_integers(sight, place, op, a, b),
        },
    }
}

/// Binary operators (C99 6.5.5 to 6.5.12). A struct whose members aren't known yet is told before the other demands.
pub fn binary(
    alloc: Global,
    sight: &Sight,
    place: Place,
    op: BinOp,
    a: &mut Expr,
    b: &mut Expr,
) -> Result<CType, TypeFault>
    requires left { has_small_sizes (plain_sight sight.now).structs (plain_expr a.old) ≡ true }
    requires right { has_small_sizes (plain_sight sight.now).structs (plain_expr b.old) ≡ true }
    ensures { Answers (λ t. Node place (plain_type t) (Binary op (plain_expr a.new) (plain_expr b.new)))
        (binary (plain_sight sight.now) place op (plain_expr a.old) (plain_expr b.old)) result }
{
    if !knows_elements(sight, op, &a.ctype, &b.ctype) {
        return Err(no_name(place));
    }
    operated(alloc, sight, place, op, a, b)
}

/// The type of a choice between two pointers, of which one may be the null constant or point to void (C99 6.5.15 p6).
fn pointer_choice<'a>(sight: &Sight, b: &'a Expr, c: &'a Expr) -> Option<&'a CType>
    requires first { has_small_sizes (plain_sight sight.now).structs (plain_expr b.now) ≡ true }
    requires second { has_small_sizes (plain_sight sight.now).structs (plain_expr c.now) ≡ true }
    ensures { option_map (λ t. plain_type t.now) result ≡ pointer_choice (plain_sight sight.now) (plain_expr b.now) (plain_expr c.now) }
{
    if is_pointer(&b.ctype) && is_null(sight, c) {
        Some(&b.ctype)
    } else if is_pointer(&c.ctype) && is_null(sight, b) {
        Some(&c.ctype)
    } else if are_compatible(&b.ctype, &c.ctype) {
        if points_to_void(&b.ctype) {
            Some(&b.ctype)
        } else {
            Some(&c.ctype)
        }
    } else {
        None
    }
}

/// A copy of a type that is there.
fn copy_of(alloc: Global, t: Option<&CType>) -> Result<Option<CType>, AllocError>
    ensures { IfOk result (λ o. option_map plain_type o ≡ option_map (λ u. plain_type u.now) t.entry) }
{
    match t {
        None => Ok(None),
        Some(t) => {
            let t = copy_type(alloc, t)?;
            Ok(Some(t))
        }
    }
}

/// The type of `a ? b : c` (C99 6.5.15 p5, p6).
fn choice_type(
    alloc: Global,
    sight: &Sight,
    b: &Expr,
    c: &Expr,
) -> Result<Option<CType>, AllocError>
    requires first { has_small_sizes (plain_sight sight.now).structs (plain_expr b.now) ≡ true }
    requires second { has_small_sizes (plain_sight sight.now).structs (plain_expr c.now) ≡ true }
    ensures { IfOk result (λ o. option_map plain_type o ≡ choice_type (plain_sight sight.now) (plain_expr b.now) (plain_expr c.now)) }
{
    match integer_type(&b.ctype) {
        Some(k) => match integer_type(&c.ctype) {
            Some(l) => Ok(Some(CType::Int(common(k, l)))),
            None => copy_of(alloc, pointer_choice(sight, b, c)),
        },
        None => {
            if is_void(&b.ctype) && is_void(&c.ctype) {
                Ok(Some(CType::Void))
            } else {
                copy_of(alloc, pointer_choice(sight, b, c))
            }
        }
    }
}

/// Puts both operands of a choice in its type.
fn in_choice(alloc: Global, ctype: &CType, b: &mut Expr, c: &mut Expr) -> Result<(), AllocError>
    ensures first { OnOk result (plain_expr b.new ≡ in_type (plain_type ctype.now) (plain_expr b.old)) }
    ensures second { OnOk result (plain_expr c.new ≡ in_type (plain_type ctype.now) (plain_expr c.old)) }
{
    in_type(alloc, ctype, b)?;
    in_type(alloc, ctype, c)
}

/// `a ? b : c` (C99 6.5.15).
pub fn choice_of(
    alloc: Global,
    sight: &Sight,
    place: Place,
    a: &Expr,
    b: &mut Expr,
    c: &mut Expr,
) -> Result<CType, TypeFault>
    requires first { has_small_sizes (plain_sight sight.now).structs (plain_expr b.old) ≡ true }
    requires second { has_small_sizes (plain_sight sight.now).structs (plain_expr c.old) ≡ true }
    ensures { Answers (λ t. Node place (plain_type t) (Choice (plain_expr a.now) (plain_expr b.new) (plain_expr c.new)))
        (choice_of (plain_sight sight.now) place (plain_expr a.now) (plain_expr b.old) (plain_expr c.old)) result }
{
    if !is_scalar(&a.ctype) {
        return Err(no_type(place));
    }
    match choice_type(alloc, sight, b, c)? {
        None => Err(no_type(place)),
        Some(ctype) => {
            in_choice(alloc, &ctype, b, c)?;
            Ok(ctype)
        }
    }
}
