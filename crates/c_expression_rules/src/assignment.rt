//! Values that become those of a type: assignment, arguments and casts (C99 6.5.16.1, 6.5.2.2, 6.5.4).

ghost use Rattle.std.specs.Prelude.{◌≡◌, None, map, true};
ghost use Rattle.c_syntax.specs.Ctypes.{plain_type};
ghost use Rattle.c_syntax.specs.Expressions.{Assign, Cast, Node, plain_expr};
ghost use Rattle.c_model.specs.ExpressionTyping.{argument, argument_for, assign, assigned, assigned_scalar};
ghost use Rattle.c_model.specs.ExpressionTyping.{assigned_struct, cast, first_type, is_assigned, is_cast, is_passed};
ghost use Rattle.c_scopes.specs.Answers.{Answers};
ghost use Rattle.c_scopes.specs.Sights.{plain_sight};
ghost use Rattle.c_expression_rules.specs.Constants.{has_small_sizes};

use crate::constant::is_null;
use crate::format::is_printed;
use crate::operator::{compounded, has_size, in_type, is_place};
use c_conversions::conversion::{
    are_compatible, are_integers, is_pointer, is_scalar, is_struct, is_void, same_type,
};
use c_scopes::fault::{TypeFault, no_type};
use c_scopes::sight::Sight;
use c_syntax::copy::copy_type;
use c_syntax::{BinOp, CType, Expr, Place};
use std::alloc::Global;

/// Whether a value becomes one of the type: integers, pointers, the null constant (C99 6.5.16.1).
pub fn is_assigned(sight: &Sight, e: &Expr, t: &CType) -> bool
    requires { has_small_sizes (plain_sight sight.now).structs (plain_expr e.now) ≡ true }
    ensures { result ≡ is_assigned (plain_sight sight.now) (plain_expr e.now) (plain_type t.now) }
{
    are_integers(&e.ctype, t) || are_compatible(&e.ctype, t) || (is_null(sight, e) && is_pointer(t))
}

/// Whether a value is cast to the type: anything to void, integers, pointers, the null constant to a pointer (C99 6.5.4).
fn is_cast(sight: &Sight, e: &Expr, t: &CType) -> bool
    requires { has_small_sizes (plain_sight sight.now).structs (plain_expr e.now) ≡ true }
    ensures { result ≡ is_cast (plain_sight sight.now) (plain_expr e.now) (plain_type t.now) }
{
    is_void(t)
        || are_integers(&e.ctype, t)
        || (is_pointer(&e.ctype) && is_pointer(t))
        || (is_null(sight, e) && is_pointer(t))
}

/// Casts (C99 6.5.4).
pub fn cast(
    alloc: Global,
    sight: &Sight,
    place: Place,
    to: &CType,
    a: &Expr,
) -> Result<CType, TypeFault>
    requires { has_small_sizes (plain_sight sight.now).structs (plain_expr a.now) ≡ true }
    ensures { Answers (λ t. Node place (plain_type t) (Cast (plain_type to.now) (plain_expr a.now)))
        (cast (plain_sight sight.now) place (plain_type to.now) (plain_expr a.now)) result }
{
    if is_cast(sight, a, to) {
        let ctype = copy_type(alloc, to)?;
        Ok(ctype)
    } else {
        Err(no_type(place))
    }
}

/// Whether a value is passed to printf, or to a parameter of another function.
fn is_passed(sight: &Sight, printed: bool, e: &Expr, t: &CType) -> bool
    requires { has_small_sizes (plain_sight sight.now).structs (plain_expr e.now) ≡ true }
    ensures { result ≡ is_passed (plain_sight sight.now) printed (plain_expr e.now) (plain_type t.now) }
{
    if printed {
        is_printed(&e.ctype, t)
    } else {
        is_assigned(sight, e, t)
    }
}

/// Puts an argument in the type of its parameter (C99 6.5.2.2 p7).
fn argument(
    alloc: Global,
    sight: &Sight,
    printed: bool,
    ctype: &CType,
    e: &mut Expr,
) -> Result<(), TypeFault>
    requires { has_small_sizes (plain_sight sight.now).structs (plain_expr e.old) ≡ true }
    ensures { Answers (λ _. plain_expr e.new) (argument (plain_sight sight.now) printed (plain_type ctype.now) (plain_expr e.old)) result }
{
    if is_passed(sight, printed, e, ctype) {
        in_type(alloc, ctype, e)?;
        Ok(())
    } else {
        Err(no_type(e.place))
    }
}

/// Puts an argument in the type of the first of the parameters: one without a parameter has no demand of its own.
pub fn argument_for(
    alloc: Global,
    sight: &Sight,
    printed: bool,
    params: &[CType],
    e: &mut Expr,
) -> Result<(), TypeFault>
    requires { has_small_sizes (plain_sight sight.now).structs (plain_expr e.old) ≡ true }
    ensures { Answers (λ _. plain_expr e.new)
        (argument_for (plain_sight sight.now) printed (first_type (map plain_type params.now)) (plain_expr e.old)) result }
{
    match params {
        [] => Ok(()),
        [t, ..] => argument(alloc, sight, printed, t, e),
    }
}

/// `a = b` of a scalar type (C99 6.5.16.1).
fn assigned_scalar(
    alloc: Global,
    sight: &Sight,
    place: Place,
    a: &Expr,
    b: &mut Expr,
) -> Result<CType, TypeFault>
    requires { has_small_sizes (plain_sight sight.now).structs (plain_expr b.old) ≡ true }
    ensures { Answers (λ t. Node place (plain_type t) (Assign None (plain_expr a.now) (plain_expr b.new)))
        (assigned_scalar (plain_sight sight.now) place (plain_expr a.now) (plain_expr b.old)) result }
{
    if is_place(a) && is_scalar(&a.ctype) && is_assigned(sight, b, &a.ctype) {
        in_type(alloc, &a.ctype, b)?;
        let ctype = copy_type(alloc, &a.ctype)?;
        Ok(ctype)
    } else {
        Err(no_type(place))
    }
}

/// `a = b` of a struct that goes to the same struct, whose size is needed (C99 6.5.16.1).
fn assigned_struct(
    alloc: Global,
    sight: &Sight,
    place: Place,
    a: &Expr,
    b: &Expr,
) -> Result<CType, TypeFault>
    ensures { Answers (λ t. Node place (plain_type t) (Assign None (plain_expr a.now) (plain_expr b.now)))
        (assigned_struct (plain_sight sight.now) place (plain_expr a.now) (plain_expr b.now)) result }
{
    has_size(sight, place, &a.ctype)?;
    if is_place(a) && same_type(&b.ctype, &a.ctype) {
        let ctype = copy_type(alloc, &a.ctype)?;
        Ok(ctype)
    } else {
        Err(no_type(place))
    }
}

/// `a = b` (C99 6.5.16.1).
fn assigned(
    alloc: Global,
    sight: &Sight,
    place: Place,
    a: &Expr,
    b: &mut Expr,
) -> Result<CType, TypeFault>
    requires { has_small_sizes (plain_sight sight.now).structs (plain_expr b.old) ≡ true }
    ensures { Answers (λ t. Node place (plain_type t) (Assign None (plain_expr a.now) (plain_expr b.new)))
        (assigned (plain_sight sight.now) place (plain_expr a.now) (plain_expr b.old)) result }
{
    if is_struct(&a.ctype) {
        assigned_struct(alloc, sight, place, a, b)
    } else {
        assigned_scalar(alloc, sight, place, a, b)
    }
}

/// Assignment operators (C99 6.5.16).
pub fn assign(
    alloc: Global,
    sight: &Sight,
    place: Place,
    op: Option<BinOp>,
    a: &Expr,
    b: &mut Expr,
) -> Result<CType, TypeFault>
    requires { has_small_sizes (plain_sight sight.now).structs (plain_expr b.old) ≡ true }
    ensures { Answers (λ t. Node place (plain_type t) (Assign op (plain_expr a.now) (plain_expr b.new)))
        (assign (plain_sight sight.now) place op (plain_expr a.now) (plain_expr b.old)) result }
{
    match op {
        None => assigned(alloc, sight, place, a, b),
        Some(op) => compounded(alloc, sight, place, op, a, b),
    }
}
