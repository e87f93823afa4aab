//! Expressions (C99 6.5) and types as they are written (C99 6.7.5, 6.7.6). Each is typed in its place.

ghost use Rattle.std.specs.Prelude.{◌≡◌, OnOk, map, true};
ghost use Rattle.c_syntax.specs.Ctypes.{Array, EnumTag, Named, StructTag, plain_length, plain_type};
ghost use Rattle.c_syntax.specs.Expressions.{Call, Cast, Node, SizeOfExpr, SizeOfType, place_of, plain_expr, plain_exprs, plain_kind};
ghost use Rattle.c_model.specs.Checked.{one_part};
ghost use Rattle.c_model.specs.ExpressionTyping.{argument_for, constant, counted, decayed_of, first_type, known_length, known_type, rest_types, typed};
ghost use Rattle.c_model.specs.ExpressionTyping.{typed_arguments, typed_length, typed_type};
ghost use Rattle.c_scopes.specs.Answers.{Answers, IfTold};
ghost use Rattle.c_scopes.specs.Sights.{plain_sight};
ghost use Rattle.c_scopes.specs.Signatures.{plain_signature};
ghost use Rattle.c_expression_rules.specs.Constants.{has_small_sizes};
ghost use Rattle.c_expression_rules.specs.Forms.{cast_of, cast_parts, size_of_expr, size_of_parts, size_of_written};
ghost use Rattle.c_expression_rules.specs.Forms.{typed_call, typed_call_parts, typed_elements};
ghost use Rattle.c_expression_rules.specs.Forms.{typed_after_place, typed_kind, typed_leaf, typed_of_two};
ghost use Rattle.c_expression_rules.specs.Forms.{typed_one, typed_place_and_value, typed_three, typed_two};

use crate::assignment::{argument_for, assign, cast};
use crate::binary::{binary, choice_of};
use crate::call::{arrow, called, dot, known_params, mean};
use crate::constant::constant;
use crate::format::{callee_for, is_printf};
use crate::operator::{
    bump, decay, has_size, index, literal, size_of_expression, size_of_type, truth_of, unary,
};
use crate::text::text;
use crate::types::{counted, known_struct, limited};
use c_scopes::fault::{TypeFault, both, no_name, no_type};
use c_scopes::sight::Sight;
use c_scopes::signature::Signature;
use c_syntax::copy::copy_type;
use c_syntax::{CInt, CType, Expr, ExprKind, Length, Place, Use};
use std::alloc::Global;
use std::mem::replace;

/// Types an expression, or gives its first fault.
#[cycle(expression)]
pub fn type_expr(alloc: Global, sight: &Sight, e: &mut Expr) -> Result<(), TypeFault>
    ensures typed { Answers (λ _. plain_expr e.new) (typed (plain_sight sight.now) (plain_expr e.old)) result }
    ensures small { OnOk result (has_small_sizes (plain_sight sight.now).structs (plain_expr e.new) ≡ true) }
{
    let place = e.place;
    let ctype = type_kind(alloc, sight, place, &mut e.kind)?;
    e.ctype = ctype;
    Ok(())
}

/// Types an expression by its form. Gives its type.
#[cycle(expression)]
fn type_kind(
    alloc: Global,
    sight: &Sight,
    place: Place,
    kind: &mut ExprKind,
) -> Result<CType, TypeFault>
    ensures { Answers (λ t. Node place (plain_type t) (plain_kind kind.new)) (typed_kind (plain_sight sight.now) place (plain_kind kind.old)) result }
{
    match kind {
        ExprKind::Unary(..) | ExprKind::Bump(..) | ExprKind::Dot(..) | ExprKind::Arrow(..) =>
            type_one(alloc, sight, place, kind),
        ExprKind::Binary(..) | ExprKind::Both(..) | ExprKind::Either(..) | ExprKind::Index(..) =>
            type_two(alloc, sight, place, kind),
        ExprKind::Assign(..) | ExprKind::Comma(..) => type_after_place(alloc, sight, place, kind),
        ExprKind::Choice(a, b, c) => {
            type_three(alloc, sight, a, b, c)?;
            choice_of(alloc, sight, place, a, b, c)
        }
        ExprKind::Call(x, arguments) => type_call(alloc, sight, place, x, arguments),
        ExprKind::Cast(to, a) => type_cast(alloc, sight, place, to, a),
        ExprKind::SizeOfType(u) => type_size_of_type(alloc, sight, place, u),
        ExprKind::SizeOfExpr(a) => type_size_of_expr(alloc, sight, place, a),
        ExprKind::Number(..) | ExprKind::Letter(_) | ExprKind::Text(_) | ExprKind::Variable(_) =>
            type_leaf(alloc, sight, place, kind),
    }
}

/// Types an operator of one operand, or a member of one.
#[cycle(expression)]
fn type_one(
    alloc: Global,
    sight: &Sight,
    place: Place,
    kind: &mut ExprKind,
) -> Result<CType, TypeFault>
    ensures { Answers (λ t. Node place (plain_type t) (plain_kind kind.new)) (typed_one (plain_sight sight.now) place (plain_kind kind.old)) result }
{
    match kind {
        ExprKind::Unary(op, a) => {
            type_expr(alloc, sight, a)?;
            unary(alloc, place, *op, a)
        }
        ExprKind::Bump(op, a) => {
            type_expr(alloc, sight, a)?;
            bump(alloc, sight, place, *op, a)
        }
        ExprKind::Dot(a, m) => {
            type_expr(alloc, sight, a)?;
            dot(alloc, sight, place, *m, a)
        }
        ExprKind::Arrow(a, m) => {
            type_value(alloc, sight, a)?;
            arrow(alloc, sight, place, *m, a)
        }
        _ => Err(no_type(place)),
    }
}

/// Types an operator of two values.
#[cycle(expression)]
fn type_two(
    alloc: Global,
    sight: &Sight,
    place: Place,
    kind: &mut ExprKind,
) -> Result<CType, TypeFault>
    ensures { Answers (λ t. Node place (plain_type t) (plain_kind kind.new)) (typed_of_two (plain_sight sight.now) place (plain_kind kind.old)) result }
{
    match kind {
        ExprKind::Binary(op, a, b) => {
            type_values(alloc, sight, a, b)?;
            binary(alloc, sight, place, *op, a, b)
        }
        ExprKind::Both(a, b) => {
            type_values(alloc, sight, a, b)?;
            truth_of(place, a, b)
        }
        ExprKind::Either(a, b) => {
            type_values(alloc, sight, a, b)?;
            truth_of(place, a, b)
        }
        ExprKind::Index(a, b) => {
            type_values(alloc, sight, a, b)?;
            index(alloc, sight, place, a, b)
        }
        _ => Err(no_type(place)),
    }
}

/// Types an operator whose left operand is no value of its own.
#[cycle(expression)]
fn type_after_place(
    alloc: Global,
    sight: &Sight,
    place: Place,
    kind: &mut ExprKind,
) -> Result<CType, TypeFault>
    ensures { Answers (λ t. Node place (plain_type t) (plain_kind kind.new)) (typed_after_place (plain_sight sight.now) place (plain_kind kind.old)) result }
{
    match kind {
        ExprKind::Assign(op, a, b) => {
            type_place_and_value(alloc, sight, a, b)?;
            assign(alloc, sight, place, *op, a, b)
        }
        ExprKind::Comma(a, b) => {
            type_place_and_value(alloc, sight, a, b)?;
            let ctype = copy_type(alloc, &b.ctype)?;
            Ok(ctype)
        }
        _ => Err(no_type(place)),
    }
}

/// Types an expression without parts.
fn type_leaf(
    alloc: Global,
    sight: &Sight,
    place: Place,
    kind: &mut ExprKind,
) -> Result<CType, TypeFault>
    ensures { Answers (λ t. Node place (plain_type t) (plain_kind kind.new)) (typed_leaf (plain_sight sight.now) place (plain_kind kind.old)) result }
{
    match kind {
        ExprKind::Number(..) => literal(place, kind),
        ExprKind::Letter(_) => Ok(CType::Int(CInt::I32)),
        ExprKind::Text(offset) => {
            let offset = *offset;
            text(alloc, sight, place, offset, kind)
        }
        ExprKind::Variable(x) => {
            let name = x.name;
            mean(alloc, sight, place, name, kind)
        }
        _ => Err(no_type(place)),
    }
}

/// Types what a value is made of: an array is a pointer there (C99 6.3.2.1 p3).
#[cycle(expression)]
pub fn type_value(alloc: Global, sight: &Sight, e: &mut Expr) -> Result<(), TypeFault>
    ensures typed { Answers (λ _. plain_expr e.new) (decayed_of (typed (plain_sight sight.now) (plain_expr e.old))) result }
    ensures small { OnOk result (has_small_sizes (plain_sight sight.now).structs (plain_expr e.new) ≡ true) }
{
    type_expr(alloc, sight, e)?;
    decay(alloc, e)?;
    Ok(())
}

/// Types two values.
#[cycle(expression)]
fn type_values(alloc: Global, sight: &Sight, a: &mut Expr, b: &mut Expr) -> Result<(), TypeFault>
    ensures typed { Answers (λ _. (plain_expr a.new, plain_expr b.new)) (typed_two (plain_sight sight.now) (plain_expr a.old) (plain_expr b.old)) result }
    ensures left { OnOk result (has_small_sizes (plain_sight sight.now).structs (plain_expr a.new) ≡ true) }
    ensures right { OnOk result (has_small_sizes (plain_sight sight.now).structs (plain_expr b.new) ≡ true) }
{
    let first = type_value(alloc, sight, a);
    let second = type_value(alloc, sight, b);
    both(first, second)
}

/// Types an operand that is no value of its own, and a value.
#[cycle(expression)]
fn type_place_and_value(
    alloc: Global,
    sight: &Sight,
    a: &mut Expr,
    b: &mut Expr,
) -> Result<(), TypeFault>
    ensures typed { Answers (λ _. (plain_expr a.new, plain_expr b.new))
        (typed_place_and_value (plain_sight sight.now) (plain_expr a.old) (plain_expr b.old)) result }
    ensures right { OnOk result (has_small_sizes (plain_sight sight.now).structs (plain_expr b.new) ≡ true) }
{
    let first = type_expr(alloc, sight, a);
    let second = type_value(alloc, sight, b);
    both(first, second)
}

/// Types the parts of a choice.
#[cycle(expression)]
fn type_three(
    alloc: Global,
    sight: &Sight,
    a: &mut Expr,
    b: &mut Expr,
    c: &mut Expr,
) -> Result<(), TypeFault>
    ensures typed { Answers (λ _. (plain_expr a.new, (plain_expr b.new, plain_expr c.new)))
        (typed_three (plain_sight sight.now) (plain_expr a.old) (plain_expr b.old) (plain_expr c.old)) result }
    ensures first { OnOk result (has_small_sizes (plain_sight sight.now).structs (plain_expr b.new) ≡ true) }
    ensures second { OnOk result (has_small_sizes (plain_sight sight.now).structs (plain_expr c.new) ≡ true) }
{
    let first = type_value(alloc, sight, a);
    let second = type_values(alloc, sight, b, c);
    both(first, second)
}

/// Types the parts of a cast (C99 6.5.4).
#[cycle(expression)]
fn type_cast_parts(
    alloc: Global,
    sight: &Sight,
    place: Place,
    to: &mut CType,
    a: &mut Expr,
) -> Result<CType, TypeFault>
    ensures typed { Answers (λ t. Node place (plain_type t) (Cast (plain_type to.new) (plain_expr a.new)))
        (cast_parts (plain_sight sight.now) place (plain_type to.old) (plain_expr a.old)) result }
    ensures known { IfTold result (plain_type to.new ≡ known_type (plain_sight sight.now) (plain_type to.old)) }
{
    let written = type_written(alloc, sight, place, to);
    let operand = type_value(alloc, sight, a);
    both(written, operand)?;
    cast(alloc, sight, place, to, a)
}

/// Types a cast; a type that passes a limit is a fault besides the others.
#[cycle(expression)]
fn type_cast(
    alloc: Global,
    sight: &Sight,
    place: Place,
    to: &mut CType,
    a: &mut Expr,
) -> Result<CType, TypeFault>
    ensures { Answers (λ t. Node place (plain_type t) (Cast (plain_type to.new) (plain_expr a.new)))
        (cast_of (plain_sight sight.now) place (plain_type to.old) (plain_expr a.old)) result }
{
    let parts = type_cast_parts(alloc, sight, place, to, a);
    limited(sight, place, to, parts)
}

/// Types the type of a `sizeof` (C99 6.5.3.4).
#[cycle(expression)]
fn type_sized_type(
    alloc: Global,
    sight: &Sight,
    place: Place,
    u: &mut CType,
) -> Result<CType, TypeFault>
    ensures typed { Answers (λ t. Node place (plain_type t) (SizeOfType (plain_type u.new)))
        (size_of_parts (plain_sight sight.now) place (plain_type u.old)) result }
    ensures known { IfTold result (plain_type u.new ≡ known_type (plain_sight sight.now) (plain_type u.old)) }
{
    type_written(alloc, sight, place, u)?;
    size_of_type(sight, place, u)
}

/// Types `sizeof` of a type, which may pass a limit.
#[cycle(expression)]
fn type_size_of_type(
    alloc: Global,
    sight: &Sight,
    place: Place,
    u: &mut CType,
) -> Result<CType, TypeFault>
    ensures { Answers (λ t. Node place (plain_type t) (SizeOfType (plain_type u.new)))
        (size_of_written (plain_sight sight.now) place (plain_type u.old)) result }
{
    let parts = type_sized_type(alloc, sight, place, u);
    limited(sight, place, u, parts)
}

/// Types `sizeof` of an expression (C99 6.5.3.4).
#[cycle(expression)]
fn type_size_of_expr(
    alloc: Global,
    sight: &Sight,
    place: Place,
    a: &mut Expr,
) -> Result<CType, TypeFault>
    ensures { Answers (λ t. Node place (plain_type t) (SizeOfExpr (plain_expr a.new)))
        (size_of_expr (plain_sight sight.now) place (plain_expr a.old)) result }
{
    type_expr(alloc, sight, a)?;
    let size = size_of_expression(sight, place, a);
    limited(sight, place, &a.ctype, size)
}

/// Finds the function of a call, and types the arguments, each for its parameter, whether or not the function has a fault.
#[cycle(expression)]
fn type_call_parts(
    alloc: Global,
    sight: &Sight,
    place: Place,
    name: u32,
    arguments: &mut Vec<Expr>,
) -> Result<Signature, TypeFault>
    ensures { Answers (λ f. (plain_signature f, plain_exprs arguments.new.items))
        (typed_call_parts (plain_sight sight.now) place name (plain_exprs arguments.old.items)) result }
{
    let f = callee_for(alloc, sight, place, name, arguments);
    let printed = is_printf(sight, name);
    let typed = type_arguments(alloc, sight, arguments, printed, known_params(&f));
    both(f, typed)
}

/// Types a call (C99 6.5.2.2).
#[cycle(expression)]
fn type_call(
    alloc: Global,
    sight: &Sight,
    place: Place,
    x: &mut Use,
    arguments: &mut Vec<Expr>,
) -> Result<CType, TypeFault>
    ensures { Answers (λ t. Node place (plain_type t) (Call x.new (plain_exprs arguments.new.items)))
        (typed_call (plain_sight sight.now) place x.old.name (plain_exprs arguments.old.items)) result }
{
    let f = type_call_parts(alloc, sight, place, x.name, arguments)?;
    x.name = f.name;
    x.decl = f.decl;
    called(alloc, place, &f, arguments)
}

/// Types arguments, each for its parameter.
#[cycle(expression)]
fn type_arguments(
    alloc: Global,
    sight: &Sight,
    arguments: &mut Vec<Expr>,
    printed: bool,
    params: &[CType],
) -> Result<(), TypeFault>
    ensures { Answers (λ _. plain_exprs arguments.new.items)
        (typed_arguments (plain_sight sight.now) printed (map plain_type params.now) (plain_exprs arguments.old.items)) result }
{
    let mut done = Ok(());
    let mut rest = params;
    for i in 0..arguments.len() {
        let e = type_argument(alloc, sight, &mut arguments[i], printed, rest);
        done = both(done, e);
        rest = behind_first(rest);
    }
    done
}

/// Types an argument for the first of the parameters.
#[cycle(expression)]
fn type_argument(
    alloc: Global,
    sight: &Sight,
    e: &mut Expr,
    printed: bool,
    params: &[CType],
) -> Result<(), TypeFault>
    ensures { Answers (λ _. plain_expr e.new)
        (one_part (decayed_of (typed (plain_sight sight.now) (plain_expr e.old)))
        (argument_for (plain_sight sight.now) printed (first_type (map plain_type params.now)))) result }
{
    type_value(alloc, sight, e)?;
    argument_for(alloc, sight, printed, params, e)
}

/// The parameters after the first.
fn behind_first(params: &[CType]) -> &[CType]
    ensures { map plain_type result.now ≡ rest_types (map plain_type params.now) }
{
    match params {
        [] => &[],
        [_, after @ ..] => after,
    }
}

/// Puts another type in the place of one.
fn put_type(t: &mut CType, by: CType)
    ensures { t.new ≡ by }
{
    drop(replace(t, by));
}

/// Puts the type that a name stands for in its place (C99 6.7.7), and void where it stands for none.
fn put_named(
    alloc: Global,
    sight: &Sight,
    place: Place,
    name: u32,
    t: &mut CType,
) -> Result<(), TypeFault>
    ensures typed { Answers (λ _. plain_type t.new) (typed_type (plain_sight sight.now) place (Named name)) result }
    ensures known { IfTold result (plain_type t.new ≡ known_type (plain_sight sight.now) (Named name)) }
{
    match sight.types.named(name) {
        None => {
            put_type(t, CType::Void);
            Err(no_name(place))
        }
        Some(u) => {
            let u = copy_type(alloc, u)?;
            put_type(t, u);
            Ok(())
        }
    }
}

/// Puts the struct with a tag in its place, which is no enum's (C99 6.7.2.3).
fn put_struct(
    sight: &Sight,
    _place: Place,
    name: u32,
    tag: Place,
    t: &mut CType,
) -> Result<(), TypeFault>
    ensures typed { Answers (λ _. plain_type t.new) (typed_type (plain_sight sight.now) _place (StructTag name tag)) result }
    ensures known { IfTold result (plain_type t.new ≡ known_type (plain_sight sight.now) (StructTag name tag)) }
{
    let u = known_struct(sight, name)?;
    put_type(t, u);
    if sight.enum_tags.has(name) {
        Err(no_name(tag))
    } else {
        Ok(())
    }
}

/// Puts the type of an enum, which is defined, in its place (C99 6.7.2.2).
fn put_enum(
    sight: &Sight,
    _place: Place,
    name: u32,
    tag: Place,
    t: &mut CType,
) -> Result<(), TypeFault>
    ensures typed { Answers (λ _. plain_type t.new) (typed_type (plain_sight sight.now) _place (EnumTag name tag)) result }
    ensures known { IfTold result (plain_type t.new ≡ known_type (plain_sight sight.now) (EnumTag name tag)) }
{
    put_type(t, CType::Int(CInt::I32));
    if sight.enums.has(name) {
        Ok(())
    } else {
        Err(no_name(tag))
    }
}

/// Types a type that is written at this place (C99 6.7.5, 6.7.6). What is known of it stands there afterwards, whatever faults it has.
#[cycle(expression)]
pub fn type_written(
    alloc: Global,
    sight: &Sight,
    place: Place,
    t: &mut CType,
) -> Result<(), TypeFault>
    ensures typed { Answers (λ _. plain_type t.new) (typed_type (plain_sight sight.now) place (plain_type t.old)) result }
    ensures known { IfTold result (plain_type t.new ≡ known_type (plain_sight sight.now) (plain_type t.old)) }
{
    match t {
        CType::Void | CType::Int(_) | CType::Struct(_) => Ok(()),
        CType::Ptr(u) => type_written(alloc, sight, place, u),
        CType::Array(u, n) => type_array(alloc, sight, place, u, n),
        CType::Named(x) => {
            let name = *x;
            put_named(alloc, sight, place, name, t)
        }
        CType::StructTag(x, at) => {
            let name = *x;
            let tag = *at;
            put_struct(sight, place, name, tag, t)
        }
        CType::EnumTag(x, at) => {
            let name = *x;
            let tag = *at;
            put_enum(sight, place, name, tag, t)
        }
    }
}

/// Types the type of an array's elements, which has a size (C99 6.7.5.2 p1).
#[cycle(expression)]
pub fn type_elements(
    alloc: Global,
    sight: &Sight,
    place: Place,
    u: &mut CType,
) -> Result<(), TypeFault>
    ensures typed { Answers (λ _. plain_type u.new) (typed_elements (plain_sight sight.now) place (plain_type u.old)) result }
    ensures known { IfTold result (plain_type u.new ≡ known_type (plain_sight sight.now) (plain_type u.old)) }
{
    type_written(alloc, sight, place, u)?;
    has_size(sight, place, u)
}

/// Types the parts of an array's type.
#[cycle(expression)]
fn type_array(
    alloc: Global,
    sight: &Sight,
    place: Place,
    u: &mut CType,
    n: &mut Length,
) -> Result<(), TypeFault>
    ensures typed { Answers (λ _. Array (plain_type u.new) (plain_length n.new))
        (typed_type (plain_sight sight.now) place (Array (plain_type u.old) (plain_length n.old))) result }
    ensures known { IfTold result (Array (plain_type u.new) (plain_length n.new)
        ≡ known_type (plain_sight sight.now) (Array (plain_type u.old) (plain_length n.old))) }
{
    let elements = type_elements(alloc, sight, place, u);
    let length = type_length(alloc, sight, place, n);
    both(elements, length)
}

/// Types the length of an array; one that has a fault is the least that there is.
#[cycle(expression)]
pub fn type_length(
    alloc: Global,
    sight: &Sight,
    place: Place,
    n: &mut Length,
) -> Result<(), TypeFault>
    ensures typed { Answers (λ _. plain_length n.new) (typed_length (plain_sight sight.now) place (plain_length n.old)) result }
    ensures known { IfTold result (plain_length n.new ≡ known_length (plain_sight sight.now) (plain_length n.old)) }
{
    match n {
        Length::Left => Err(no_type(place)),
        Length::Count(_) => Ok(()),
        Length::Written(e) => match type_count(alloc, sight, e) {
            Ok(count) => {
                drop(replace(n, count));
                Ok(())
            }
            Err(f) => {
                drop(replace(n, Length::Count(1)));
                Err(f)
            }
        },
    }
}

/// The length that an expression gives.
#[cycle(expression)]
fn type_count(alloc: Global, sight: &Sight, e: &mut Expr) -> Result<Length, TypeFault>
    ensures { Answers plain_length
        (one_part (typed (plain_sight sight.now) (plain_expr e.old)) (λ x. counted (place_of (plain_expr e.old)) (constant (plain_sight sight.now) x))) result }
{
    let place = e.place;
    type_expr(alloc, sight, e)?;
    counted(place, constant(sight, e))
}
