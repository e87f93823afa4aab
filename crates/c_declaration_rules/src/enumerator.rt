//! Enumerators (C99 6.7.2.2).

ghost use Rattle.std.specs.Prelude.{◌≡◌, IfOk, Some, map, option_map, pos};
ghost use Rattle.c_syntax.specs.Expressions.{plain_expr};
ghost use Rattle.c_syntax.specs.Programs.{plain_enumerator};
ghost use Rattle.c_model.specs.DeclarationTyping.{typed_enumerators, typed_value, with_enumerator};
ghost use Rattle.c_scopes.specs.Answers.{Answers};
ghost use Rattle.c_scopes.specs.Sights.{plain_sight};
ghost use Rattle.c_declaration_rules.specs.Enumerators.{constant_value, enumerator_typed, int_value};

use crate::name::{behind, is_declared_in_file, own_name};
use c_expression_rules::constant::constant;
use c_expression_rules::expression::type_value;
use c_scopes::entity::{Entity, Enumerator as Constant};
use c_scopes::fault::{TypeFault, no_type};
use c_scopes::sight::Sight;
use c_syntax::{Enumerator, Expr, Place};
use std::alloc::Global;

/// A value that an `int` holds.
fn int_value(place: Place, value: Option<i128>) -> Result<i32, TypeFault>
    ensures { Answers (λ z. z) (int_value place value) result }
{
    match value {
        Some(z) if i128::from(i32::MIN) <= z && z <= i128::from(i32::MAX) => Ok(z as i32),
        _ => Err(no_type(place)),
    }
}

/// Types the constant expression that an enumerator has the value of.
fn type_constant(alloc: Global, sight: &Sight, e: &mut Expr) -> Result<i32, TypeFault>
    ensures { Answers (λ z. (z, Some (plain_expr e.new))) (constant_value (plain_sight sight.now) (plain_expr e.old)) result }
{
    let place = e.place;
    type_value(alloc, sight, e)?;
    int_value(place, constant(sight, e))
}

/// Types the value of an enumerator, which an `int` holds: a constant expression, or one more than the value before.
fn type_value_of(
    alloc: Global,
    sight: &Sight,
    place: Place,
    next: i64,
    value: &mut Option<Expr>,
) -> Result<i32, TypeFault>
    ensures { Answers (λ z. (z, option_map plain_expr value.new)) (typed_value (plain_sight sight.now) place next (option_map plain_expr value.old)) result }
{
    match value {
        None => int_value(place, Some(i128::from(next))),
        Some(e) => type_constant(alloc, sight, e),
    }
}

/// Types an enumerator before it is in sight. Gives its value.
fn type_enumerator(
    alloc: Global,
    sight: &Sight,
    next: i64,
    e: &mut Enumerator,
) -> Result<i32, TypeFault>
    ensures { Answers (λ z. (z, plain_enumerator e.new)) (enumerator_typed (plain_sight sight.now) next (plain_enumerator e.old)) result }
{
    let name = own_name(sight, is_declared_in_file(sight, e.name), e.place, e.name);
    let value = type_value_of(alloc, sight, e.place, next, &mut e.value);
    behind(name, value)
}

/// Types an enumerator, and brings it in sight. Gives its value.
fn declare_enumerator(
    alloc: Global,
    sight: &mut Sight,
    next: i64,
    e: &mut Enumerator,
) -> Result<i32, TypeFault>
    ensures typed { Answers (λ z. (z, plain_enumerator e.new)) (enumerator_typed (plain_sight sight.old) next (plain_enumerator e.old)) result }
    ensures declared { IfOk result (λ z. plain_sight sight.new ≡ with_enumerator (plain_sight sight.old) e.old.name z) }
{
    let name = e.name;
    let value = type_enumerator(alloc, sight, next, e)?;
    sight
        .entities
        .push(Entity::AnEnumerator(Constant { name, value }))?;
    Ok(value)
}

/// Types enumerators in their order, the first with the value 0, and brings each in sight behind its own.
pub fn type_enumerators(
    alloc: Global,
    sight: &mut Sight,
    items: &mut Vec<Enumerator>,
) -> Result<(), TypeFault>
    ensures { Answers (λ _. (plain_sight sight.new, map plain_enumerator items.new.items))
        (typed_enumerators (plain_sight sight.old) (pos 0) (map plain_enumerator items.old.items)) result }
{
    let mut next: i64 = 0;
    for i in 0..items.len() {
        let value = declare_enumerator(alloc, sight, next, &mut items[i])?;
        next = i64::from(value) + 1;
    }
    Ok(())
}
