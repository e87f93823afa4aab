//! Casts, and sizes of types that stand in annotations, with C's rules (C99 6.5.3.4, 6.5.4, 6.7.6).

ghost use Rattle.c_syntax.specs.Ctypes.{plain_type};
ghost use Rattle.c_syntax.specs.Formulas.{plain_cast_type};
ghost use Rattle.c_model.specs.ExpressionTyping.{limited};
ghost use Rattle.c_model.specs.PredicateTyping.{cast, cast_integer, cast_pointer, size_in};
ghost use Rattle.c_scopes.specs.Answers.{Answers};
ghost use Rattle.c_scopes.specs.Sights.{plain_sight};
ghost use Rattle.annot_typing.specs.Limits.{has_small_size, written_size};
ghost use Rattle.annot_typing.specs.Sorts.{plain_sorted};

use crate::demand::{as_integer, as_pointer};
use crate::sorted::{Sorted, integer, pointer};
use c_conversions::conversion::{integer_type, pointed};
use c_expression_rules::expression::type_written;
use c_expression_rules::operator::has_size;
use c_expression_rules::types::within_limits;
use c_scopes::fault::{TypeFault, both, no_type, too_large};
use c_scopes::limits::small_size;
use c_scopes::sight::Sight;
use c_syntax::copy::copy_type;
use c_syntax::logic::{LogicType, TermKind};
use c_syntax::{CType, Place};
use std::alloc::Global;

/// A cast of an integer (ACSL 2.2.3).
pub fn cast_integer(
    alloc: Global,
    place: Place,
    to: LogicType,
    a: Sorted,
) -> Result<Sorted, TypeFault>
    ensures { Answers plain_sorted (cast_integer place (plain_cast_type to) (plain_sorted a)) result }
{
    let a = as_integer(place, a)?;
    integer(alloc, place, TermKind::Cast(to, a))
}

/// A cast of a pointer to a type of pointers.
fn cast_pointer(alloc: Global, place: Place, u: CType, a: Sorted) -> Result<Sorted, TypeFault>
    ensures { Answers plain_sorted (cast_pointer place (plain_type u) (plain_sorted a)) result }
{
    let (_v, p) = as_pointer(alloc, place, a)?;
    let to = copy_type(alloc, &u)?;
    let to = LogicType::Of(CType::Ptr(Box::new(alloc, to)?));
    pointer(alloc, place, TermKind::Cast(to, p), u)
}

/// A cast to a type of C: of an integer to integers, and of a pointer to pointers.
pub fn cast(alloc: Global, place: Place, to: CType, a: Sorted) -> Result<Sorted, TypeFault>
    ensures { Answers plain_sorted (cast place (plain_type to) (plain_sorted a)) result }
{
    if integer_type(&to).is_some() {
        return cast_integer(alloc, place, LogicType::Of(to), a);
    }
    match pointed(&to) {
        None => Err(no_type(place)),
        Some(u) => {
            let u = copy_type(alloc, u)?;
            cast_pointer(alloc, place, u, a)
        }
    }
}

/// A type that has a size (C99 6.5.3.4), and that passes no limit.
fn has_small_size(sight: &Sight, place: Place, u: &CType) -> Result<(), TypeFault>
    ensures { Answers (λ u. u) (has_small_size (plain_sight sight.now) place (plain_type u.now)) result }
{
    both(has_size(sight, place, u), within_limits(sight, place, u))
}

/// The size of a type that has one.
fn size_in(alloc: Global, sight: &Sight, place: Place, u: &CType) -> Result<Sorted, TypeFault>
    ensures { Answers plain_sorted
        (limited (plain_sight sight.now) place (plain_type u.now) (size_in (plain_sight sight.now) place (plain_type u.now))) result }
{
    has_small_size(sight, place, u)?;
    match small_size(&sight.structs, u) {
        Some(size) => integer(alloc, place, TermKind::Number(i128::from(size))),
        None => Err(too_large(place)),
    }
}

/// `sizeof` of a type; one that passes a limit is a fault besides the others.
pub fn type_size(alloc: Global, sight: &Sight, place: Place, u: &CType) -> Result<Sorted, TypeFault>
    ensures { Answers plain_sorted (written_size (plain_sight sight.now) place (plain_type u.now)) result }
{
    let mut t = copy_type(alloc, u)?;
    match type_written(alloc, sight, place, &mut t) {
        Ok(()) => size_in(alloc, sight, place, &t),
        Err(f) => both(Err(f), within_limits(sight, place, &t)),
    }
}
