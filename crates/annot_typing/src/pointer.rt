//! Pointers that go on by elements, their distances, and the elements themselves (C99 6.5.2.1, 6.5.6).

ghost use Rattle.std.specs.Prelude.{◌≡◌};
ghost use Rattle.c_syntax.specs.Ctypes.{plain_type};
ghost use Rattle.c_syntax.specs.Logic.{plain_term};
ghost use Rattle.c_model.specs.Checked.{Good};
ghost use Rattle.c_model.specs.PredicateTyping.{are_known, difference, difference_of, distance, element, element_of, index, moved};
ghost use Rattle.c_model.specs.PredicateTyping.{points_to_unknown, sort_of_sorted, sort_of_term, stepped, sum, sum_of};
ghost use Rattle.c_scopes.specs.Answers.{Answers};
ghost use Rattle.c_scopes.specs.Sights.{plain_sight};
ghost use Rattle.annot_typing.specs.Sorts.{plain_sort, plain_sorted};

use crate::demand::as_term;
use crate::measure::where_measured;
use crate::sorted::{Sorted, ValueSort, integer, place_of, sort_of, term_of};
use c_conversions::conversion::same_type;
use c_scopes::fault::{TypeFault, no_name, no_type};
use c_scopes::limits::{KnownSize, size_of, sized};
use c_scopes::sight::Sight;
use c_syntax::copy::copy_type;
use c_syntax::logic::{PointerOp, Term, TermKind};
use c_syntax::{BinOp, CType, Place};
use std::alloc::Global;

/// A pointer so many elements of this type on, or back.
fn moved(
    alloc: Global,
    sight: &Sight,
    place: Place,
    op: PointerOp,
    u: CType,
    p: Term,
    i: Term,
) -> Result<Term, TypeFault>
    ensures { Answers plain_term (Good (moved (plain_sight sight.now) place op (plain_type u) (plain_term p) (plain_term i))) result }
{
    let size = size_of(&sight.structs, &u)?;
    let ctype = CType::Ptr(Box::new(alloc, u)?);
    let t = term_of(alloc, place, TermKind::Moved(op, size, p, i), Some(ctype))?;
    Ok(t)
}

/// The same of elements that have a size.
fn stepped(
    alloc: Global,
    sight: &Sight,
    place: Place,
    op: PointerOp,
    u: CType,
    p: Term,
    i: Term,
) -> Result<Sorted, TypeFault>
    ensures { Answers plain_sorted (stepped (plain_sight sight.now) place op (plain_type u) (plain_term p) (plain_term i)) result }
{
    where_measured(sight, place, &u)?;
    let t = moved(alloc, sight, place, op, u, p, i)?;
    Ok(Sorted::Term(t))
}

/// The distance in elements of two pointers to these types, which have to be one.
fn distance(
    alloc: Global,
    sight: &Sight,
    place: Place,
    u: &CType,
    v: &CType,
    p: Term,
    q: Term,
) -> Result<Sorted, TypeFault>
    ensures { Answers plain_sorted
        (distance (plain_sight sight.now) place (plain_type u.now) (plain_type v.now) (plain_term p) (plain_term q)) result }
{
    if !same_type(u, v) {
        return Err(no_type(place));
    }
    where_measured(sight, place, u)?;
    let size = size_of(&sight.structs, u)?;
    integer(alloc, place, TermKind::Difference(size, p, q))
}

/// What a form is as a value; a predicate is none.
pub fn sort_of_sorted(a: &Sorted) -> ValueSort<'_>
    ensures { plain_sort result ≡ sort_of_sorted (plain_sorted a.now) }
{
    match a {
        Sorted::Term(t) => sort_of(t),
        Sorted::Predicate(_) => ValueSort::NoValue,
        Sorted::Place(t) => sort_of(t),
    }
}

/// Whether a value points to a struct whose members aren't known yet.
fn points_to_unknown(sight: &Sight, a: &Sorted) -> bool
    ensures { result ≡ points_to_unknown (plain_sight sight.now) (sort_of_sorted (plain_sorted a.now)) }
{
    match sort_of_sorted(a) {
        ValueSort::Pointer(t) => sized(&sight.structs, t) == KnownSize::NotYet,
        ValueSort::Integer | ValueSort::NoValue => false,
    }
}

/// Whether what pointers among two operands point to is known (C99 6.5.6 p2, p3).
fn are_known(sight: &Sight, a: &Sorted, b: &Sorted) -> bool
    ensures { result ≡ are_known (plain_sight sight.now) (plain_sorted a.now) (plain_sorted b.now) }
{
    !(points_to_unknown(sight, a) || points_to_unknown(sight, b))
}

/// The sum of two terms: of integers, or of a pointer and an integer, of which the pointer comes first in the tree.
fn sum_of(alloc: Global, sight: &Sight, place: Place, t: Term, u: Term) -> Result<Sorted, TypeFault>
    ensures { let a = plain_term t in let b = plain_term u in
        Answers plain_sorted (sum_of (plain_sight sight.now) place a b (sort_of_term a) (sort_of_term b)) result }
{
    match (sort_of(&t), sort_of(&u)) {
        (ValueSort::Integer, ValueSort::Integer) => {
            integer(alloc, place, TermKind::Binary(BinOp::Add, t, u))
        }
        (ValueSort::Pointer(v), ValueSort::Integer) => {
            let v = copy_type(alloc, v)?;
            stepped(alloc, sight, place, PointerOp::Plus, v, t, u)
        }
        (ValueSort::Integer, ValueSort::Pointer(v)) => {
            let v = copy_type(alloc, v)?;
            stepped(alloc, sight, place, PointerOp::Plus, v, u, t)
        }
        _ => Err(no_type(place)),
    }
}

/// The difference of two terms: of integers, of a pointer and an integer, or of two pointers.
fn difference_of(
    alloc: Global,
    sight: &Sight,
    place: Place,
    t: Term,
    u: Term,
) -> Result<Sorted, TypeFault>
    ensures { let a = plain_term t in let b = plain_term u in
        Answers plain_sorted (difference_of (plain_sight sight.now) place a b (sort_of_term a) (sort_of_term b)) result }
{
    match (sort_of(&t), sort_of(&u)) {
        (ValueSort::Integer, ValueSort::Integer) => {
            integer(alloc, place, TermKind::Binary(BinOp::Sub, t, u))
        }
        (ValueSort::Pointer(v), ValueSort::Integer) => {
            let v = copy_type(alloc, v)?;
            stepped(alloc, sight, place, PointerOp::Minus, v, t, u)
        }
        (ValueSort::Pointer(v), ValueSort::Pointer(w)) => {
            let v = copy_type(alloc, v)?;
            let w = copy_type(alloc, w)?;
            distance(alloc, sight, place, &v, &w, t, u)
        }
        _ => Err(no_type(place)),
    }
}

/// `a + b`
pub fn sum(
    alloc: Global,
    sight: &Sight,
    place: Place,
    a: Sorted,
    b: Sorted,
) -> Result<Sorted, TypeFault>
    ensures { Answers plain_sorted (sum (plain_sight sight.now) place (plain_sorted a) (plain_sorted b)) result }
{
    if !are_known(sight, &a, &b) {
        return Err(no_name(place));
    }
    let t = as_term(place, a)?;
    let u = as_term(place, b)?;
    sum_of(alloc, sight, place, t, u)
}

/// `a - b`
pub fn difference(
    alloc: Global,
    sight: &Sight,
    place: Place,
    a: Sorted,
    b: Sorted,
) -> Result<Sorted, TypeFault>
    ensures { Answers plain_sorted (difference (plain_sight sight.now) place (plain_sorted a) (plain_sorted b)) result }
{
    if !are_known(sight, &a, &b) {
        return Err(no_name(place));
    }
    let t = as_term(place, a)?;
    let u = as_term(place, b)?;
    difference_of(alloc, sight, place, t, u)
}

/// An element of this type, so many behind a pointer: `*(p + i)`.
fn element(
    alloc: Global,
    sight: &Sight,
    place: Place,
    u: CType,
    p: Term,
    i: Term,
) -> Result<Sorted, TypeFault>
    ensures { Answers plain_sorted (element (plain_sight sight.now) place (plain_type u) (plain_term p) (plain_term i)) result }
{
    where_measured(sight, place, &u)?;
    let to = copy_type(alloc, &u)?;
    let t = moved(alloc, sight, place, PointerOp::Plus, to, p, i)?;
    place_of(alloc, place, TermKind::Deref(t), u)
}

/// The element of two terms, of which one is a pointer and the other an integer.
fn element_of(
    alloc: Global,
    sight: &Sight,
    place: Place,
    t: Term,
    u: Term,
) -> Result<Sorted, TypeFault>
    ensures { let a = plain_term t in let b = plain_term u in
        Answers plain_sorted (element_of (plain_sight sight.now) place a b (sort_of_term a) (sort_of_term b)) result }
{
    match (sort_of(&t), sort_of(&u)) {
        (ValueSort::Pointer(v), ValueSort::Integer) => {
            let v = copy_type(alloc, v)?;
            element(alloc, sight, place, v, t, u)
        }
        (ValueSort::Integer, ValueSort::Pointer(v)) => {
            let v = copy_type(alloc, v)?;
            element(alloc, sight, place, v, u, t)
        }
        _ => Err(no_type(place)),
    }
}

/// `a[b]`
pub fn index(
    alloc: Global,
    sight: &Sight,
    place: Place,
    a: Sorted,
    b: Sorted,
) -> Result<Sorted, TypeFault>
    ensures { Answers plain_sorted (index (plain_sight sight.now) place (plain_sorted a) (plain_sorted b)) result }
{
    if !are_known(sight, &a, &b) {
        return Err(no_name(place));
    }
    let t = as_term(place, a)?;
    let u = as_term(place, b)?;
    element_of(alloc, sight, place, t, u)
}
