//! What forms demand of their parts, which have no fault (ACSL 2.2): values, integers, pointers, or predicates, which integers are where
//! they aren't 0.

ghost use Rattle.std.specs.Prelude.{◌≡◌};
ghost use Rattle.c_syntax.specs.Logic.{plain_pred, plain_term};
ghost use Rattle.c_model.specs.PredicateTyping.{as_integer, as_pointer, as_predicate, as_term, as_value, clause_holds, integer_holds, integer_value};
ghost use Rattle.c_model.specs.PredicateTyping.{variant_value};
ghost use Rattle.c_scopes.specs.Answers.{Answers};
ghost use Rattle.annot_typing.specs.Sorts.{plain_pointer, plain_sorted};

use crate::sorted::{Sorted, ValueSort, sort_of};
use c_scopes::fault::{TypeFault, no_type};
use c_syntax::copy::copy_type;
use c_syntax::logic::{Pred, PredKind, Term};
use c_syntax::{CType, Place};
use std::alloc::Global;

/// A value: a place is what it holds. A struct holds none, which is a fault at its own place.
#[tactic(auto, using(crate::proofs::Kept::place_kept))]
pub fn as_value(a: Sorted) -> Result<Sorted, TypeFault>
    ensures { Answers plain_sorted (as_value (plain_sorted a)) result }
{
    match a {
        Sorted::Term(t) => Ok(Sorted::Term(t)),
        Sorted::Predicate(p) => Ok(Sorted::Predicate(p)),
        Sorted::Place(t) => match sort_of(&t) {
            ValueSort::Integer | ValueSort::Pointer(_) => Ok(Sorted::Term(t)),
            ValueSort::NoValue => Err(no_type(t.place)),
        },
    }
}

/// A term, which this place wants.
pub fn as_term(place: Place, a: Sorted) -> Result<Term, TypeFault>
    ensures { Answers plain_term (as_term place (plain_sorted a)) result }
{
    match a {
        Sorted::Term(t) => Ok(t),
        Sorted::Predicate(_p) => Err(no_type(place)),
        Sorted::Place(t) => Ok(t),
    }
}

/// An integer, which this place wants.
pub fn as_integer(place: Place, a: Sorted) -> Result<Term, TypeFault>
    ensures { Answers plain_term (as_integer place (plain_sorted a)) result }
{
    let t = as_term(place, a)?;
    match sort_of(&t) {
        ValueSort::Integer => Ok(t),
        ValueSort::Pointer(_) | ValueSort::NoValue => Err(no_type(place)),
    }
}

/// A pointer, which this place wants, with the type of what it points to.
pub fn as_pointer(alloc: Global, place: Place, a: Sorted) -> Result<(CType, Term), TypeFault>
    ensures { Answers plain_pointer (as_pointer place (plain_sorted a)) result }
{
    let t = as_term(place, a)?;
    match sort_of(&t) {
        ValueSort::Pointer(u) => {
            let u = copy_type(alloc, u)?;
            Ok((u, t))
        }
        ValueSort::Integer | ValueSort::NoValue => Err(no_type(place)),
    }
}

/// The predicate that an integer isn't 0; a pointer is none.
#[tactic(auto, using(crate::proofs::Kept::non_zero))]
fn integer_holds(alloc: Global, place: Place, t: Term) -> Result<Pred, TypeFault>
    ensures { Answers plain_pred (integer_holds place (plain_term t)) result }
{
    match sort_of(&t) {
        ValueSort::Integer => {
            let place = t.place;
            let kind = Box::new(alloc, PredKind::NonZero(t))?;
            Ok(Pred { place, kind })
        }
        ValueSort::Pointer(_) | ValueSort::NoValue => Err(no_type(place)),
    }
}

/// A predicate, which this place wants.
pub fn as_predicate(alloc: Global, place: Place, a: Sorted) -> Result<Pred, TypeFault>
    ensures { Answers plain_pred (as_predicate place (plain_sorted a)) result }
{
    match a {
        Sorted::Term(t) => integer_holds(alloc, place, t),
        Sorted::Predicate(p) => Ok(p),
        Sorted::Place(t) => integer_holds(alloc, place, t),
    }
}

/// A predicate, which a clause wants; what is none is a fault at its own place.
#[tactic(auto, using(crate::proofs::Kept::place_kept))]
pub fn clause_holds(alloc: Global, a: Sorted) -> Result<Pred, TypeFault>
    ensures { Answers plain_pred (clause_holds (plain_sorted a)) result }
{
    match a {
        Sorted::Term(t) => {
            let place = t.place;
            integer_holds(alloc, place, t)
        }
        Sorted::Predicate(p) => Ok(p),
        Sorted::Place(t) => {
            let place = t.place;
            integer_holds(alloc, place, t)
        }
    }
}

/// An integer, which a variant is; what is none is a fault at its own place.
#[tactic(auto, using(crate::proofs::Kept::place_kept))]
fn integer_value(t: Term) -> Result<Term, TypeFault>
    ensures { Answers plain_term (integer_value (plain_term t)) result }
{
    match sort_of(&t) {
        ValueSort::Integer => Ok(t),
        ValueSort::Pointer(_) | ValueSort::NoValue => Err(no_type(t.place)),
    }
}

/// The value of a variant.
#[tactic(auto, using(crate::proofs::Kept::predicate_place_kept))]
pub fn variant_value(a: Sorted) -> Result<Term, TypeFault>
    ensures { Answers plain_term (variant_value (plain_sorted a)) result }
{
    match a {
        Sorted::Term(t) => integer_value(t),
        Sorted::Predicate(p) => Err(no_type(p.place)),
        Sorted::Place(t) => integer_value(t),
    }
}
