//! Chains of relations (ACSL 2.2.1): each has sides that go together.

ghost use Rattle.std.specs.Prelude.{◌≡◌, Err};
ghost use Rattle.c_syntax.specs.Formulas.{plain_form};
ghost use Rattle.c_syntax.specs.Logic.{Linked, plain_links, plain_term};
ghost use Rattle.c_model.specs.Checked.{Checked, Good, one_part};
ghost use Rattle.c_model.specs.PredicateTyping.{are_related, related, right_side};
ghost use Rattle.c_model.specs.PredicateTyping as typing;
ghost use Rattle.c_scopes.specs.declared.fault.TypeFault.TheVariants.{Memory};
ghost use Rattle.c_scopes.specs.Answers.{Answers};
ghost use Rattle.annot_typing.specs.Relations.{plain_side, side_in, side_of_answer};
ghost use Rattle.annot_typing.specs.Sorts.{plain_sorted};

use crate::demand::as_term;
use crate::pointer::sort_of_sorted;
use crate::sorted::{Sorted, ValueSort, predicate};
use c_scopes::fault::{TypeFault, no_type};
use c_syntax::logic::{Formula, FormulaKind, Links, PredKind, Term};
use c_syntax::{Place, Relation};
use std::alloc::Global;

/// What a side of a relation is.
#[derive(Clone, Copy, PartialEq, Eq, Debug)]
pub enum Side {
    /// One with a fault, which goes with any.
    Any,
    Integer,
    /// A literal of value 0, in any parentheses.
    Zero,
    Pointer,
    /// A predicate, or what is no value.
    Other,
}

/// What a side is by its sort.
fn side_of_answer(value: &Result<Sorted, TypeFault>) -> Side
    ensures { plain_side result ≡ side_of_answer value.now }
{
    match value {
        Err(_) => Side::Any,
        Ok(a) => match sort_of_sorted(a) {
            ValueSort::Integer => Side::Integer,
            ValueSort::Pointer(_) => Side::Pointer,
            ValueSort::NoValue => Side::Other,
        },
    }
}

/// What the side is that this form is, whose value or fault is given.
pub fn side_of(f: &Formula, value: &Result<Sorted, TypeFault>) -> Side
    ensures { plain_side result ≡ side_in (plain_form f.now) value.now }
{
    match &*f.kind {
        FormulaKind::Number(n) => {
            if *n == 0 {
                Side::Zero
            } else {
                side_of_answer(value)
            }
        }
        _ => side_of_answer(value),
    }
}

/// Whether two sides go together: integers, pointers, or a pointer and a literal 0.
fn are_related(left: Side, right: Side) -> bool
    ensures { result ≡ are_related (plain_side left) (plain_side right) }
{
    match (left, right) {
        (Side::Any, _) => true,
        (Side::Other, _) => false,
        (_, Side::Any) => true,
        (_, Side::Other) => false,
        (Side::Integer, Side::Pointer) | (Side::Pointer, Side::Integer) => false,
        _ => true,
    }
}

/// The right side of a relation, as its left side wants it.
#[tactic(auto, using(c_scopes::proofs::Least::one_refused))]
pub fn right_side(
    place: Place,
    left: Side,
    side: Side,
    right: Result<Sorted, TypeFault>,
) -> Result<Term, TypeFault>
    ensures typed { (c : Checked typing.Sorted) → Answers plain_sorted c right
        → Answers plain_term (one_part c (right_side place (plain_side left) (plain_side side))) result }
    ensures memory { right ≡ Err Memory → result ≡ Err Memory }
{
    match right {
        Err(f) => Err(f),
        Ok(b) => {
            if are_related(left, side) {
                as_term(place, b)
            } else {
                Err(no_type(place))
            }
        }
    }
}

pub fn linked(
    alloc: Global,
    place: Place,
    relation: Relation,
    t: Term,
    rest: Links,
) -> Result<Links, TypeFault>
    ensures { Answers plain_links (Good (Linked place relation (plain_term t) (plain_links rest))) result }
{
    let rest = Box::new(alloc, rest)?;
    Ok(Links::Link(place, relation, t, rest))
}

pub fn related(alloc: Global, place: Place, a: Sorted, links: Links) -> Result<Sorted, TypeFault>
    ensures { Answers plain_sorted (related place (plain_sorted a) (plain_links links)) result }
{
    match links {
        Links::End => Err(no_type(place)),
        links => {
            let a = as_term(place, a)?;
            predicate(alloc, place, PredKind::Chain(a, links))
        }
    }
}
