//! What joins predicates, and choices (ACSL 2.2).

ghost use Rattle.std.specs.Prelude.{◌≡◌, option_map};
ghost use Rattle.c_syntax.specs.Ctypes.{plain_type};
ghost use Rattle.c_syntax.specs.Logic.{plain_pred, plain_pred_kind, plain_term};
ghost use Rattle.c_model.specs.ExpressionTyping.{or_else};
ghost use Rattle.c_model.specs.PredicateTyping.{branch, choice_between, choice_of_terms, choice_target, chosen, connected, quantifier_in, sort_of_term};
ghost use Rattle.c_model.specs.PredicateTyping.{where_quiet};
ghost use Rattle.c_scopes.specs.Answers.{Answers};
ghost use Rattle.annot_typing.specs.Sorts.{plain_sorted};

use crate::demand::as_predicate;
use crate::sorted::{Sorted, ValueSort, integer, pointer, predicate, sort_of};
use c_conversions::conversion::{is_void, same_type};
use c_scopes::fault::{TypeFault, no_type};
use c_syntax::copy::copy_type;
use c_syntax::logic::{Connective, Pred, PredKind, Term, TermKind};
use c_syntax::{CType, Place};
use std::alloc::Global;

pub fn connected(
    alloc: Global,
    place: Place,
    connective: Connective,
    a: Sorted,
    b: Sorted,
) -> Result<Sorted, TypeFault>
    ensures { Answers plain_sorted (connected place connective (plain_sorted a) (plain_sorted b)) result }
{
    let a = as_predicate(alloc, place, a)?;
    let b = as_predicate(alloc, place, b)?;
    predicate(alloc, place, PredKind::Connected(connective, a, b))
}

/// What a choice of two pointers to these types points to: one of them where the other is the same or void (C99 6.5.15 p6).
fn choice_target<'a>(v: &'a CType, w: &'a CType) -> Option<&'a CType>
    ensures { option_map (λ t. plain_type t.now) result ≡ choice_target (plain_type v.now) (plain_type w.now) }
{
    if same_type(v, w) || is_void(w) {
        Some(v)
    } else if is_void(v) {
        Some(w)
    } else {
        None
    }
}

/// A choice of terms: of two integers, or of two pointers that go together.
fn choice_of_terms(
    alloc: Global,
    place: Place,
    c: Pred,
    t: Term,
    u: Term,
) -> Result<Sorted, TypeFault>
    ensures { let a = plain_term t in let b = plain_term u in
        Answers plain_sorted (choice_of_terms place (plain_pred c) a b (sort_of_term a) (sort_of_term b)) result }
{
    match (sort_of(&t), sort_of(&u)) {
        (ValueSort::Integer, ValueSort::Integer) => {
            integer(alloc, place, TermKind::Choice(c, t, u))
        }
        (ValueSort::Pointer(v), ValueSort::Pointer(w)) => match choice_target(v, w) {
            None => Err(no_type(place)),
            Some(to) => {
                let to = copy_type(alloc, to)?;
                pointer(alloc, place, TermKind::Choice(c, t, u), to)
            }
        },
        _ => Err(no_type(place)),
    }
}

/// A choice of predicates.
fn branch(alloc: Global, place: Place, c: Pred, a: Sorted, b: Sorted) -> Result<Sorted, TypeFault>
    ensures { Answers plain_sorted (branch place (plain_pred c) (plain_sorted a) (plain_sorted b)) result }
{
    let a = as_predicate(alloc, place, a)?;
    let b = as_predicate(alloc, place, b)?;
    predicate(alloc, place, PredKind::Choice(c, a, b))
}

/// The first of two places in their order.
fn either(a: Option<Place>, b: Option<Place>) -> Option<Place>
    ensures { result ≡ or_else a b }
{
    match a {
        Some(place) => Some(place),
        None => b,
    }
}

/// The place of the first quantifier of a predicate; a term has none.
#[cycle(quiet)]
fn quantifier_in(p: &Pred) -> Option<Place>
    ensures { result ≡ quantifier_in (plain_pred p.now) }
{
    quantifier_in_kind(p.place, &p.kind)
}

#[cycle(quiet)]
fn quantifier_in_kind(place: Place, kind: &PredKind) -> Option<Place>
    ensures { result ≡ quantifier_in (plain_pred_kind place kind.now) }
{
    match kind {
        PredKind::Truth(_)
        | PredKind::NonZero(_)
        | PredKind::Chain(..)
        | PredKind::Asks(..)
        | PredKind::Separated(_) => None,
        PredKind::Not(p) => quantifier_in(p),
        PredKind::Connected(_, p, q) => either(quantifier_in(p), quantifier_in(q)),
        PredKind::Choice(c, p, q) => either(
            quantifier_in(c),
            either(quantifier_in(p), quantifier_in(q)),
        ),
        PredKind::Quantified(..) => Some(place),
    }
}

/// A choice of terms, whose condition has no quantifier.
fn choice_of_values(
    alloc: Global,
    place: Place,
    c: Pred,
    t: Term,
    u: Term,
) -> Result<Sorted, TypeFault>
    ensures { let a = plain_term t in let b = plain_term u in
        Answers plain_sorted (where_quiet (plain_pred c) (choice_of_terms place (plain_pred c) a b (sort_of_term a) (sort_of_term b))) result }
{
    match quantifier_in(&c) {
        Some(at) => Err(no_type(at)),
        None => choice_of_terms(alloc, place, c, t, u),
    }
}

/// A choice is a term where both parts are terms, which are values here.
fn choice_between(
    alloc: Global,
    place: Place,
    c: Pred,
    a: Sorted,
    b: Sorted,
) -> Result<Sorted, TypeFault>
    ensures { Answers plain_sorted (choice_between place (plain_pred c) (plain_sorted a) (plain_sorted b)) result }
{
    match (a, b) {
        (Sorted::Term(t), Sorted::Term(u)) => choice_of_values(alloc, place, c, t, u),
        (a, b) => branch(alloc, place, c, a, b),
    }
}

/// `c ? a : b`
pub fn chosen(
    alloc: Global,
    place: Place,
    c: Sorted,
    a: Sorted,
    b: Sorted,
) -> Result<Sorted, TypeFault>
    ensures { Answers plain_sorted (chosen place (plain_sorted c) (plain_sorted a) (plain_sorted b)) result }
{
    let c = as_predicate(alloc, place, c)?;
    choice_between(alloc, place, c, a, b)
}
