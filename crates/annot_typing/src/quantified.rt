//! Quantifiers (ACSL 2.2): the chains of their guards, whose bounds see the binders of the chains before, and what stands behind these, where all
//! binders are in sight.

ghost use Rattle.std.specs.Prelude.{◌≡◌};
ghost use Rattle.c_syntax.specs.Formulas.{Quantified, plain_cast_type, plain_form, plain_form_links};
ghost use Rattle.c_syntax.specs.Logic.{plain_term};
ghost use Rattle.c_model.specs.AnnotationSights.{with_binders};
ghost use Rattle.c_model.specs.Checked.{pair_of};
ghost use Rattle.c_model.specs.QuantifierGuards.{guarded_by, left_behind};
ghost use Rattle.c_model.specs.QuantifierTyping.{another_conjunct, bound_at, conjunction};
ghost use Rattle.c_model.specs.PredicateTyping.{typed_conjuncts, typed_form, typed_quantified, typed_upper, value_in};
ghost use Rattle.c_scopes.specs.Answers.{Answers};
ghost use Rattle.c_scopes.specs.Sights.{plain_sight};
ghost use Rattle.annot_typing.specs.Forms.{FormTyped};
ghost use Rattle.annot_typing.specs.Quantifiers.{plain_bounds, plain_conjuncts, plain_implication};
ghost use Rattle.annot_typing.specs.Sights.{form_sight};
ghost use Rattle.annot_typing.specs.Sorts.{plain_sorted};

use crate::clause_sight::FormSight;
use crate::demand::as_integer;
use crate::form::type_value;
use crate::joined::joined;
use crate::quantifier::{
    Conjuncts, Inside, another_conjunct, binder_type, chain_conjunct, existential,
    joined_conjuncts, universal, with_binders,
};
use crate::sorted::Sorted;
use c_scopes::fault::{TypeFault, no_guard};
use c_scopes::sight::Sight;
use c_syntax::Place;
use c_syntax::logic::{
    Connective, Formula, FormulaKind, FormulaLinks, LogicType, Quantifier, Term,
};
use quantifier_guards::{is_guarded, left_behind};
use std::alloc::Global;

/// A quantifier, whose guard tells the values of its binders.
#[cycle(form)]
pub fn type_quantified(
    alloc: Global,
    sight: &mut Sight,
    clause: FormSight<'_>,
    place: Place,
    quantifier: Quantifier,
    to: &LogicType,
    names: &[(Place, u32)],
    a: &Formula,
) -> Result<Sorted, TypeFault>
    ensures typed { FormTyped (plain_sight sight.old) clause.entry (Quantified place quantifier (plain_cast_type to.now) names.now (plain_form a.now)) result }
    ensures same { sight.new ≡ sight.old }
{
    if !is_guarded(quantifier, names, a) {
        return Err(no_guard(place));
    }
    let kind = binder_type(alloc, sight, place, to)?;
    let inside = Inside { place, kind: &kind };
    type_inside(alloc, sight, clause, inside, quantifier, names, a)
}

/// What a quantifier says of its binders.
#[cycle(form)]
fn type_inside(
    alloc: Global,
    sight: &mut Sight,
    clause: FormSight<'_>,
    inside: Inside<'_>,
    quantifier: Quantifier,
    names: &[(Place, u32)],
    f: &Formula,
) -> Result<Sorted, TypeFault>
    ensures typed { Answers plain_sorted (typed_quantified (form_sight (plain_sight sight.old) clause.entry) inside.entry.place quantifier
        (plain_cast_type inside.entry.kind.now) names.now (plain_form f.now)) result }
    ensures same { sight.new ≡ sight.old }
{
    match &*f.kind {
        FormulaKind::Connected(connective, a, b) => match (quantifier, connective) {
            (Quantifier::ForAll, Connective::Implies) => {
                let parts = type_implication(alloc, sight, clause, inside, names, f.place, a, b);
                universal(alloc, inside.place, f.place, parts)
            }
            (Quantifier::Exists, Connective::And) => {
                let parts = type_conjunction(alloc, sight, clause, inside, names, f.place, a, b);
                existential(alloc, inside.place, parts)
            }
            _ => Err(no_guard(inside.place)),
        },
        _ => Err(no_guard(inside.place)),
    }
}

/// The conjuncts on the left of an `==>` at this place, and what stands on its right, where all binders are in sight.
#[cycle(form)]
fn type_implication(
    alloc: Global,
    sight: &mut Sight,
    clause: FormSight<'_>,
    inside: Inside<'_>,
    names: &[(Place, u32)],
    at: Place,
    a: &Formula,
    b: &Formula,
) -> Result<(Conjuncts, Sorted), TypeFault>
    ensures typed { let s = form_sight (plain_sight sight.old) clause.entry in let f = plain_form a.now in
        Answers plain_implication (pair_of (typed_conjuncts s inside.entry.place (plain_cast_type inside.entry.kind.now) names.now at f (typed_form s f))
        (value_in (typed_form (with_binders s names.now) (plain_form b.now)))) result }
    ensures same { sight.new ≡ sight.old }
{
    let all = with_binders(alloc, clause.binders, names)?;
    let inner = FormSight {
        clause: clause.clause,
        binders: &all,
    };
    let a = type_conjuncts(alloc, sight, clause, inside, names, at, a);
    let b = type_value(alloc, sight, inner, b);
    joined(a, b)
}

/// The conjuncts of two forms with an `&&` at this place between them: those of the second are behind binders that the first guards.
#[cycle(form)]
fn type_conjunction(
    alloc: Global,
    sight: &mut Sight,
    clause: FormSight<'_>,
    inside: Inside<'_>,
    left: &[(Place, u32)],
    at: Place,
    a: &Formula,
    b: &Formula,
) -> Result<Conjuncts, TypeFault>
    ensures typed { let s = form_sight (plain_sight sight.old) clause.entry in let f = plain_form a.now in let g = plain_form b.now in
        let u = with_binders s (guarded_by left.now f) in let k = plain_cast_type inside.entry.kind.now in
        Answers plain_conjuncts (conjunction at (typed_conjuncts s inside.entry.place k left.now at f (typed_form s f))
        (typed_conjuncts u inside.entry.place k (left_behind left.now f) at g (typed_form u g))) result }
    ensures same { sight.new ≡ sight.old }
{
    let rest = left_behind(left, a);
    let all = with_binders(alloc, clause.binders, &left[..left.len() - rest.len()])?;
    let inner = FormSight {
        clause: clause.clause,
        binders: &all,
    };
    let a = type_conjuncts(alloc, sight, clause, inside, left, at, a);
    let b = type_conjuncts(alloc, sight, inner, inside, rest, at, b);
    joined_conjuncts(alloc, at, joined(a, b))
}

/// The conjuncts of a form, an operand of what stands at this place, where these binders are left.
#[cycle(form)]
fn type_conjuncts(
    alloc: Global,
    sight: &mut Sight,
    clause: FormSight<'_>,
    inside: Inside<'_>,
    left: &[(Place, u32)],
    at: Place,
    f: &Formula,
) -> Result<Conjuncts, TypeFault>
    ensures typed { let s = form_sight (plain_sight sight.old) clause.entry in let g = plain_form f.now in
        Answers plain_conjuncts (typed_conjuncts s inside.entry.place (plain_cast_type inside.entry.kind.now) left.now at g (typed_form s g)) result }
    ensures same { sight.new ≡ sight.old }
{
    match &*f.kind {
        FormulaKind::Connected(Connective::And, a, b) => {
            type_conjunction(alloc, sight, clause, inside, left, f.place, a, b)
        }
        FormulaKind::Chain(a, links) => match left {
            [] => type_another(alloc, sight, clause, at, f),
            [binder, after @ ..] => {
                let bounds = type_bounds(alloc, sight, clause, inside, f.place, a, links);
                chain_conjunct(alloc, inside, binder, after, links, bounds)
            }
        },
        _ => match left {
            [] => type_another(alloc, sight, clause, at, f),
            [..] => Err(no_guard(inside.place)),
        },
    }
}

/// A conjunct behind the guard, as an operand of what stands at this place.
#[cycle(form)]
fn type_another(
    alloc: Global,
    sight: &mut Sight,
    clause: FormSight<'_>,
    at: Place,
    f: &Formula,
) -> Result<Conjuncts, TypeFault>
    ensures typed { Answers plain_conjuncts (another_conjunct at (typed_form (form_sight (plain_sight sight.old) clause.entry) (plain_form f.now))) result }
    ensures same { sight.new ≡ sight.old }
{
    let a = type_value(alloc, sight, clause, f)?;
    another_conjunct(alloc, at, a)
}

/// The bounds of a chain.
#[cycle(form)]
fn type_bounds(
    alloc: Global,
    sight: &mut Sight,
    clause: FormSight<'_>,
    inside: Inside<'_>,
    at: Place,
    a: &Formula,
    links: &FormulaLinks,
) -> Result<(Term, Term), TypeFault>
    ensures typed { let s = form_sight (plain_sight sight.old) clause.entry in
        Answers plain_bounds (pair_of (bound_at at (typed_form s (plain_form a.now))) (typed_upper s inside.entry.place (plain_form_links links.now))) result }
    ensures same { sight.new ≡ sight.old }
{
    let lower = type_bound(alloc, sight, clause, at, a);
    let upper = type_upper(alloc, sight, clause, inside.place, links);
    joined(lower, upper)
}

/// An integer that is a bound.
#[cycle(form)]
fn type_bound(
    alloc: Global,
    sight: &mut Sight,
    clause: FormSight<'_>,
    at: Place,
    a: &Formula,
) -> Result<Term, TypeFault>
    ensures typed { Answers plain_term (bound_at at (typed_form (form_sight (plain_sight sight.old) clause.entry) (plain_form a.now))) result }
    ensures same { sight.new ≡ sight.old }
{
    let a = type_value(alloc, sight, clause, a)?;
    as_integer(at, a)
}

/// The last form of a chain in the guard of the quantifier at this place.
#[cycle(form)]
fn type_upper(
    alloc: Global,
    sight: &mut Sight,
    clause: FormSight<'_>,
    place: Place,
    links: &FormulaLinks,
) -> Result<Term, TypeFault>
    ensures typed { Answers plain_term (typed_upper (form_sight (plain_sight sight.old) clause.entry) place (plain_form_links links.now)) result }
    ensures same { sight.new ≡ sight.old }
{
    match links {
        FormulaLinks::End => Err(no_guard(place)),
        FormulaLinks::Link(at, _, a, rest) => match &**rest {
            FormulaLinks::End => type_bound(alloc, sight, clause, *at, a),
            FormulaLinks::Link(..) => type_upper(alloc, sight, clause, place, rest),
        },
    }
}
