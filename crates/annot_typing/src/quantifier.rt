//! The parts of quantifiers (ACSL 2.2): the chains of a guard with their binders, and what stands behind them.

ghost use Rattle.std.specs.Prelude.{◌≡◌, ◌++◌, ◌∷◌, [], IfOk, None, OnOk, Some, map, option_map};
ghost use Rattle.c_syntax.specs.Ctypes.{plain_type};
ghost use Rattle.c_syntax.specs.Formulas.{OfC, plain_cast_type, plain_form_links};
ghost use Rattle.c_syntax.specs.declared.place.Place.{Place};
ghost use Rattle.c_syntax.specs.Logic.{LogicTerm, plain_binder, plain_guards, plain_pred, plain_term};
ghost use Rattle.c_model.specs.Checked.{Checked, Good, one_part, pair_of};
ghost use Rattle.c_model.specs.PredicateTyping as plain;
ghost use Rattle.c_model.specs.PredicateTyping.{as_predicate};
ghost use Rattle.c_model.specs.QuantifierTyping as plain_quantifier;
ghost use Rattle.c_model.specs.QuantifierGuards.{is_strict};
ghost use Rattle.c_model.specs.QuantifierTyping.{binder_behind, binder_type, binders_in, both_of, chain_conjunct, chain_over, existential};
ghost use Rattle.c_model.specs.QuantifierTyping.{guards_of, implied, integer_binders, is_below, joined, universal};
ghost use Rattle.c_scopes.specs.Answers.{Answers};
ghost use Rattle.c_scopes.specs.Sights.{plain_sight};
ghost use Rattle.annot_typing.specs.Quantifiers.{plain_bounds, plain_chain, plain_conjuncts, plain_implication, plain_parts};
ghost use Rattle.annot_typing.specs.Sorts.{plain_sorted};

use crate::demand::as_predicate;
use crate::sorted::{Sorted, predicate};
use c_conversions::conversion::integer_type;
use c_expression_rules::expression::type_written;
use c_scopes::fault::{TypeFault, no_guard, no_type};
use c_scopes::sight::Sight;
use c_syntax::copy::copy_type;
use c_syntax::logic::{
    Binder, Connective, FormulaLinks, Guard, Guards, LogicType, Pred, PredKind, Quantifier, Term,
};
use c_syntax::{CType, Place, Relation};
use std::alloc::{AllocError, Global};

/// What a quantifier tells of its binders: its place, and their type.
#[derive(Clone, Copy)]
pub struct Inside<'a> {
    pub place: Place,
    pub kind: &'a LogicType,
}

/// What the conjuncts of a form are: the chains of a guard, and what else stands there.
#[derive(Drop)]
pub struct Conjuncts {
    pub chains: Vec<Guard>,
    pub others: Option<Pred>,
}

/// Binders, and more of them.
pub fn with_binders(
    alloc: Global,
    binders: &[(Place, u32)],
    more: &[(Place, u32)],
) -> Result<Vec<(Place, u32)>, AllocError>
    ensures { IfOk result (λ all. all.items ≡ binders.now ++ more.now) }
{
    let mut all = binders.to_vec(alloc)?;
    all.extend_from_slice(more)?;
    Ok(all)
}

/// The type of binders that a type of C gives, as it is written.
fn written_binders(
    alloc: Global,
    sight: &Sight,
    place: Place,
    t: &CType,
) -> Result<LogicType, TypeFault>
    ensures { Answers plain_cast_type (binder_type (plain_sight sight.now) place (OfC (plain_type t.now))) result }
{
    let mut u = copy_type(alloc, t)?;
    type_written(alloc, sight, place, &mut u)?;
    if integer_type(&u).is_some() {
        Ok(LogicType::Of(u))
    } else {
        Err(no_type(place))
    }
}

/// The type of binders: the unbounded integers, or an integer type of C.
pub fn binder_type(
    alloc: Global,
    sight: &Sight,
    place: Place,
    to: &LogicType,
) -> Result<LogicType, TypeFault>
    ensures { Answers plain_cast_type (binder_type (plain_sight sight.now) place (plain_cast_type to.now)) result }
{
    match to {
        LogicType::Integer => Ok(LogicType::Integer),
        LogicType::Of(t) => written_binders(alloc, sight, place, t),
    }
}

/// Whether a relation is a `<`.
fn is_strict(relation: Relation) -> bool
    ensures { result ≡ is_strict relation }
{
    match relation {
        Relation::Lt => true,
        Relation::Le | Relation::Eq | Relation::Ne | Relation::Gt | Relation::Ge => false,
    }
}

fn copy_kind(alloc: Global, kind: &LogicType) -> Result<LogicType, AllocError>
    ensures { IfOk result (λ k. plain_cast_type k ≡ plain_cast_type kind.now) }
{
    match kind {
        LogicType::Integer => Ok(LogicType::Integer),
        LogicType::Of(t) => {
            let t = copy_type(alloc, t)?;
            Ok(LogicType::Of(t))
        }
    }
}

/// A binder behind a relation.
fn binder_behind(
    alloc: Global,
    kind: &LogicType,
    relation: Relation,
    binder: &(Place, u32),
) -> Result<Binder, AllocError>
    ensures { IfOk result (λ b. plain_binder b ≡ binder_behind (plain_cast_type kind.now) relation binder.now) }
{
    let kind = copy_kind(alloc, kind)?;
    Ok(Binder {
        place: binder.0,
        kind,
        above: is_strict(relation),
    })
}

/// Adds the binders in the rest of a chain, of these that are left.
fn add_binders(
    alloc: Global,
    kind: &LogicType,
    found: &mut Vec<Binder>,
    binders: &[(Place, u32)],
    links: &FormulaLinks,
) -> Result<(), AllocError>
    ensures { OnOk result (map plain_binder found.new.items ≡ map plain_binder found.old.items
        ++ binders_in (plain_cast_type kind.now) binders.now (plain_form_links links.now)) }
{
    match binders {
        [] => Ok(()),
        [binder, after @ ..] => match links {
            FormulaLinks::End => Ok(()),
            FormulaLinks::Link(_, relation, _, rest) => match &**rest {
                FormulaLinks::End => Ok(()),
                FormulaLinks::Link(..) => {
                    let b = binder_behind(alloc, kind, *relation, binder)?;
                    found.push(b)?;
                    add_binders(alloc, kind, found, after, rest)
                }
            },
        },
    }
}

/// Whether the last relation of a chain is a `<`.
fn is_below(links: &FormulaLinks) -> bool
    ensures { result ≡ is_below (plain_form_links links.now) }
{
    match links {
        FormulaLinks::End => false,
        FormulaLinks::Link(_, relation, _, rest) => match &**rest {
            FormulaLinks::End => is_strict(*relation),
            FormulaLinks::Link(..) => is_below(rest),
        },
    }
}

/// A chain of a guard alone.
fn one_chain(alloc: Global, chain: Guard) -> Result<Conjuncts, AllocError>
    ensures { IfOk result (λ c. plain_conjuncts c ≡ record { chains = plain_chain chain ∷ []; others = None }) }
{
    let mut chains = Vec::new(alloc);
    chains.push(chain)?;
    Ok(Conjuncts {
        chains,
        others: None,
    })
}

/// A chain over a binder, and perhaps more of these, from and to bounds.
fn chain_over(
    alloc: Global,
    kind: &LogicType,
    binder: &(Place, u32),
    binders: &[(Place, u32)],
    relation: Relation,
    rest: &FormulaLinks,
    bounds: (Term, Term),
) -> Result<Conjuncts, TypeFault>
    ensures { Answers plain_conjuncts (Good (chain_over (plain_cast_type kind.now) binder.now binders.now relation (plain_form_links rest.now)
        (plain_term bounds.0) (plain_term bounds.1))) result }
{
    let first = binder_behind(alloc, kind, relation, binder)?;
    let mut others = Vec::new(alloc);
    add_binders(alloc, kind, &mut others, binders, rest)?;
    let (lower, upper) = bounds;
    let chain = Guard {
        lower,
        first,
        others,
        below: is_below(rest),
        upper,
    };
    Ok(one_chain(alloc, chain)?)
}

/// A conjunct that is a chain over a binder, and perhaps more of these, with these bounds.
#[tactic(auto, using(c_scopes::proofs::Least::one_refused))]
pub fn chain_conjunct(
    alloc: Global,
    inside: Inside<'_>,
    binder: &(Place, u32),
    binders: &[(Place, u32)],
    links: &FormulaLinks,
    bounds: Result<(Term, Term), TypeFault>,
) -> Result<Conjuncts, TypeFault>
    ensures { (lower upper : Checked LogicTerm) → Answers plain_bounds (pair_of lower upper) bounds → (at : Place) → (whole : Checked plain.Sorted)
        → Answers plain_conjuncts (chain_conjunct inside.entry.place (plain_cast_type inside.entry.kind.now) (binder.now ∷ binders.now) at
        (plain_form_links links.now) lower upper whole) result }
{
    match links {
        FormulaLinks::End => Err(no_guard(inside.place)),
        FormulaLinks::Link(_, relation, _, rest) => match &**rest {
            FormulaLinks::End => Err(no_guard(inside.place)),
            FormulaLinks::Link(..) => {
                let bounds = bounds?;
                chain_over(alloc, inside.kind, binder, binders, *relation, rest, bounds)
            }
        },
    }
}

/// What stands behind the guard, alone.
fn only_others(alloc: Global, p: Pred) -> Conjuncts
    ensures { plain_conjuncts result ≡ record { chains = []; others = Some (plain_pred p) } }
{
    Conjuncts {
        chains: Vec::new(alloc),
        others: Some(p),
    }
}

/// A conjunct behind the guard, as an operand of what stands at this place.
pub fn another_conjunct(alloc: Global, place: Place, a: Sorted) -> Result<Conjuncts, TypeFault>
    ensures { Answers plain_conjuncts (one_part (as_predicate place (plain_sorted a)) (λ p. Good (record { chains = []; others = Some p }))) result }
{
    let p = as_predicate(alloc, place, a)?;
    Ok(only_others(alloc, p))
}

/// Two predicates with `&&` at this place between them, where there are two.
fn both_of(
    alloc: Global,
    place: Place,
    a: Option<Pred>,
    b: Option<Pred>,
) -> Result<Option<Pred>, AllocError>
    ensures { IfOk result (λ c. option_map plain_pred c ≡ both_of place (option_map plain_pred a) (option_map plain_pred b)) }
{
    match (a, b) {
        (None, b) => Ok(b),
        (a, None) => Ok(a),
        (Some(p), Some(q)) => {
            let kind = Box::new(alloc, PredKind::Connected(Connective::And, p, q))?;
            Ok(Some(Pred { place, kind }))
        }
    }
}

/// Chains, and behind them others.
fn appended(a: Vec<Guard>, b: Vec<Guard>) -> Result<Vec<Guard>, AllocError>
    ensures { IfOk result (λ c. c.items ≡ a.items ++ b.items) }
{
    let mut all = a;
    let mut more = b;
    all.append(&mut more)?;
    Ok(all)
}

/// The conjuncts of two parts of a conjunction, with its `&&` at this place.
fn join_conjuncts(
    alloc: Global,
    place: Place,
    a: Conjuncts,
    b: Conjuncts,
) -> Result<Conjuncts, AllocError>
    ensures { IfOk result (λ c. plain_conjuncts c ≡ joined place (plain_conjuncts a) (plain_conjuncts b)) }
{
    let chains = appended(a.chains, b.chains)?;
    let others = both_of(alloc, place, a.others, b.others)?;
    Ok(Conjuncts { chains, others })
}

/// Two parts of a conjunction, with its `&&` at this place.
#[tactic(auto, using(c_scopes::proofs::Least::one_refused))]
pub fn joined_conjuncts(
    alloc: Global,
    place: Place,
    parts: Result<(Conjuncts, Conjuncts), TypeFault>,
) -> Result<Conjuncts, TypeFault>
    ensures { (c : Checked (plain_quantifier.Conjuncts × plain_quantifier.Conjuncts)) → Answers plain_parts c parts
        → Answers plain_conjuncts (one_part c (λ p. Good (joined place p.0 p.1))) result }
{
    let (a, b) = parts?;
    Ok(join_conjuncts(alloc, place, a, b)?)
}

/// The guard that has these chains.
fn guards_of(alloc: Global, chains: Vec<Guard>) -> Result<Guards, AllocError>
    ensures { IfOk result (λ gs. plain_guards gs ≡ guards_of (map plain_chain chains.items)) }
{
    let mut left = chains;
    let mut guards = Guards::End;
    'chains: while let Some(chain) = left.pop() {
        let rest = Box::new(alloc, guards)?;
        guards = Guards::More(chain, rest);
    }
    Ok(guards)
}

/// What is said where hypotheses hold.
fn implied(
    alloc: Global,
    place: Place,
    hypothesis: Option<Pred>,
    p: Pred,
) -> Result<Pred, AllocError>
    ensures { IfOk result (λ q. plain_pred q ≡ implied place (option_map plain_pred hypothesis) (plain_pred p)) }
{
    match hypothesis {
        None => Ok(p),
        Some(h) => {
            let kind = Box::new(alloc, PredKind::Connected(Connective::Implies, h, p))?;
            Ok(Pred { place, kind })
        }
    }
}

/// `\forall`, whose `==>` stands at the second place.
fn for_all(
    alloc: Global,
    place: Place,
    at: Place,
    conjuncts: Conjuncts,
    a: Sorted,
) -> Result<Sorted, TypeFault>
    ensures { Answers plain_sorted (universal place at (plain_conjuncts conjuncts) (plain_sorted a)) result }
{
    let p = as_predicate(alloc, at, a)?;
    let body = implied(alloc, at, conjuncts.others, p)?;
    let guards = guards_of(alloc, conjuncts.chains)?;
    predicate(
        alloc,
        place,
        PredKind::Quantified(Quantifier::ForAll, guards, body),
    )
}

/// `\forall`, of the conjuncts on the left of its `==>` and what stands on the right.
#[tactic(auto, using(c_scopes::proofs::Least::one_refused))]
pub fn universal(
    alloc: Global,
    place: Place,
    at: Place,
    parts: Result<(Conjuncts, Sorted), TypeFault>,
) -> Result<Sorted, TypeFault>
    ensures { (c : Checked (plain_quantifier.Conjuncts × plain.Sorted)) → Answers plain_implication c parts
        → Answers plain_sorted (one_part c (λ p. universal place at p.0 p.1)) result }
{
    let (conjuncts, a) = parts?;
    for_all(alloc, place, at, conjuncts, a)
}

/// `\exists` of these conjuncts, of which one stands behind the guard.
fn exists(alloc: Global, place: Place, conjuncts: Conjuncts) -> Result<Sorted, TypeFault>
    ensures { Answers plain_sorted (existential place (plain_conjuncts conjuncts)) result }
{
    let Conjuncts { chains, others } = conjuncts;
    match others {
        None => Err(no_guard(place)),
        Some(body) => {
            let guards = guards_of(alloc, chains)?;
            predicate(
                alloc,
                place,
                PredKind::Quantified(Quantifier::Exists, guards, body),
            )
        }
    }
}

/// `\exists` of conjuncts.
#[tactic(auto, using(c_scopes::proofs::Least::one_refused))]
pub fn existential(
    alloc: Global,
    place: Place,
    parts: Result<Conjuncts, TypeFault>,
) -> Result<Sorted, TypeFault>
    ensures { (c : Checked plain_quantifier.Conjuncts) → Answers plain_conjuncts c parts → Answers plain_sorted (one_part c (existential place)) result }
{
    let conjuncts = parts?;
    exists(alloc, place, conjuncts)
}
