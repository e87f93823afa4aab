//! Which forms are guards of a quantifier: conjunctions that begin with chains of `<` and `<=` over its binders in their order.

ghost use Rattle.std.specs.Prelude.{◌≡◌, ◌≤◌, IfSome, length, option_map};
ghost use Rattle.std.specs.Borrow.{Bor};
ghost use Rattle.c_syntax.specs.declared.place.Place.{Place};
ghost use Rattle.c_syntax.specs.Formulas.{plain_form, plain_form_kind, plain_form_links};
ghost use Rattle.c_model.specs.QuantifierGuards.{behind_chain, behind_links, goes_on, is_done, is_guarded, is_name_of, is_upward, left_behind, unguarded};
ghost use Rattle.quantifier_guards.specs.Left.{left_of};

use crate::mention::mentions_any;
use c_syntax::logic::{Connective, Formula, FormulaKind, FormulaLinks, Quantifier};
use c_syntax::{Place, Relation};

/// Whether a relation goes upward.
fn is_upward(relation: Relation) -> bool
    ensures { result ≡ is_upward relation }
{
    match relation {
        Relation::Lt | Relation::Le => true,
        Relation::Eq | Relation::Ne | Relation::Gt | Relation::Ge => false,
    }
}

/// Whether a form is the name of a binder.
fn is_name_of(binder: &(Place, u32), f: &Formula) -> bool
    ensures { result ≡ is_name_of binder.now (plain_form f.now) }
{
    match &*f.kind {
        FormulaKind::Name(x) => x.name == binder.1,
        _ => false,
    }
}

/// The binders that are left behind the rest of a chain: the next ones of these, and an upper bound that mentions none of the second.
fn behind_links<'a>(
    binders: &'a [(Place, u32)],
    later: &[(Place, u32)],
    links: &FormulaLinks,
) -> Option<&'a [(Place, u32)]>
    ensures value { left_of result ≡ behind_links binders.now later.now (plain_form_links links.now) }
    ensures within { IfSome result (λ x. length x.now ≤ length binders.now) }
{
    match links {
        FormulaLinks::End => None,
        FormulaLinks::Link(_, relation, a, rest) => match &**rest {
            FormulaLinks::End => {
                if is_upward(*relation) && !mentions_any(later, a) {
                    Some(binders)
                } else {
                    None
                }
            }
            FormulaLinks::Link(..) => match binders {
                [] => None,
                [binder, after @ ..] => {
                    if is_upward(*relation) && is_name_of(binder, a) {
                        behind_links(after, later, rest)
                    } else {
                        None
                    }
                }
            },
        },
    }
}

/// The binders that are left behind a chain from a lower bound over the first of these, and perhaps more, to an upper bound.
fn behind_chain<'a>(
    binders: &'a [(Place, u32)],
    a: &Formula,
    links: &FormulaLinks,
) -> Option<&'a [(Place, u32)]>
    ensures value { left_of result ≡ behind_chain binders.now (plain_form a.now) (plain_form_links links.now) }
    ensures within { IfSome result (λ x. length x.now ≤ length binders.now) }
{
    match links {
        FormulaLinks::End => None,
        FormulaLinks::Link(_, _, _, rest) => match &**rest {
            FormulaLinks::End => None,
            FormulaLinks::Link(..) => {
                if mentions_any(binders, a) {
                    None
                } else {
                    behind_links(binders, binders, links)
                }
            }
        },
    }
}

/// The binders that are left behind a conjunction whose first conjuncts are chains over these.
fn unguarded<'a>(binders: &'a [(Place, u32)], f: &Formula) -> Option<&'a [(Place, u32)]>
    ensures value { left_of result ≡ unguarded binders.now (plain_form f.now) }
    ensures within { IfSome result (λ x. length x.now ≤ length binders.now) }
{
    match &*f.kind {
        FormulaKind::Connected(Connective::And, a, b) => match unguarded(binders, a) {
            None => None,
            Some(rest) => unguarded(rest, b),
        },
        FormulaKind::Chain(a, links) => {
            if binders.is_empty() {
                Some(binders)
            } else {
                behind_chain(binders, a, links)
            }
        }
        _ => {
            if binders.is_empty() {
                Some(binders)
            } else {
                None
            }
        }
    }
}

/// The binders that are left behind a part of a guard; none where it is no part of one.
pub fn left_behind<'a>(binders: &'a [(Place, u32)], f: &Formula) -> &'a [(Place, u32)]
    ensures value { result.now ≡ left_behind binders.now (plain_form f.now) }
    ensures within { length result.now ≤ length binders.now }
{
    match unguarded(binders, f) {
        None => &[],
        Some(rest) => rest,
    }
}

/// Whether a conjunction begins with chains over all of these binders.
fn is_done(binders: &[(Place, u32)], f: &Formula) -> bool
    ensures { result ≡ is_done (unguarded binders.now (plain_form f.now)) }
{
    match unguarded(binders, f) {
        None => false,
        Some(rest) => rest.is_empty(),
    }
}

/// Whether a conjunction has a conjunct behind the chains over these binders.
fn goes_on(binders: &[(Place, u32)], f: &Formula) -> bool
    ensures { result ≡ goes_on binders.now (plain_form f.now) }
{
    if binders.is_empty() {
        return true;
    }
    match &*f.kind {
        FormulaKind::Connected(Connective::And, a, b) => match unguarded(binders, a) {
            None => false,
            Some(rest) => goes_on(rest, b),
        },
        _ => false,
    }
}

/// Whether what a quantifier says of its binders has guards for them.
pub fn is_guarded(quantifier: Quantifier, binders: &[(Place, u32)], f: &Formula) -> bool
    ensures { result ≡ is_guarded quantifier binders.now (plain_form f.now) }
{
    match quantifier {
        Quantifier::ForAll => match &*f.kind {
            FormulaKind::Connected(Connective::Implies, a, _) => is_done(binders, a),
            _ => false,
        },
        Quantifier::Exists => is_done(binders, f) && goes_on(binders, f),
    }
}
