//! The quantifiers of forms that have no guard.

ghost use Rattle.std.specs.Prelude.{◌≡◌};
ghost use Rattle.c_syntax.specs.Formulas.{plain_form, plain_form_kind, plain_form_links, plain_form_zone, plain_form_zones};
ghost use Rattle.c_model.specs.QuantifierGuards.{first_place, unguarded_in, unguarded_in_links, unguarded_in_zone, unguarded_in_zones};

use crate::guard::is_guarded;
use c_syntax::Place;
use c_syntax::logic::{Formula, FormulaKind, FormulaLinks, FormulaZone, FormulaZones};

/// The first in the text of two places, where there are some.
pub fn first_place(a: Option<Place>, b: Option<Place>) -> Option<Place>
    ensures { result ≡ first_place a b }
{
    match (a, b) {
        (None, b) => b,
        (a, None) => a,
        (Some(p), Some(q)) => {
            if q.offset < p.offset {
                Some(q)
            } else {
                Some(p)
            }
        }
    }
}

/// The first in the text of three places, where there are some.
fn first_of_three(a: Option<Place>, b: Option<Place>, c: Option<Place>) -> Option<Place>
    ensures { result ≡ first_place a (first_place b c) }
{
    first_place(a, first_place(b, c))
}

/// The place of the first quantifier in a form that has no guard.
#[cycle(unguarded)]
pub fn unguarded_in(f: &Formula) -> Option<Place>
    ensures { result ≡ unguarded_in (plain_form f.now) }
{
    unguarded_in_kind(f.place, &f.kind)
}

#[cycle(unguarded)]
fn unguarded_in_kind(place: Place, kind: &FormulaKind) -> Option<Place>
    ensures { result ≡ unguarded_in (plain_form_kind place kind.now) }
{
    match kind {
        FormulaKind::Number(_)
        | FormulaKind::Letter(_)
        | FormulaKind::Truth(_)
        | FormulaKind::Name(_)
        | FormulaKind::SizeOf(_)
        | FormulaKind::Null
        | FormulaKind::Result => None,
        FormulaKind::Unary(_, a) => unguarded_in(a),
        FormulaKind::Binary(_, a, b) => first_place(unguarded_in(a), unguarded_in(b)),
        FormulaKind::Cast(_, a) => unguarded_in(a),
        FormulaKind::Chain(a, links) => first_place(unguarded_in(a), unguarded_in_links(links)),
        FormulaKind::Connected(_, a, b) => first_place(unguarded_in(a), unguarded_in(b)),
        FormulaKind::Choice(c, a, b) => {
            first_of_three(unguarded_in(c), unguarded_in(a), unguarded_in(b))
        }
        FormulaKind::Index(a, b) => first_place(unguarded_in(a), unguarded_in(b)),
        FormulaKind::Dot(a, _) => unguarded_in(a),
        FormulaKind::Arrow(a, _) => unguarded_in(a),
        FormulaKind::Told(_, a) => unguarded_in(a),
        FormulaKind::Asks(_, z) => unguarded_in_zone(z),
        FormulaKind::Separated(zones) => unguarded_in_zones(zones),
        FormulaKind::Old(a) => unguarded_in(a),
        FormulaKind::At(a, _, _) => unguarded_in(a),
        FormulaKind::Quantified(quantifier, _, names, a) => {
            let own = if is_guarded(*quantifier, names, a) {
                None
            } else {
                Some(place)
            };
            first_place(own, unguarded_in(a))
        }
    }
}

#[cycle(unguarded)]
fn unguarded_in_links(links: &FormulaLinks) -> Option<Place>
    ensures { result ≡ unguarded_in_links (plain_form_links links.now) }
{
    match links {
        FormulaLinks::End => None,
        FormulaLinks::Link(_, _, a, rest) => first_place(unguarded_in(a), unguarded_in_links(rest)),
    }
}

#[cycle(unguarded)]
fn unguarded_in_zone(z: &FormulaZone) -> Option<Place>
    ensures { result ≡ unguarded_in_zone (plain_form_zone z.now) }
{
    match z {
        FormulaZone::Object(a) => unguarded_in(a),
        FormulaZone::Elements(_, a, lo, hi) => {
            first_of_three(unguarded_in(a), unguarded_in(lo), unguarded_in(hi))
        }
    }
}

#[cycle(unguarded)]
fn unguarded_in_zones(zones: &FormulaZones) -> Option<Place>
    ensures { result ≡ unguarded_in_zones (plain_form_zones zones.now) }
{
    match zones {
        FormulaZones::End => None,
        FormulaZones::More(z, rest) => first_place(unguarded_in_zone(z), unguarded_in_zones(rest)),
    }
}
