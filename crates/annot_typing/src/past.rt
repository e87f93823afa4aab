//! What may not stand under a label (ACSL 2.4.3).

ghost use Rattle.std.specs.Prelude.{◌≡◌, ◌||◌};
ghost use Rattle.c_syntax.specs.declared.place.Place.{Place};
ghost use Rattle.c_syntax.specs.Formulas.{plain_form, plain_form_kind, plain_form_links, plain_form_zone, plain_form_zones};
ghost use Rattle.c_model.specs.QuantifierGuards.{mentions_any};
ghost use Rattle.c_model.specs.PredicateTyping.{has_past, links_have_past, zone_has_past, zones_have_past};

use crate::clause_sight::FormSight;
use c_syntax::logic::{Formula, FormulaKind, FormulaLinks, FormulaZone, FormulaZones};
use quantifier_guards::mentions_any;

/// What may not stand under a label where `\result` may not either, or may: one of those, or a binder.
pub fn is_refused(clause: FormSight<'_>, results: bool, f: &Formula) -> bool
    ensures { let g = plain_form f.now in result ≡ (has_past results g || mentions_any clause.entry.binders.now g) }
{
    has_past(results, f) || mentions_any(clause.binders, f)
}

/// Whether `\old` or `\at` stands in a form, or `\result`, where that is asked for too.
#[cycle(past)]
fn has_past(results: bool, f: &Formula) -> bool
    ensures { result ≡ has_past results (plain_form f.now) }
{
    kind_has_past(results, &f.kind)
}

#[cycle(past)]
fn kind_has_past(results: bool, kind: &FormulaKind) -> bool
    ensures { (at : Place) → result ≡ has_past results (plain_form_kind at kind.now) }
{
    match kind {
        FormulaKind::Number(_)
        | FormulaKind::Letter(_)
        | FormulaKind::Truth(_)
        | FormulaKind::Name(_)
        | FormulaKind::SizeOf(_)
        | FormulaKind::Null => false,
        FormulaKind::Unary(_, a) => has_past(results, a),
        FormulaKind::Binary(_, a, b) => has_past(results, a) || has_past(results, b),
        FormulaKind::Cast(_, a) => has_past(results, a),
        FormulaKind::Chain(a, links) => has_past(results, a) || links_have_past(results, links),
        FormulaKind::Connected(_, a, b) => has_past(results, a) || has_past(results, b),
        FormulaKind::Choice(c, a, b) => {
            has_past(results, c) || has_past(results, a) || has_past(results, b)
        }
        FormulaKind::Index(a, b) => has_past(results, a) || has_past(results, b),
        FormulaKind::Dot(a, _) => has_past(results, a),
        FormulaKind::Arrow(a, _) => has_past(results, a),
        FormulaKind::Told(_, a) => has_past(results, a),
        FormulaKind::Asks(_, z) => zone_has_past(results, z),
        FormulaKind::Separated(zones) => zones_have_past(results, zones),
        FormulaKind::Result => results,
        FormulaKind::Old(_) | FormulaKind::At(..) => true,
        FormulaKind::Quantified(_, _, _, a) => has_past(results, a),
    }
}

#[cycle(past)]
fn links_have_past(results: bool, links: &FormulaLinks) -> bool
    ensures { result ≡ links_have_past results (plain_form_links links.now) }
{
    match links {
        FormulaLinks::End => false,
        FormulaLinks::Link(_, _, a, rest) => {
            has_past(results, a) || links_have_past(results, rest)
        }
    }
}

#[cycle(past)]
fn zone_has_past(results: bool, z: &FormulaZone) -> bool
    ensures { result ≡ zone_has_past results (plain_form_zone z.now) }
{
    match z {
        FormulaZone::Object(a) => has_past(results, a),
        FormulaZone::Elements(_, a, lo, hi) => {
            has_past(results, a) || has_past(results, lo) || has_past(results, hi)
        }
    }
}

#[cycle(past)]
fn zones_have_past(results: bool, zones: &FormulaZones) -> bool
    ensures { result ≡ zones_have_past results (plain_form_zones zones.now) }
{
    match zones {
        FormulaZones::End => false,
        FormulaZones::More(z, rest) => {
            zone_has_past(results, z) || zones_have_past(results, rest)
        }
    }
}
