//! The names that a form mentions. The binders of a quantifier hide what has their names.

ghost use Rattle.std.specs.Prelude.{◌≡◌};
ghost use Rattle.c_syntax.specs.declared.place.Place.{Place};
ghost use Rattle.c_syntax.specs.Formulas.{plain_form, plain_form_kind, plain_form_links, plain_form_zone, plain_form_zones};
ghost use Rattle.c_model.specs.QuantifierGuards.{is_binder, links_mention, mentions, mentions_any, zone_mentions, zones_mention};

use c_syntax::Place;
use c_syntax::logic::{Formula, FormulaKind, FormulaLinks, FormulaZone, FormulaZones};

/// Whether a name is that of one of these binders.
fn is_binder(name: u32, binders: &[(Place, u32)]) -> bool
    ensures { result ≡ is_binder name binders.now }
{
    for binder in binders {
        if name == binder.1 {
            return true;
        }
    }
    false
}

/// Whether a form mentions a name.
#[cycle(mention)]
pub fn mentions(name: u32, f: &Formula) -> bool
    ensures { result ≡ mentions name (plain_form f.now) }
{
    kind_mentions(name, &f.kind)
}

#[cycle(mention)]
fn kind_mentions(name: u32, kind: &FormulaKind) -> bool
    ensures { (at : Place) → result ≡ mentions name (plain_form_kind at kind.now) }
{
    match kind {
        FormulaKind::Number(_)
        | FormulaKind::Letter(_)
        | FormulaKind::Truth(_)
        | FormulaKind::SizeOf(_)
        | FormulaKind::Null
        | FormulaKind::Result => false,
        FormulaKind::Name(x) => name == x.name,
        FormulaKind::Unary(_, a) => mentions(name, a),
        FormulaKind::Binary(_, a, b) => mentions(name, a) || mentions(name, b),
        FormulaKind::Cast(_, a) => mentions(name, a),
        FormulaKind::Chain(a, links) => mentions(name, a) || links_mention(name, links),
        FormulaKind::Connected(_, a, b) => mentions(name, a) || mentions(name, b),
        FormulaKind::Choice(c, a, b) => mentions(name, c) || mentions(name, a) || mentions(name, b),
        FormulaKind::Index(a, b) => mentions(name, a) || mentions(name, b),
        FormulaKind::Dot(a, _) => mentions(name, a),
        FormulaKind::Arrow(a, _) => mentions(name, a),
        FormulaKind::Told(_, a) => mentions(name, a),
        FormulaKind::Asks(_, z) => zone_mentions(name, z),
        FormulaKind::Separated(zones) => zones_mention(name, zones),
        FormulaKind::Old(a) => mentions(name, a),
        FormulaKind::At(a, _, _) => mentions(name, a),
        FormulaKind::Quantified(_, _, names, a) => !is_binder(name, names) && mentions(name, a),
    }
}

#[cycle(mention)]
fn links_mention(name: u32, links: &FormulaLinks) -> bool
    ensures { result ≡ links_mention name (plain_form_links links.now) }
{
    match links {
        FormulaLinks::End => false,
        FormulaLinks::Link(_, _, a, rest) => mentions(name, a) || links_mention(name, rest),
    }
}

#[cycle(mention)]
fn zone_mentions(name: u32, z: &FormulaZone) -> bool
    ensures { result ≡ zone_mentions name (plain_form_zone z.now) }
{
    match z {
        FormulaZone::Object(a) => mentions(name, a),
        FormulaZone::Elements(_, a, lo, hi) => {
            mentions(name, a) || mentions(name, lo) || mentions(name, hi)
        }
    }
}

#[cycle(mention)]
fn zones_mention(name: u32, zones: &FormulaZones) -> bool
    ensures { result ≡ zones_mention name (plain_form_zones zones.now) }
{
    match zones {
        FormulaZones::End => false,
        FormulaZones::More(z, rest) => zone_mentions(name, z) || zones_mention(name, rest),
    }
}

/// Whether a form mentions one of these binders.
pub fn mentions_any(binders: &[(Place, u32)], f: &Formula) -> bool
    ensures { result ≡ mentions_any binders.now (plain_form f.now) }
{
    for binder in binders {
        if mentions(binder.1, f) {
            return true;
        }
    }
    false
}
