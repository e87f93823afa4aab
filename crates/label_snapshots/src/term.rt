//! The terms at labels in terms, predicates and annotations.

ghost use Rattle.std.specs.Prelude.{◌≡◌, ◌++◌, [], ◌∷◌, OnOk, map};
ghost use Rattle.c_syntax.specs.Logic.{plain_annot, plain_body, plain_guards, plain_links, plain_pred, plain_term, plain_zone_kind, plain_zones};
ghost use Rattle.annot_simulation.specs.Plan.{in_annotations, in_clause, in_guards, in_links, in_predicate, in_term, in_zone, in_zones};
ghost use Rattle.label_snapshots.specs.Plain.{plain_entries};

use crate::entry::Entry;
use c_syntax::Annot;
use c_syntax::logic::{
    Body, Guards, Label, Links, Pred, PredKind, Term, TermKind, Zone, ZoneKind, Zones,
};
use std::alloc::AllocError;

// A term at a label of the past is kept.
fn keep<'a>(label: Option<u32>, term: &'a Term, to: &mut Vec<Entry<'a>>) -> Result<(), AllocError>
    ensures { OnOk result (plain_entries to.new.items ≡ plain_entries to.old.items ++ (label, plain_term term.now) ∷ []) }
{
    to.push(Entry { label, term })?;
    Ok(())
}

// Adds those in a term.
#[cycle(entries)]
fn add_term<'a>(t: &'a Term, to: &mut Vec<Entry<'a>>) -> Result<(), AllocError>
    ensures { OnOk result (plain_entries to.new.items ≡ plain_entries to.old.items ++ in_term (plain_term t.now)) }
{
    match &*t.kind {
        TermKind::Number(_) | TermKind::Letter(_) | TermKind::Variable(_) => Ok(()),
        TermKind::Null | TermKind::Named(_) => Ok(()),
        TermKind::At(Label::Here, a) => add_term(a, to),
        TermKind::At(Label::Pre, a) => keep(None, a, to),
        TermKind::At(Label::Marked(l), a) => keep(Some(*l), a, to),
        TermKind::Unary(_, a) | TermKind::Cast(_, a) | TermKind::Told(_, a) => add_term(a, to),
        TermKind::Deref(a) | TermKind::Member(_, a) | TermKind::Address(a) => add_term(a, to),
        TermKind::Binary(_, a, b) | TermKind::Difference(_, a, b) | TermKind::Moved(_, _, a, b) => {
            add_term(a, to)?;
            add_term(b, to)
        }
        TermKind::Choice(c, a, b) => {
            add_pred(c, to)?;
            add_term(a, to)?;
            add_term(b, to)
        }
    }
}

// Adds those in the terms of relations.
#[cycle(entries)]
fn add_links<'a>(links: &'a Links, to: &mut Vec<Entry<'a>>) -> Result<(), AllocError>
    ensures { OnOk result (plain_entries to.new.items ≡ plain_entries to.old.items ++ in_links (plain_links links.now)) }
{
    match links {
        Links::End => Ok(()),
        Links::Link(_, _, t, rest) => {
            add_term(t, to)?;
            add_links(rest, to)
        }
    }
}

#[cycle(entries)]
fn add_zone<'a>(z: &'a Zone, to: &mut Vec<Entry<'a>>) -> Result<(), AllocError>
    ensures { OnOk result (plain_entries to.new.items ≡ plain_entries to.old.items
        ++ in_zone (plain_zone_kind z.now.place z.now.size z.now.align z.now.kind.value)) }
{
    match &*z.kind {
        ZoneKind::Object(a) => add_term(a, to),
        ZoneKind::Elements(a, low, high) => {
            add_term(a, to)?;
            add_term(low, to)?;
            add_term(high, to)
        }
    }
}

#[cycle(entries)]
fn add_zones<'a>(zones: &'a Zones, to: &mut Vec<Entry<'a>>) -> Result<(), AllocError>
    ensures { OnOk result (plain_entries to.new.items ≡ plain_entries to.old.items ++ in_zones (plain_zones zones.now)) }
{
    match zones {
        Zones::End => Ok(()),
        Zones::More(z, rest) => {
            add_zone(z, to)?;
            add_zones(rest, to)
        }
    }
}

// Adds those in a predicate.
#[cycle(entries)]
fn add_pred<'a>(p: &'a Pred, to: &mut Vec<Entry<'a>>) -> Result<(), AllocError>
    ensures { OnOk result (plain_entries to.new.items ≡ plain_entries to.old.items ++ in_predicate (plain_pred p.now)) }
{
    match &*p.kind {
        PredKind::Truth(_) => Ok(()),
        PredKind::NonZero(t) => add_term(t, to),
        PredKind::Chain(t, links) => {
            add_term(t, to)?;
            add_links(links, to)
        }
        PredKind::Not(q) => add_pred(q, to),
        PredKind::Connected(_, a, b) => {
            add_pred(a, to)?;
            add_pred(b, to)
        }
        PredKind::Choice(c, a, b) => {
            add_pred(c, to)?;
            add_pred(a, to)?;
            add_pred(b, to)
        }
        PredKind::Quantified(_, guards, q) => {
            add_guards(guards, to)?;
            add_pred(q, to)
        }
        PredKind::Asks(_, z) => add_zone(z, to),
        PredKind::Separated(zones) => add_zones(zones, to),
    }
}

// Adds those in the bounds of chains.
#[cycle(entries)]
fn add_guards<'a>(guards: &'a Guards, to: &mut Vec<Entry<'a>>) -> Result<(), AllocError>
    ensures { OnOk result (plain_entries to.new.items ≡ plain_entries to.old.items ++ in_guards (plain_guards guards.now)) }
{
    match guards {
        Guards::End => Ok(()),
        Guards::More(guard, rest) => {
            add_term(&guard.lower, to)?;
            add_term(&guard.upper, to)?;
            add_guards(rest, to)
        }
    }
}

// Adds those in a clause.
fn add_clause<'a>(body: &'a Body, to: &mut Vec<Entry<'a>>) -> Result<(), AllocError>
    ensures { OnOk result (plain_entries to.new.items ≡ plain_entries to.old.items ++ in_clause (plain_body body.now)) }
{
    match body {
        Body::Truth(p) => add_pred(p, to),
        Body::Value(t) => add_term(t, to),
        Body::Raw(_) | Body::Names(_) => Ok(()),
    }
}

/// Adds those in annotations.
pub fn add_annotations<'a>(annots: &'a [Annot], to: &mut Vec<Entry<'a>>) -> Result<(), AllocError>
    ensures { OnOk result (plain_entries to.new.items ≡ plain_entries to.old.items ++ in_annotations (map plain_annot annots.now)) }
{
    for annot in annots {
        add_clause(&annot.body, to)?;
    }
    Ok(())
}
