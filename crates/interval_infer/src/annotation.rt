//! Ranges over whole trees, where `\result` may be in sight, with the range of its type, and binders of quantifiers, with theirs. Faults of all parts
//! are met before one is chosen: the first of them in the text.

ghost use Rattle.std.specs.Prelude.{◌≡◌, ℕ, true, IfErr, IfOk, IfSome, OnOk, [], map, option_map};
ghost use Rattle.c_syntax.specs.declared.place.Place.{Place};
ghost use Rattle.c_syntax.specs.declared.annotation.Range.{Range};
ghost use Rattle.c_syntax.specs.Ctypes.{plain_type};
ghost use Rattle.c_syntax.specs.Logic.{plain_annot, plain_body, plain_guards, plain_links, plain_pred, plain_pred_kind, plain_term, plain_term_kind};
ghost use Rattle.c_syntax.specs.Logic.{plain_zone_kind, plain_zones};
ghost use Rattle.c_model.specs.Checked.{pair_of};
ghost use Rattle.c_model.specs.Ranges.{IsRange};
ghost use Rattle.c_model.specs.TermRanges.{address_range, ranged_annotations, ranged_clause, ranged_links, ranged_pred, ranged_term, ranged_zone, ranged_zones};
ghost use Rattle.c_scopes.specs.Answers.{Answers, IsRefusal};
ghost use Rattle.interval_infer.specs.Answers.{plain_zone};
ghost use Rattle.interval_infer.specs.Seen.{AreBounded, GuardsAnswer, are_guarded, is_guarded, plain_result, plain_seen, seen_guard, seen_guards};

use crate::binder::is_bounded;
use crate::form::{binary_range, cast_range, hull, no_range, or_no_range, unary_range};
use crate::pointer::{
    address_range, distance_range, exactly, has_extent, held_range, member_range, moved_range,
    place_range, start_range, told_range,
};
use crate::seen::{Seen, named_range, returned};
use c_scopes::fault::{TypeFault, both};
use c_syntax::logic::{
    Annot, Body, Guard, Guards, Links, Pred, PredKind, Term, TermKind, Zone, ZoneKind, Zones,
};
use c_syntax::{CType, Place, Range};

/// Sets the ranges of a term and of all terms in it.
#[cycle(ranges)]
fn range_term(seen: &Seen<'_>, t: &mut Term) -> Result<(), TypeFault>
    requires bounded { AreBounded seen.now }
    ensures ranged { Answers (λ _. plain_term t.new) (ranged_term (plain_seen seen.now) (plain_term t.old)) result }
    ensures sure { IfErr result IsRefusal }
    ensures ordered { OnOk result (IsRange t.new.range) }
{
    t.range = range_kind(seen, t.place, &t.ctype, &mut t.kind)?;
    Ok(())
}

// The range of a term of this form, after those of the terms in it are set.
#[cycle(ranges)]
fn range_kind(
    seen: &Seen<'_>,
    at: Place,
    ctype: &Option<CType>,
    kind: &mut TermKind,
) -> Result<Range, TypeFault>
    requires bounded { AreBounded seen.now }
    ensures ranged { (r : Range) → let t = option_map plain_type ctype.now in
        Answers (plain_term_kind at kind.new t) (ranged_term (plain_seen seen.now) (plain_term_kind at kind.old t r)) result }
    ensures sure { IfErr result IsRefusal }
{
    match kind {
        TermKind::Number(n) => Ok(exactly(*n)),
        TermKind::Letter(n) => Ok(exactly(i128::from(*n))),
        TermKind::Variable(_) => or_no_range(place_range(ctype), at),
        TermKind::Unary(op, a) => or_no_range(unary_range(*op, range_one(seen, a)?), at),
        TermKind::Binary(op, a, b) => {
            let (first, second) = range_two(seen, a, b)?;
            or_no_range(binary_range(*op, first, second), at)
        }
        TermKind::Cast(to, a) => or_no_range(cast_range(to, range_one(seen, a)?), at),
        TermKind::Choice(c, a, b) => {
            let condition = range_pred(seen, c);
            let first = range_term(seen, a);
            let second = range_term(seen, b);
            let branches = both(first, second);
            both(condition, branches)?;
            Ok(hull(a.range, b.range))
        }
        TermKind::Null => Ok(start_range()),
        TermKind::Deref(a) => or_no_range(held_range(ctype, Some(range_one(seen, a)?)), at),
        TermKind::Member(offset, a) => {
            let address = member_range(*offset, range_place(seen, a)?);
            or_no_range(held_range(ctype, address), at)
        }
        TermKind::Address(a) => or_no_range(range_place(seen, a)?, at),
        TermKind::Moved(op, size, a, b) => {
            let (pointer, count) = range_two(seen, a, b)?;
            or_no_range(moved_range(*op, *size, pointer, count), at)
        }
        TermKind::Difference(_, a, b) => {
            range_two(seen, a, b)?;
            Ok(distance_range())
        }
        TermKind::Told(fact, a) => {
            range_term(seen, a)?;
            Ok(told_range(*fact))
        }
        TermKind::Named(name) => or_no_range(named_range(seen, name.decl), at),
        TermKind::At(_, a) => range_one(seen, a),
    }
}

/// Sets the ranges of a term and of all terms in it, and gives its own.
#[cycle(ranges)]
fn range_one(seen: &Seen<'_>, t: &mut Term) -> Result<Range, TypeFault>
    requires bounded { AreBounded seen.now }
    ensures ranged { Answers (λ _. plain_term t.new) (ranged_term (plain_seen seen.now) (plain_term t.old)) result }
    ensures sure { IfErr result IsRefusal }
    ensures value { IfOk result (λ r. r ≡ t.new.range) }
    ensures ordered { IfOk result IsRange }
{
    range_term(seen, t)?;
    Ok(t.range)
}

/// Sets the ranges of a place and of all terms in it, and gives that of its address. A term that is no place has none.
#[cycle(ranges)]
fn range_place(seen: &Seen<'_>, t: &mut Term) -> Result<Option<Range>, TypeFault>
    requires bounded { AreBounded seen.now }
    ensures ranged { Answers (λ _. plain_term t.new) (ranged_term (plain_seen seen.now) (plain_term t.old)) result }
    ensures sure { IfErr result IsRefusal }
    ensures address { IfOk result (λ o. o ≡ address_range (plain_term t.new)) }
    ensures ordered { IfOk result (λ o. IfSome o IsRange) }
{
    range_term(seen, t)?;
    Ok(address_range(seen, t))
}

/// Sets the ranges of two terms and of all terms in them, and gives their own.
#[cycle(ranges)]
fn range_two(seen: &Seen<'_>, a: &mut Term, b: &mut Term) -> Result<(Range, Range), TypeFault>
    requires bounded { AreBounded seen.now }
    ensures ranged { Answers (λ _. (plain_term a.new, plain_term b.new))
        (pair_of (ranged_term (plain_seen seen.now) (plain_term a.old)) (ranged_term (plain_seen seen.now) (plain_term b.old))) result }
    ensures sure { IfErr result IsRefusal }
    ensures left { IfOk result (λ r. r.0 ≡ a.new.range) }
    ensures right { IfOk result (λ r. r.1 ≡ b.new.range) }
    ensures ordered { IfOk result (λ r. IsRange r.0 × IsRange r.1) }
{
    let first = range_term(seen, a);
    let second = range_term(seen, b);
    both(first, second)?;
    Ok((a.range, b.range))
}

/// Sets the ranges of the terms in a zone.
#[cycle(ranges)]
fn range_zone(seen: &Seen<'_>, z: &mut Zone) -> Result<(), TypeFault>
    requires bounded { AreBounded seen.now }
    ensures ranged { Answers (λ _. plain_zone z.new) (ranged_zone (plain_seen seen.now) (plain_zone z.old)) result }
    ensures sure { IfErr result IsRefusal }
{
    range_zone_kind(seen, z.place, z.size, &mut z.kind)
}

// Those of a zone of this form, whose elements have a size in bytes.
#[cycle(ranges)]
fn range_zone_kind(
    seen: &Seen<'_>,
    at: Place,
    size: u32,
    kind: &mut ZoneKind,
) -> Result<(), TypeFault>
    requires bounded { AreBounded seen.now }
    ensures ranged { (align : ℕ) → Answers (λ _. plain_zone_kind at size align kind.new)
        (ranged_zone (plain_seen seen.now) (plain_zone_kind at size align kind.old)) result }
    ensures sure { IfErr result IsRefusal }
{
    match kind {
        ZoneKind::Object(a) => range_term(seen, a),
        ZoneKind::Elements(a, lo, hi) => {
            let pointer = range_term(seen, a);
            let first = range_term(seen, lo);
            let second = range_term(seen, hi);
            let bounds = both(first, second);
            both(pointer, bounds)?;
            if has_extent(size, a.range, lo.range, hi.range) {
                Ok(())
            } else {
                Err(no_range(at))
            }
        }
    }
}

/// Sets the ranges of the terms in zones.
#[cycle(ranges)]
fn range_zones(seen: &Seen<'_>, zones: &mut Zones) -> Result<(), TypeFault>
    requires bounded { AreBounded seen.now }
    ensures ranged { Answers (λ _. plain_zones zones.new) (ranged_zones (plain_seen seen.now) (plain_zones zones.old)) result }
    ensures sure { IfErr result IsRefusal }
{
    match zones {
        Zones::End => Ok(()),
        Zones::More(z, rest) => {
            let first = range_zone(seen, z);
            let others = range_zones(seen, rest);
            both(first, others)
        }
    }
}

// Sets the ranges of the relations of a chain.
#[cycle(ranges)]
fn range_links(seen: &Seen<'_>, links: &mut Links) -> Result<(), TypeFault>
    requires bounded { AreBounded seen.now }
    ensures ranged { Answers (λ _. plain_links links.new) (ranged_links (plain_seen seen.now) (plain_links links.old)) result }
    ensures sure { IfErr result IsRefusal }
{
    match links {
        Links::End => Ok(()),
        Links::Link(_, _, t, rest) => {
            let first = range_term(seen, t);
            let others = range_links(seen, rest);
            both(first, others)
        }
    }
}

/// Sets the ranges of the terms in a predicate.
#[cycle(ranges)]
fn range_pred(seen: &Seen<'_>, p: &mut Pred) -> Result<(), TypeFault>
    requires bounded { AreBounded seen.now }
    ensures ranged { Answers (λ _. plain_pred p.new) (ranged_pred (plain_seen seen.now) (plain_pred p.old)) result }
    ensures sure { IfErr result IsRefusal }
{
    range_pred_kind(seen, p.place, &mut p.kind)
}

#[cycle(ranges)]
fn range_pred_kind(seen: &Seen<'_>, at: Place, kind: &mut PredKind) -> Result<(), TypeFault>
    requires bounded { AreBounded seen.now }
    ensures ranged { Answers (λ _. plain_pred_kind at kind.new) (ranged_pred (plain_seen seen.now) (plain_pred_kind at kind.old)) result }
    ensures sure { IfErr result IsRefusal }
{
    match kind {
        PredKind::Truth(_) => Ok(()),
        PredKind::NonZero(t) => range_term(seen, t),
        PredKind::Chain(t, links) => {
            let first = range_term(seen, t);
            let others = range_links(seen, links);
            both(first, others)
        }
        PredKind::Not(p) => range_pred(seen, p),
        PredKind::Connected(_, p, q) => {
            let first = range_pred(seen, p);
            let second = range_pred(seen, q);
            both(first, second)
        }
        PredKind::Choice(c, p, q) => {
            let condition = range_pred(seen, c);
            let first = range_pred(seen, p);
            let second = range_pred(seen, q);
            let branches = both(first, second);
            both(condition, branches)
        }
        PredKind::Quantified(_, guards, p) => {
            range_guards(seen, at, guards)?;
            range_within(seen, guards, p)
        }
        PredKind::Asks(_, z) => range_zone(seen, z),
        PredKind::Separated(zones) => range_zones(seen, zones),
    }
}

// Sets the ranges of what stands within chains, whose bounds have theirs.
#[cycle(ranges)]
fn range_within(seen: &Seen<'_>, guards: &Guards, p: &mut Pred) -> Result<(), TypeFault>
    requires bounded { AreBounded seen.now }
    requires inside { are_guarded (plain_guards guards.now) ≡ true }
    ensures ranged { Answers (λ _. plain_pred p.new) (ranged_pred (seen_guards (plain_guards guards.now) (plain_seen seen.now)) (plain_pred p.old)) result }
    ensures sure { IfErr result IsRefusal }
{
    range_pred(&Seen::Within(&*guards, &*seen), p)
}

// Sets the ranges of the bounds of the chains after one, whose bounds have theirs.
#[cycle(ranges)]
fn range_rest(seen: &Seen<'_>, guard: &Guard, at: Place, rest: &mut Guards) -> Result<(), TypeFault>
    requires bounded { AreBounded seen.now }
    requires inside { is_guarded guard.now ≡ true }
    ensures ranged { GuardsAnswer (seen_guard guard.now (plain_seen seen.now)) at (plain_guards rest.old) (plain_guards rest.new) result }
    ensures sure { IfErr result IsRefusal }
    ensures bounded { OnOk result (are_guarded (plain_guards rest.new) ≡ true) }
{
    range_guards(&Seen::Behind(&*guard, &*seen), at, rest)
}

// Sets the ranges of the bounds of chains, each where the binders of those before it are in sight.
#[cycle(ranges)]
fn range_guards(seen: &Seen<'_>, at: Place, guards: &mut Guards) -> Result<(), TypeFault>
    requires bounded { AreBounded seen.now }
    ensures ranged { GuardsAnswer (plain_seen seen.now) at (plain_guards guards.old) (plain_guards guards.new) result }
    ensures sure { IfErr result IsRefusal }
    ensures bounded { OnOk result (are_guarded (plain_guards guards.new) ≡ true) }
{
    match guards {
        Guards::End => Ok(()),
        Guards::More(guard, rest) => {
            range_two(seen, &mut guard.lower, &mut guard.upper)?;
            if is_bounded(guard) {
                range_rest(seen, guard, at, rest)
            } else {
                Err(no_range(at))
            }
        }
    }
}

// Sets the ranges of the terms in a clause: a predicate, or the value of a variant.
fn range_body(returns: Option<&CType>, body: &mut Body) -> Result<(), TypeFault>
    ensures ranged { Answers (λ _. plain_body body.new) (ranged_clause (plain_result returns.entry) (plain_body body.old)) result }
    ensures sure { IfErr result IsRefusal }
{
    let seen = returned(returns);
    match body {
        Body::Truth(p) => range_pred(&seen, p),
        Body::Value(t) => range_term(&seen, t),
        Body::Raw(_) | Body::Names(_) => Ok(()),
    }
}

/// Sets the ranges of the terms in annotations, where the result of a function of this type is in sight, or gives the first fault.
pub fn annotation_ranges(returns: Option<&CType>, annots: &mut Vec<Annot>) -> Result<(), TypeFault>
    ensures ranged { Answers (λ _. map plain_annot annots.new.items)
        (ranged_annotations (plain_result returns.entry) (map plain_annot annots.old.items)) result }
    ensures sure { IfErr result IsRefusal }
{
    let mut done = Ok(());
    for i in 0..annots.len() {
        let annot = &mut annots[i];
        let clause = range_body(returns, &mut annot.body);
        done = both(done, clause);
    }
    done
}

/// Sets the ranges of the terms in annotations of statements, or gives the first fault.
pub fn clause_ranges(annots: &mut Vec<Annot>) -> Result<(), TypeFault>
    ensures ranged { Answers (λ _. map plain_annot annots.new.items) (ranged_annotations [] (map plain_annot annots.old.items)) result }
    ensures sure { IfErr result IsRefusal }
{
    annotation_ranges(None, annots)
}
