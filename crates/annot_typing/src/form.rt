//! Forms of annotations (ACSL 2.2, 2.3, 2.4.3, 2.7): what each is, a term, a predicate, or a place. What stands under a label is typed with what
//! is in sight there, and the sight is as before after it.

ghost use Rattle.std.specs.Prelude.{◌≡◌, None};
ghost use Rattle.c_syntax.specs.Formulas.{Arrow, Asks, Binary, Cast, Chain, Choice, Connected, Dot, Index, OfC, Separated, Told, Unary};
ghost use Rattle.c_syntax.specs.Formulas.{plain_form, plain_form_kind, plain_form_links, plain_form_zone, plain_form_zones};
ghost use Rattle.c_syntax.specs.Ctypes.{plain_type};
ghost use Rattle.c_syntax.specs.Logic.{plain_links, plain_zones};
ghost use Rattle.c_syntax.specs.declared.logic.MemoryQuestion.TheVariants.{ValidRead};
ghost use Rattle.c_model.specs.Checked.{one_part, pair_of};
ghost use Rattle.c_model.specs.PredicateTyping.{is_refused, labelled, right_side, side_of, typed_form};
ghost use Rattle.c_model.specs.PredicateTyping.{typed_links, typed_zone, typed_zones, value_in, where_seen};
ghost use Rattle.c_scopes.specs.Answers.{Answers};
ghost use Rattle.c_scopes.specs.Sights.{plain_sight};
ghost use Rattle.annot_typing.specs.Relations.{plain_chain, plain_link, plain_side};
ghost use Rattle.annot_typing.specs.Forms.{FormTyped};
ghost use Rattle.annot_typing.specs.Sights.{form_sight, plain_view};
ghost use Rattle.annot_typing.specs.Sorts.{plain_sorted, plain_three, plain_two};
ghost use Rattle.annot_typing.specs.Zones.{plain_zone, plain_zone_and_rest};

use crate::cast::{cast, cast_integer, type_size};
use crate::chain::{Side, linked, related, right_side, side_of};
use crate::choice::{chosen, connected};
use crate::clause_sight::{FormSight, View};
use crate::demand::as_value;
use crate::joined::joined;
use crate::label::{at_label, has_old, is_past, label_named, result_in, view_at};
use crate::name::{null, term_named};
use crate::operator::{binary_on, unary_on};
use crate::past::is_refused;
use crate::places::{arrow, dot};
use crate::pointer::index;
use crate::quantified::type_quantified;
use crate::sorted::{Sorted, integer, predicate};
use crate::zone::{another, elements_zone, object_zone, told};
use c_expression_rules::expression::type_written;
use c_expression_rules::types::within_limits;
use c_scopes::fault::{TypeFault, both, no_label};
use c_scopes::sight::{Sight, hide_newer, show_newer};
use c_syntax::copy::copy_type;
use c_syntax::logic::{
    BlockFact, Connective, Formula, FormulaKind, FormulaLinks, FormulaZone, FormulaZones, Label,
    Links, LogicType, MemoryQuestion, PredKind, Term, TermKind, Zone, Zones,
};
use c_syntax::{BinOp, CType, Place, UnOp};
use std::alloc::Global;

/// What a form is, or its first fault.
#[cycle(form)]
pub fn type_form(
    alloc: Global,
    sight: &mut Sight,
    clause: FormSight<'_>,
    f: &Formula,
) -> Result<Sorted, TypeFault>
    ensures typed { FormTyped (plain_sight sight.old) clause.entry (plain_form f.now) result }
    ensures same { sight.new ≡ sight.old }
{
    type_kind(alloc, sight, clause, f.place, &f.kind)
}

/// What a form is as a value.
#[cycle(form)]
pub fn type_value(
    alloc: Global,
    sight: &mut Sight,
    clause: FormSight<'_>,
    f: &Formula,
) -> Result<Sorted, TypeFault>
    ensures typed { Answers plain_sorted (value_in (typed_form (form_sight (plain_sight sight.old) clause.entry) (plain_form f.now))) result }
    ensures same { sight.new ≡ sight.old }
{
    let a = type_form(alloc, sight, clause, f)?;
    as_value(a)
}

#[cycle(form)]
fn type_kind(
    alloc: Global,
    sight: &mut Sight,
    clause: FormSight<'_>,
    place: Place,
    kind: &FormulaKind,
) -> Result<Sorted, TypeFault>
    ensures typed { FormTyped (plain_sight sight.old) clause.entry (plain_form_kind place kind.now) result }
    ensures same { sight.new ≡ sight.old }
{
    match kind {
        FormulaKind::Number(n) => integer(alloc, place, TermKind::Number(*n)),
        FormulaKind::Letter(n) => integer(alloc, place, TermKind::Letter(*n)),
        FormulaKind::Truth(b) => predicate(alloc, place, PredKind::Truth(*b)),
        FormulaKind::Name(x) => term_named(alloc, sight, clause, place, x.name),
        FormulaKind::SizeOf(u) => type_size(alloc, sight, place, u),
        FormulaKind::Null => null(alloc, place),
        FormulaKind::Unary(op, a) => type_unary(alloc, sight, clause, place, *op, a),
        FormulaKind::Binary(op, a, b) => type_binary(alloc, sight, clause, place, *op, a, b),
        FormulaKind::Connected(connective, a, b) => {
            type_connected(alloc, sight, clause, place, *connective, a, b)
        }
        FormulaKind::Choice(c, a, b) => type_choice(alloc, sight, clause, place, c, a, b),
        FormulaKind::Chain(a, links) => type_chain(alloc, sight, clause, place, a, links),
        FormulaKind::Cast(LogicType::Integer, a) => {
            let a = type_value(alloc, sight, clause, a)?;
            cast_integer(alloc, place, LogicType::Integer, a)
        }
        FormulaKind::Cast(LogicType::Of(to), a) => type_cast(alloc, sight, clause, place, to, a),
        FormulaKind::Index(a, b) => type_index(alloc, sight, clause, place, a, b),
        FormulaKind::Dot(a, m) => type_dot(alloc, sight, clause, place, a, *m),
        FormulaKind::Arrow(a, m) => type_arrow(alloc, sight, clause, place, a, *m),
        FormulaKind::Told(fact, a) => type_told(alloc, sight, clause, place, *fact, a),
        FormulaKind::Asks(question, z) => type_asked(alloc, sight, clause, place, *question, z),
        FormulaKind::Separated(zones) => type_separated(alloc, sight, clause, place, zones),
        FormulaKind::Result => result_in(alloc, clause.clause, place),
        FormulaKind::Old(a) => {
            if has_old(clause.clause) {
                type_labelled(alloc, sight, clause, place, place, Some(Label::Pre), a)
            } else {
                Err(no_label(place))
            }
        }
        FormulaKind::At(a, at, name) => {
            let label = label_named(sight, clause.clause, *name);
            type_labelled(alloc, sight, clause, place, *at, label, a)
        }
        FormulaKind::Quantified(quantifier, to, names, a) => {
            type_quantified(alloc, sight, clause, place, *quantifier, to, names, a)
        }
    }
}

#[cycle(form)]
fn type_unary(
    alloc: Global,
    sight: &mut Sight,
    clause: FormSight<'_>,
    place: Place,
    op: UnOp,
    a: &Formula,
) -> Result<Sorted, TypeFault>
    ensures typed { FormTyped (plain_sight sight.old) clause.entry (Unary place op (plain_form a.now)) result }
    ensures same { sight.new ≡ sight.old }
{
    let a = type_form(alloc, sight, clause, a)?;
    unary_on(alloc, place, op, a)
}

#[cycle(form)]
fn type_binary(
    alloc: Global,
    sight: &mut Sight,
    clause: FormSight<'_>,
    place: Place,
    op: BinOp,
    a: &Formula,
    b: &Formula,
) -> Result<Sorted, TypeFault>
    ensures typed { FormTyped (plain_sight sight.old) clause.entry (Binary place op (plain_form a.now) (plain_form b.now)) result }
    ensures same { sight.new ≡ sight.old }
{
    let (a, b) = type_two(alloc, sight, clause, a, b)?;
    binary_on(alloc, sight, place, op, a, b)
}

#[cycle(form)]
fn type_connected(
    alloc: Global,
    sight: &mut Sight,
    clause: FormSight<'_>,
    place: Place,
    connective: Connective,
    a: &Formula,
    b: &Formula,
) -> Result<Sorted, TypeFault>
    ensures typed { FormTyped (plain_sight sight.old) clause.entry (Connected place connective (plain_form a.now) (plain_form b.now)) result }
    ensures same { sight.new ≡ sight.old }
{
    let (a, b) = type_two(alloc, sight, clause, a, b)?;
    connected(alloc, place, connective, a, b)
}

#[cycle(form)]
fn type_choice(
    alloc: Global,
    sight: &mut Sight,
    clause: FormSight<'_>,
    place: Place,
    c: &Formula,
    a: &Formula,
    b: &Formula,
) -> Result<Sorted, TypeFault>
    ensures typed { FormTyped (plain_sight sight.old) clause.entry (Choice place (plain_form c.now) (plain_form a.now) (plain_form b.now)) result }
    ensures same { sight.new ≡ sight.old }
{
    let (c, (a, b)) = type_three(alloc, sight, clause, c, a, b)?;
    chosen(alloc, place, c, a, b)
}

#[cycle(form)]
fn type_chain(
    alloc: Global,
    sight: &mut Sight,
    clause: FormSight<'_>,
    place: Place,
    a: &Formula,
    links: &FormulaLinks,
) -> Result<Sorted, TypeFault>
    ensures typed { FormTyped (plain_sight sight.old) clause.entry (Chain place (plain_form a.now) (plain_form_links links.now)) result }
    ensures same { sight.new ≡ sight.old }
{
    let (a, links) = type_sides(alloc, sight, clause, a, links)?;
    related(alloc, place, a, links)
}

#[cycle(form)]
fn type_index(
    alloc: Global,
    sight: &mut Sight,
    clause: FormSight<'_>,
    place: Place,
    a: &Formula,
    b: &Formula,
) -> Result<Sorted, TypeFault>
    ensures typed { FormTyped (plain_sight sight.old) clause.entry (Index place (plain_form a.now) (plain_form b.now)) result }
    ensures same { sight.new ≡ sight.old }
{
    let (a, b) = type_two(alloc, sight, clause, a, b)?;
    index(alloc, sight, place, a, b)
}

#[cycle(form)]
fn type_dot(
    alloc: Global,
    sight: &mut Sight,
    clause: FormSight<'_>,
    place: Place,
    a: &Formula,
    name: u32,
) -> Result<Sorted, TypeFault>
    ensures typed { FormTyped (plain_sight sight.old) clause.entry (Dot place (plain_form a.now) name) result }
    ensures same { sight.new ≡ sight.old }
{
    let a = type_form(alloc, sight, clause, a)?;
    dot(alloc, sight, place, name, a)
}

#[cycle(form)]
fn type_arrow(
    alloc: Global,
    sight: &mut Sight,
    clause: FormSight<'_>,
    place: Place,
    a: &Formula,
    name: u32,
) -> Result<Sorted, TypeFault>
    ensures typed { FormTyped (plain_sight sight.old) clause.entry (Arrow place (plain_form a.now) name) result }
    ensures same { sight.new ≡ sight.old }
{
    let a = type_value(alloc, sight, clause, a)?;
    arrow(alloc, sight, place, name, a)
}

#[cycle(form)]
fn type_told(
    alloc: Global,
    sight: &mut Sight,
    clause: FormSight<'_>,
    place: Place,
    fact: BlockFact,
    a: &Formula,
) -> Result<Sorted, TypeFault>
    ensures typed { FormTyped (plain_sight sight.old) clause.entry (Told place fact (plain_form a.now)) result }
    ensures same { sight.new ≡ sight.old }
{
    let a = type_value(alloc, sight, clause, a)?;
    told(alloc, place, fact, a)
}

#[cycle(form)]
fn type_asked(
    alloc: Global,
    sight: &mut Sight,
    clause: FormSight<'_>,
    place: Place,
    question: MemoryQuestion,
    z: &FormulaZone,
) -> Result<Sorted, TypeFault>
    ensures typed { FormTyped (plain_sight sight.old) clause.entry (Asks place question (plain_form_zone z.now)) result }
    ensures same { sight.new ≡ sight.old }
{
    let z = type_zone(alloc, sight, clause, question, place, z)?;
    predicate(alloc, place, PredKind::Asks(question, z))
}

#[cycle(form)]
fn type_separated(
    alloc: Global,
    sight: &mut Sight,
    clause: FormSight<'_>,
    place: Place,
    zones: &FormulaZones,
) -> Result<Sorted, TypeFault>
    ensures typed { FormTyped (plain_sight sight.old) clause.entry (Separated place (plain_form_zones zones.now)) result }
    ensures same { sight.new ≡ sight.old }
{
    let zones = type_zones(alloc, sight, clause, place, zones)?;
    predicate(alloc, place, PredKind::Separated(zones))
}

/// Two values.
#[cycle(form)]
fn type_two(
    alloc: Global,
    sight: &mut Sight,
    clause: FormSight<'_>,
    a: &Formula,
    b: &Formula,
) -> Result<(Sorted, Sorted), TypeFault>
    ensures typed { let s = form_sight (plain_sight sight.old) clause.entry in
        Answers plain_two (pair_of (value_in (typed_form s (plain_form a.now))) (value_in (typed_form s (plain_form b.now)))) result }
    ensures same { sight.new ≡ sight.old }
{
    let first = type_value(alloc, sight, clause, a);
    let second = type_value(alloc, sight, clause, b);
    joined(first, second)
}

/// Three values.
#[cycle(form)]
fn type_three(
    alloc: Global,
    sight: &mut Sight,
    clause: FormSight<'_>,
    c: &Formula,
    a: &Formula,
    b: &Formula,
) -> Result<(Sorted, (Sorted, Sorted)), TypeFault>
    ensures typed { let s = form_sight (plain_sight sight.old) clause.entry in
        Answers plain_three (pair_of (value_in (typed_form s (plain_form c.now)))
        (pair_of (value_in (typed_form s (plain_form a.now))) (value_in (typed_form s (plain_form b.now))))) result }
    ensures same { sight.new ≡ sight.old }
{
    let first = type_value(alloc, sight, clause, c);
    let second = type_two(alloc, sight, clause, a, b);
    joined(first, second)
}

/// A cast to a type of C; a type that passes a limit is a fault besides the others (C99 6.5.4).
#[cycle(form)]
fn type_cast(
    alloc: Global,
    sight: &mut Sight,
    clause: FormSight<'_>,
    place: Place,
    to: &CType,
    a: &Formula,
) -> Result<Sorted, TypeFault>
    ensures typed { FormTyped (plain_sight sight.old) clause.entry (Cast place (OfC (plain_type to.now)) (plain_form a.now)) result }
    ensures same { sight.new ≡ sight.old }
{
    let mut u = copy_type(alloc, to)?;
    let written = type_written(alloc, sight, place, &mut u);
    let limits = within_limits(sight, place, &u);
    let operand = type_value(alloc, sight, clause, a);
    match joined(written, operand) {
        Err(f) => both(Err(f), limits),
        Ok(((), a)) => both(cast(alloc, place, u, a), limits),
    }
}

/// The sides of a chain.
#[cycle(form)]
fn type_sides(
    alloc: Global,
    sight: &mut Sight,
    clause: FormSight<'_>,
    a: &Formula,
    links: &FormulaLinks,
) -> Result<(Sorted, Links), TypeFault>
    ensures typed { let s = form_sight (plain_sight sight.old) clause.entry in let f = plain_form a.now in let v = value_in (typed_form s f) in
        Answers plain_chain (pair_of v (typed_links s (side_of f v) (plain_form_links links.now))) result }
    ensures same { sight.new ≡ sight.old }
{
    let first = type_value(alloc, sight, clause, a);
    let side = side_of(a, &first);
    let links = type_links(alloc, sight, clause, side, links);
    joined(first, links)
}

/// The relations behind a side.
#[cycle(form)]
fn type_links(
    alloc: Global,
    sight: &mut Sight,
    clause: FormSight<'_>,
    left: Side,
    links: &FormulaLinks,
) -> Result<Links, TypeFault>
    ensures typed { Answers plain_links
        (typed_links (form_sight (plain_sight sight.old) clause.entry) (plain_side left) (plain_form_links links.now)) result }
    ensures same { sight.new ≡ sight.old }
{
    match links {
        FormulaLinks::End => Ok(Links::End),
        FormulaLinks::Link(place, relation, b, rest) => {
            let (b, rest) = type_link(alloc, sight, clause, left, *place, b, rest)?;
            linked(alloc, *place, *relation, b, rest)
        }
    }
}

/// The right side of a relation, and the relations behind it.
#[cycle(form)]
fn type_link(
    alloc: Global,
    sight: &mut Sight,
    clause: FormSight<'_>,
    left: Side,
    place: Place,
    b: &Formula,
    rest: &FormulaLinks,
) -> Result<(Term, Links), TypeFault>
    ensures typed { let s = form_sight (plain_sight sight.old) clause.entry in let f = plain_form b.now in let v = value_in (typed_form s f) in
        Answers plain_link (pair_of (one_part v (right_side place (plain_side left) (side_of f v)))
        (typed_links s (side_of f v) (plain_form_links rest.now))) result }
    ensures same { sight.new ≡ sight.old }
{
    let right = type_value(alloc, sight, clause, b);
    let side = side_of(b, &right);
    let rest = type_links(alloc, sight, clause, side, rest);
    joined(right_side(place, left, side, right), rest)
}

/// The zone of a predicate whose word stands at this place.
#[cycle(form)]
fn type_zone(
    alloc: Global,
    sight: &mut Sight,
    clause: FormSight<'_>,
    question: MemoryQuestion,
    place: Place,
    z: &FormulaZone,
) -> Result<Zone, TypeFault>
    ensures typed { Answers plain_zone (typed_zone (form_sight (plain_sight sight.old) clause.entry) question place (plain_form_zone z.now)) result }
    ensures same { sight.new ≡ sight.old }
{
    match z {
        FormulaZone::Object(a) => {
            let a = type_value(alloc, sight, clause, a)?;
            object_zone(alloc, sight, question, place, a)
        }
        FormulaZone::Elements(plus, a, lo, hi) => {
            let (a, (lo, hi)) = type_three(alloc, sight, clause, a, lo, hi)?;
            elements_zone(alloc, sight, question, *plus, a, lo, hi)
        }
    }
}

/// The zones of a `\separated` whose word stands at this place.
#[cycle(form)]
fn type_zones(
    alloc: Global,
    sight: &mut Sight,
    clause: FormSight<'_>,
    place: Place,
    zones: &FormulaZones,
) -> Result<Zones, TypeFault>
    ensures typed { Answers plain_zones (typed_zones (form_sight (plain_sight sight.old) clause.entry) place (plain_form_zones zones.now)) result }
    ensures same { sight.new ≡ sight.old }
{
    match zones {
        FormulaZones::End => Ok(Zones::End),
        FormulaZones::More(z, rest) => {
            let (z, rest) = type_first_zone(alloc, sight, clause, place, z, rest)?;
            another(alloc, z, rest)
        }
    }
}

/// A zone of a `\separated`, which is asked as `\valid_read` is, and those behind it.
#[cycle(form)]
fn type_first_zone(
    alloc: Global,
    sight: &mut Sight,
    clause: FormSight<'_>,
    place: Place,
    z: &FormulaZone,
    rest: &FormulaZones,
) -> Result<(Zone, Zones), TypeFault>
    ensures typed { let s = form_sight (plain_sight sight.old) clause.entry in
        Answers plain_zone_and_rest
        (pair_of (typed_zone s ValidRead place (plain_form_zone z.now)) (typed_zones s place (plain_form_zones rest.now))) result }
    ensures same { sight.new ≡ sight.old }
{
    let first = type_zone(alloc, sight, clause, MemoryQuestion::ValidRead, place, z);
    let rest = type_zones(alloc, sight, clause, place, rest);
    joined(first, rest)
}

/// A form at a label whose name stands at the second place: one with `\old` or `\at` in it is refused before its names are looked at.
#[cycle(form)]
fn type_labelled(
    alloc: Global,
    sight: &mut Sight,
    clause: FormSight<'_>,
    place: Place,
    at: Place,
    label: Option<Label>,
    a: &Formula,
) -> Result<Sorted, TypeFault>
    ensures typed { let f = plain_form a.now in
        Answers plain_sorted
        (labelled (form_sight (plain_sight sight.old) clause.entry) place at label (is_refused (form_sight (plain_sight sight.old) clause.entry) f)
        (λ u. typed_form u f)) result }
    ensures same { sight.new ≡ sight.old }
{
    match label {
        None => type_unlabelled(alloc, sight, clause, place, at, a),
        Some(label) => {
            if is_refused(clause, is_past(label), a) {
                Err(no_label(place))
            } else {
                type_seen(alloc, sight, clause, place, label, a)
            }
        }
    }
}

/// A form at an unknown label, whose name stands at the second place.
#[cycle(form)]
fn type_unlabelled(
    alloc: Global,
    sight: &mut Sight,
    clause: FormSight<'_>,
    place: Place,
    at: Place,
    a: &Formula,
) -> Result<Sorted, TypeFault>
    ensures typed { let f = plain_form a.now in
        Answers plain_sorted (labelled (form_sight (plain_sight sight.old) clause.entry) place at None
        (is_refused (form_sight (plain_sight sight.old) clause.entry) f) (λ u. typed_form u f)) result }
    ensures same { sight.new ≡ sight.old }
{
    if is_refused(clause, true, a) {
        return Err(no_label(place));
    }
    type_value(alloc, sight, clause, a)?;
    Err(no_label(at))
}

/// A form at a label, by what is in sight there.
#[cycle(form)]
fn type_seen(
    alloc: Global,
    sight: &mut Sight,
    clause: FormSight<'_>,
    place: Place,
    label: Label,
    a: &Formula,
) -> Result<Sorted, TypeFault>
    ensures typed { let f = plain_form a.now in
        Answers plain_sorted (where_seen (form_sight (plain_sight sight.old) clause.entry) label place (λ u. typed_form u f)) result }
    ensures same { sight.new ≡ sight.old }
{
    match view_at(sight, clause, label) {
        None => Err(no_label(place)),
        Some(view) => {
            let a = type_in_view(alloc, sight, view, a)?;
            at_label(alloc, place, label, a)
        }
    }
}

/// What a form is as a value, where this is in sight.
#[cycle(form)]
fn type_in_view(
    alloc: Global,
    sight: &mut Sight,
    view: View<'_>,
    a: &Formula,
) -> Result<Sorted, TypeFault>
    ensures typed { Answers plain_sorted (value_in (typed_form (plain_view (plain_sight sight.old) view.entry) (plain_form a.now))) result }
    ensures same { sight.new ≡ sight.old }
{
    let around = hide_newer(sight, view.mark);
    let a = type_value(alloc, sight, view.clause, a);
    show_newer(sight, around);
    a
}
