//! The code of terms and predicates.

ghost use Rattle.std.specs.Prelude.{◌≡◌, [], false, IfOk, OnOk, option_map};
ghost use Rattle.c_syntax.specs.Ctypes.{plain_type};
ghost use Rattle.c_syntax.specs.Formulas.{plain_cast_type};
ghost use Rattle.c_syntax.specs.Logic.{plain_links, plain_pred, plain_term, plain_zones};
ghost use Rattle.c_effects.specs.Named.{unit_of};
ghost use Rattle.annot_simulation.specs.Code.{settled, type_of};
ghost use Rattle.annot_simulation.specs.Pointers.{member_code, pointer_there, told_pointer};
ghost use Rattle.annot_pieces.specs.Plain.{asks_of, binary_of, branch_of, cast_of, chain_by, chain_of, choice_of, code_of, connected_of, denied_of};
ghost use Rattle.annot_pieces.specs.Plain.{deref_of, difference_of, elements_form, link_of, member_of, more_links, more_zones_of, moved_of, nonzero_of};
ghost use Rattle.annot_pieces.specs.Plain.{place_by, plain_known, plain_zone, pointer_by, pointer_choice_of, pointer_of, pred_by};
ghost use Rattle.annot_pieces.specs.Plain.{separated_of, side_by_names, side_of, term_by, told_of, unary_of, zone_by, zone_of, zones_by, zones_of};

use crate::quantifier::quantified;
use annot_pieces::compare::difference_code;
use annot_pieces::join::{branched, chosen, connected, operated, settled};
use annot_pieces::leaf::{kept_number, kept_pointer, named, pointer_named, pointer_variable};
use annot_pieces::piece::Code;
use annot_pieces::pointer::{
    PointerCode, branch_pointer, member_code, moved_code, no_pointer, null_pointer, number_read,
    pointer_there, start_pointer, told_number, told_pointer,
};
use annot_pieces::reading::{
    Known, Reading, known_after, known_after_relation, known_at_right, term_type,
};
use annot_pieces::side::{Side, ended, is_pointer_term, related_again, related_code};
use annot_pieces::term::{
    cast_code, denied_code, no_code, nonzero_code, number_code, truth_code, unary_code,
    variable_code,
};
use annot_pieces::width::{range_of, type_of, type_of_range, types_of, width_of};
use annot_pieces::zone::{
    ZoneCode, ZonesCode, another_zone, elements_code, no_zones, object_code, separated_code,
    zone_asked,
};
use c_effects::object::pointer_to;
use c_syntax::logic::{
    BlockFact, Connective, Label, Links, LogicType, MemoryQuestion, PointerOp, Pred, PredKind,
    Quantifier, Term, TermKind, Zone, ZoneKind, Zones,
};
use c_syntax::{BinOp, CType, Range, Relation, UnOp};
use ea_num::width_of as width_of_range;
use mon_syntax::{MonType, Registers};
use std::alloc::{AllocError, Global};

// ---- terms

/// A number.
#[cycle(code)]
pub fn term_code(
    alloc: Global,
    t: &Term,
    known: &Known<'_>,
    names: &mut Registers<'_>,
) -> Result<Code, AllocError>
    ensures code { IfOk result (λ c. code_of c names.new.table.kinds ≡ term_by names.old (plain_term t.now) (plain_known known.now)) }
    ensures bound { OnOk result (names.new.table.bound ≡ names.old.table.bound) }
    ensures program { OnOk result (names.new.program ≡ names.old.program) }
{
    match &*t.kind {
        TermKind::Number(n) => number_code(alloc, width_of_range(t.range), *n),
        TermKind::Letter(n) => number_code(alloc, width_of_range(t.range), i128::from(*n)),
        TermKind::Variable(x) => {
            let x = Reading {
                decl: x.decl,
                kind: term_type(&t.ctype),
            };
            variable_code(alloc, known.readings, type_of_range(t.range), x, names)
        }
        TermKind::Unary(op, a) => prefixed(alloc, *op, t.range, a, known, names),
        TermKind::Binary(op, a, b) => binary(alloc, *op, t.range, (a, b), known, names),
        TermKind::Cast(to, a) => cast(alloc, to, t.range, a, known, names),
        TermKind::Choice(c, a, b) => choice(alloc, t.range, c, (a, b), known, names),
        TermKind::Deref(a) => deref(alloc, &t.ctype, t.range, a, known, names),
        TermKind::Member(d, a) => member(alloc, (&t.ctype, t.range), *d, a, known, names),
        TermKind::Difference(n, a, b) => { difference(alloc, t.range, *n, (a, b), known, names) }
        TermKind::Told(fact, a) => told(alloc, t.range, *fact, a, known, names),
        TermKind::Null | TermKind::Address(_) | TermKind::Moved(_, _, _, _) => no_code(alloc),
        TermKind::Named(x) => named(alloc, t.range, x.decl, known),
        TermKind::At(Label::Here, a) => here(alloc, a, known, names),
        TermKind::At(Label::Pre, a) => kept_number(alloc, a, known),
        TermKind::At(Label::Marked(_), a) => kept_number(alloc, a, known),
    }
}

// A number here, in a register.
#[cycle(code)]
fn here(
    alloc: Global,
    a: &Term,
    known: &Known<'_>,
    names: &mut Registers<'_>,
) -> Result<Code, AllocError>
    ensures code { IfOk result (λ c. code_of c names.new.table.kinds
        ≡ settled (type_of (plain_term a.now)) (term_by names.old (plain_term a.now) (plain_known known.now))) }
    ensures bound { OnOk result (names.new.table.bound ≡ names.old.table.bound) }
    ensures program { OnOk result (names.new.program ≡ names.old.program) }
{
    let x = term_code(alloc, a, known, names)?;
    settled(alloc, type_of(a), x, names)
}

// `+`, `-` or `~` of a term, with a result in the range.
#[cycle(code)]
fn prefixed(
    alloc: Global,
    op: UnOp,
    range: Range,
    a: &Term,
    known: &Known<'_>,
    names: &mut Registers<'_>,
) -> Result<Code, AllocError>
    ensures code { IfOk result (λ c. code_of c names.new.table.kinds ≡ term_by names.old (unary_of op range a.now) (plain_known known.now)) }
    ensures bound { OnOk result (names.new.table.bound ≡ names.old.table.bound) }
    ensures program { OnOk result (names.new.program ≡ names.old.program) }
{
    let x = term_code(alloc, a, known, names)?;
    unary_code(alloc, op, width_of_range(range), width_of(a), x)
}

// A cast of a term, with a result in the range.
#[cycle(code)]
fn cast(
    alloc: Global,
    to: &LogicType,
    range: Range,
    a: &Term,
    known: &Known<'_>,
    names: &mut Registers<'_>,
) -> Result<Code, AllocError>
    ensures code { IfOk result (λ c. code_of c names.new.table.kinds
        ≡ term_by names.old (cast_of (plain_cast_type to.now) range a.now) (plain_known known.now)) }
    ensures bound { OnOk result (names.new.table.bound ≡ names.old.table.bound) }
    ensures program { OnOk result (names.new.program ≡ names.old.program) }
{
    let x = term_code(alloc, a, known, names)?;
    cast_code(
        alloc,
        to,
        range_of(a),
        width_of_range(range),
        width_of(a),
        x,
    )
}

// An operator on two terms, with a result in the range.
#[cycle(code)]
fn binary(
    alloc: Global,
    op: BinOp,
    range: Range,
    operands: (&Term, &Term),
    known: &Known<'_>,
    names: &mut Registers<'_>,
) -> Result<Code, AllocError>
    ensures code { IfOk result (λ c. code_of c names.new.table.kinds
        ≡ term_by names.old (binary_of op range operands.entry.0.now operands.entry.1.now) (plain_known known.now)) }
    ensures bound { OnOk result (names.new.table.bound ≡ names.old.table.bound) }
    ensures program { OnOk result (names.new.program ≡ names.old.program) }
{
    let (a, b) = operands;
    let x = term_code(alloc, a, known, names)?;
    let y = term_code(alloc, b, known, names)?;
    operated(
        alloc,
        op,
        types_of(op, range, a, b),
        range_of(b),
        x,
        y,
        names,
    )
}

// `c ? a : b`, with a result in the range.
#[cycle(code)]
fn choice(
    alloc: Global,
    range: Range,
    c: &Pred,
    values: (&Term, &Term),
    known: &Known<'_>,
    names: &mut Registers<'_>,
) -> Result<Code, AllocError>
    ensures code { IfOk result (λ r. code_of r names.new.table.kinds
        ≡ term_by names.old (choice_of range c.now values.entry.0.now values.entry.1.now) (plain_known known.now)) }
    ensures bound { OnOk result (names.new.table.bound ≡ names.old.table.bound) }
    ensures program { OnOk result (names.new.program ≡ names.old.program) }
{
    let (a, b) = values;
    let z = pred_code(alloc, c, known, names)?;
    let readings = known_after(alloc, known, c)?;
    let more = Known {
        stored: known.stored,
        readings: &readings,
    };
    let x = term_code(alloc, a, &more, names)?;
    let y = term_code(alloc, b, &more, names)?;
    let types = (type_of(a), type_of(b));
    chosen(alloc, type_of_range(range), types, z, (x, y), names)
}

// A number that a pointer points to, with a result in the range.
#[cycle(code)]
fn deref(
    alloc: Global,
    t: &Option<CType>,
    range: Range,
    a: &Term,
    known: &Known<'_>,
    names: &mut Registers<'_>,
) -> Result<Code, AllocError>
    ensures code { IfOk result (λ c. code_of c names.new.table.kinds
        ≡ term_by names.old (deref_of (option_map plain_type t.now) range a.now) (plain_known known.now)) }
    ensures bound { OnOk result (names.new.table.bound ≡ names.old.table.bound) }
    ensures program { OnOk result (names.new.program ≡ names.old.program) }
{
    let c = pointer_code(alloc, a, known, names)?;
    number_read(alloc, type_of_range(range), term_type(t), c, names)
}

// A number in a member, with a type and a range.
#[cycle(code)]
fn member(
    alloc: Global,
    value: (&Option<CType>, Range),
    d: u32,
    a: &Term,
    known: &Known<'_>,
    names: &mut Registers<'_>,
) -> Result<Code, AllocError>
    ensures code { IfOk result (λ c. code_of c names.new.table.kinds
        ≡ term_by names.old (member_of (option_map plain_type value.entry.0.now) value.entry.1 d a.now) (plain_known known.now)) }
    ensures bound { OnOk result (names.new.table.bound ≡ names.old.table.bound) }
    ensures program { OnOk result (names.new.program ≡ names.old.program) }
{
    let (t, range) = value;
    let c = place_code(alloc, a, known, names)?;
    let c = member_code(alloc, d, c)?;
    number_read(alloc, type_of_range(range), term_type(t), c, names)
}

// The distance of two pointers in elements of a size, with a result in the range.
#[cycle(code)]
fn difference(
    alloc: Global,
    range: Range,
    n: u32,
    operands: (&Term, &Term),
    known: &Known<'_>,
    names: &mut Registers<'_>,
) -> Result<Code, AllocError>
    ensures code { IfOk result (λ c. code_of c names.new.table.kinds
        ≡ term_by names.old (difference_of range n operands.entry.0.now operands.entry.1.now) (plain_known known.now)) }
    ensures bound { OnOk result (names.new.table.bound ≡ names.old.table.bound) }
    ensures program { OnOk result (names.new.program ≡ names.old.program) }
{
    let (a, b) = operands;
    let c = pointer_code(alloc, a, known, names)?;
    let d = pointer_code(alloc, b, known, names)?;
    difference_code(alloc, type_of_range(range), n, c, d, names)
}

// What is told of a block as a number, with a result in the range.
#[cycle(code)]
fn told(
    alloc: Global,
    range: Range,
    fact: BlockFact,
    a: &Term,
    known: &Known<'_>,
    names: &mut Registers<'_>,
) -> Result<Code, AllocError>
    ensures code { IfOk result (λ c. code_of c names.new.table.kinds ≡ term_by names.old (told_of range fact a.now) (plain_known known.now)) }
    ensures bound { OnOk result (names.new.table.bound ≡ names.old.table.bound) }
    ensures program { OnOk result (names.new.program ≡ names.old.program) }
{
    let c = pointer_code(alloc, a, known, names)?;
    told_number(alloc, type_of_range(range), fact, c, names)
}

// ---- pointers and places

#[cycle(code)]
fn pointer_code(
    alloc: Global,
    t: &Term,
    known: &Known<'_>,
    names: &mut Registers<'_>,
) -> Result<PointerCode, AllocError>
    ensures code { IfOk result (λ c. pointer_of c names.new.table.kinds ≡ pointer_by names.old (plain_term t.now) (plain_known known.now)) }
    ensures bound { OnOk result (names.new.table.bound ≡ names.old.table.bound) }
    ensures program { OnOk result (names.new.program ≡ names.old.program) }
{
    match &*t.kind {
        TermKind::Variable(x) => pointer_variable(alloc, &t.ctype, x.decl, known, names),
        TermKind::Null => null_pointer(alloc),
        TermKind::Deref(a) => pointer_deref(alloc, &t.ctype, a, known, names),
        TermKind::Member(d, a) => pointer_member(alloc, &t.ctype, *d, a, known, names),
        TermKind::Address(a) => place_code(alloc, a, known, names),
        TermKind::Moved(op, n, a, b) => moved(alloc, *op, *n, (a, b), known, names),
        TermKind::Cast(_, a) => pointer_code(alloc, a, known, names),
        TermKind::Choice(c, a, b) => pointer_choice(alloc, c, (a, b), known, names),
        TermKind::Told(_, a) => start_told(alloc, a, known, names),
        TermKind::Number(_) | TermKind::Letter(_) | TermKind::Unary(_, _) => no_pointer(alloc),
        TermKind::Binary(_, _, _) | TermKind::Difference(_, _, _) => no_pointer(alloc),
        TermKind::Named(x) => pointer_named(alloc, x.decl, known),
        TermKind::At(Label::Here, a) => pointer_code(alloc, a, known, names),
        TermKind::At(Label::Pre, a) => kept_pointer(alloc, a, known),
        TermKind::At(Label::Marked(_), a) => kept_pointer(alloc, a, known),
    }
}

// A pointer to which a pointer points.
#[cycle(code)]
fn pointer_deref(
    alloc: Global,
    t: &Option<CType>,
    a: &Term,
    known: &Known<'_>,
    names: &mut Registers<'_>,
) -> Result<PointerCode, AllocError>
    ensures code { IfOk result (λ c. pointer_of c names.new.table.kinds
        ≡ pointer_there false (option_map plain_type t.now) (pointer_by names.old (plain_term a.now) (plain_known known.now))) }
    ensures bound { OnOk result (names.new.table.bound ≡ names.old.table.bound) }
    ensures program { OnOk result (names.new.program ≡ names.old.program) }
{
    let c = pointer_code(alloc, a, known, names)?;
    pointer_there(alloc, false, t, c, names)
}

// A pointer in a member.
#[cycle(code)]
fn pointer_member(
    alloc: Global,
    t: &Option<CType>,
    d: u32,
    a: &Term,
    known: &Known<'_>,
    names: &mut Registers<'_>,
) -> Result<PointerCode, AllocError>
    ensures code { IfOk result (λ c. pointer_of c names.new.table.kinds
        ≡ pointer_there false (option_map plain_type t.now) (member_code d (place_by names.old (plain_term a.now) (plain_known known.now)))) }
    ensures bound { OnOk result (names.new.table.bound ≡ names.old.table.bound) }
    ensures program { OnOk result (names.new.program ≡ names.old.program) }
{
    let c = place_code(alloc, a, known, names)?;
    let c = member_code(alloc, d, c)?;
    pointer_there(alloc, false, t, c, names)
}

// A pointer that goes on by elements of a size.
#[cycle(code)]
fn moved(
    alloc: Global,
    op: PointerOp,
    n: u32,
    operands: (&Term, &Term),
    known: &Known<'_>,
    names: &mut Registers<'_>,
) -> Result<PointerCode, AllocError>
    ensures code { IfOk result (λ c. pointer_of c names.new.table.kinds
        ≡ pointer_by names.old (moved_of op n operands.entry.0.now operands.entry.1.now) (plain_known known.now)) }
    ensures bound { OnOk result (names.new.table.bound ≡ names.old.table.bound) }
    ensures program { OnOk result (names.new.program ≡ names.old.program) }
{
    let (a, b) = operands;
    let c = pointer_code(alloc, a, known, names)?;
    let x = term_code(alloc, b, known, names)?;
    moved_code(alloc, op, n, c, type_of(b), x)
}

// `c ? a : b` of pointers.
#[cycle(code)]
fn pointer_choice(
    alloc: Global,
    c: &Pred,
    values: (&Term, &Term),
    known: &Known<'_>,
    names: &mut Registers<'_>,
) -> Result<PointerCode, AllocError>
    ensures code { IfOk result (λ r. pointer_of r names.new.table.kinds
        ≡ pointer_by names.old (pointer_choice_of c.now values.entry.0.now values.entry.1.now) (plain_known known.now)) }
    ensures bound { OnOk result (names.new.table.bound ≡ names.old.table.bound) }
    ensures program { OnOk result (names.new.program ≡ names.old.program) }
{
    let (a, b) = values;
    let z = pred_code(alloc, c, known, names)?;
    let readings = known_after(alloc, known, c)?;
    let more = Known {
        stored: known.stored,
        readings: &readings,
    };
    let x = pointer_code(alloc, a, &more, names)?;
    let y = pointer_code(alloc, b, &more, names)?;
    branch_pointer(alloc, z, x, y, names)
}

// The start of the block that a pointer is inside.
#[cycle(code)]
fn start_told(
    alloc: Global,
    a: &Term,
    known: &Known<'_>,
    names: &mut Registers<'_>,
) -> Result<PointerCode, AllocError>
    ensures code { IfOk result (λ c. pointer_of c names.new.table.kinds ≡ told_pointer (pointer_by names.old (plain_term a.now) (plain_known known.now))) }
    ensures bound { OnOk result (names.new.table.bound ≡ names.old.table.bound) }
    ensures program { OnOk result (names.new.program ≡ names.old.program) }
{
    let c = pointer_code(alloc, a, known, names)?;
    told_pointer(alloc, c, names)
}

// Where a place stands.
#[cycle(code)]
fn place_code(
    alloc: Global,
    t: &Term,
    known: &Known<'_>,
    names: &mut Registers<'_>,
) -> Result<PointerCode, AllocError>
    ensures code { IfOk result (λ c. pointer_of c names.new.table.kinds ≡ place_by names.old (plain_term t.now) (plain_known known.now)) }
    ensures bound { OnOk result (names.new.table.bound ≡ names.old.table.bound) }
    ensures program { OnOk result (names.new.program ≡ names.old.program) }
{
    match &*t.kind {
        TermKind::Variable(x) => {
            let base = pointer_to(alloc, names, x.decl)?;
            start_pointer(alloc, base)
        }
        TermKind::Deref(a) => pointer_code(alloc, a, known, names),
        TermKind::Member(d, a) => {
            let c = place_code(alloc, a, known, names)?;
            member_code(alloc, *d, c)
        }
        TermKind::Number(_) | TermKind::Letter(_) | TermKind::Unary(_, _) => no_pointer(alloc),
        TermKind::Binary(_, _, _) | TermKind::Cast(_, _) => no_pointer(alloc),
        TermKind::Choice(_, _, _) | TermKind::Null | TermKind::Address(_) => no_pointer(alloc),
        TermKind::Moved(_, _, _, _) | TermKind::Difference(_, _, _) => no_pointer(alloc),
        TermKind::Told(_, _) | TermKind::Named(_) | TermKind::At(_, _) => no_pointer(alloc),
    }
}

// ---- zones

#[cycle(code)]
fn zone_code(
    alloc: Global,
    z: &Zone,
    known: &Known<'_>,
    names: &mut Registers<'_>,
) -> Result<ZoneCode, AllocError>
    ensures code { IfOk result (λ c. zone_of c names.new.table.kinds ≡ zone_by names.old (plain_zone z.now) (plain_known known.now)) }
    ensures bound { OnOk result (names.new.table.bound ≡ names.old.table.bound) }
    ensures program { OnOk result (names.new.program ≡ names.old.program) }
{
    match &*z.kind {
        ZoneKind::Object(a) => {
            let c = pointer_code(alloc, a, known, names)?;
            object_code(alloc, z.size, c)
        }
        ZoneKind::Elements(a, low, high) => {
            elements(alloc, z.size, a, (low, high), known, names)
        }
    }
}

// Elements of a size from one to another.
#[cycle(code)]
fn elements(
    alloc: Global,
    n: u32,
    a: &Term,
    bounds: (&Term, &Term),
    known: &Known<'_>,
    names: &mut Registers<'_>,
) -> Result<ZoneCode, AllocError>
    ensures code { IfOk result (λ c. zone_of c names.new.table.kinds
        ≡ zone_by names.old (elements_form n a.now bounds.entry.0.now bounds.entry.1.now) (plain_known known.now)) }
    ensures bound { OnOk result (names.new.table.bound ≡ names.old.table.bound) }
    ensures program { OnOk result (names.new.program ≡ names.old.program) }
{
    let (low, high) = bounds;
    let c = pointer_code(alloc, a, known, names)?;
    let x = term_code(alloc, low, known, names)?;
    let y = term_code(alloc, high, known, names)?;
    elements_code(alloc, n, c, (type_of(low), type_of(high)), x, y)
}

#[cycle(code)]
fn zones_code(
    alloc: Global,
    zones: &Zones,
    known: &Known<'_>,
    names: &mut Registers<'_>,
) -> Result<ZonesCode, AllocError>
    ensures code { IfOk result (λ c. zones_of c names.new.table.kinds ≡ zones_by names.old (plain_zones zones.now) (plain_known known.now)) }
    ensures bound { OnOk result (names.new.table.bound ≡ names.old.table.bound) }
    ensures program { OnOk result (names.new.program ≡ names.old.program) }
{
    match zones {
        Zones::End => Ok(no_zones(alloc)),
        Zones::More(z, rest) => more_zones(alloc, z, rest, known, names),
    }
}

// A zone, and the others after it.
#[cycle(code)]
fn more_zones(
    alloc: Global,
    z: &Zone,
    rest: &Zones,
    known: &Known<'_>,
    names: &mut Registers<'_>,
) -> Result<ZonesCode, AllocError>
    ensures code { IfOk result (λ c. zones_of c names.new.table.kinds ≡ zones_by names.old (more_zones_of z.now rest.now) (plain_known known.now)) }
    ensures bound { OnOk result (names.new.table.bound ≡ names.old.table.bound) }
    ensures program { OnOk result (names.new.program ≡ names.old.program) }
{
    let c = zone_code(alloc, z, known, names)?;
    let others = zones_code(alloc, rest, known, names)?;
    another_zone(alloc, c, others)
}

// ---- chains

/// A side of a relation.
#[cycle(code)]
pub fn side_code(
    alloc: Global,
    t: &Term,
    known: &Known<'_>,
    names: &mut Registers<'_>,
) -> Result<Side, AllocError>
    ensures code { IfOk result (λ c. side_of c names.new.table.kinds ≡ side_by_names names.old (plain_term t.now) (plain_known known.now)) }
    ensures bound { OnOk result (names.new.table.bound ≡ names.old.table.bound) }
    ensures program { OnOk result (names.new.program ≡ names.old.program) }
{
    if is_pointer_term(t) {
        let c = pointer_code(alloc, t, known, names)?;
        Ok(Side::Pointer(c))
    } else {
        let c = term_code(alloc, t, known, names)?;
        Ok(Side::Number(c))
    }
}

// A chain from its first side on, whose code this is.
#[cycle(code)]
fn chain_code(
    alloc: Global,
    t: &Term,
    x: Side,
    links: &Links,
    known: &Known<'_>,
    names: &mut Registers<'_>,
) -> Result<Code, AllocError>
    ensures code { IfOk result (λ c. code_of c names.new.table.kinds
        ≡ chain_by names.old (plain_term t.now) (side_of x names.old.table.kinds) (plain_links links.now) (plain_known known.now)) }
    ensures bound { OnOk result (names.new.table.bound ≡ names.old.table.bound) }
    ensures program { OnOk result (names.new.program ≡ names.old.program) }
{
    match links {
        Links::End => ended(alloc, x),
        Links::Link(_, relation, u, rest) => {
            link(alloc, *relation, (t, u), x, rest, known, names)
        }
    }
}

// A relation, and the others of its chain.
#[cycle(code)]
fn link(
    alloc: Global,
    relation: Relation,
    sides: (&Term, &Term),
    x: Side,
    rest: &Links,
    known: &Known<'_>,
    names: &mut Registers<'_>,
) -> Result<Code, AllocError>
    ensures code { IfOk result (λ c. code_of c names.new.table.kinds ≡ chain_by names.old (plain_term sides.entry.0.now) (side_of x names.old.table.kinds)
        (link_of relation sides.entry.1.now rest.now) (plain_known known.now)) }
    ensures bound { OnOk result (names.new.table.bound ≡ names.old.table.bound) }
    ensures program { OnOk result (names.new.program ≡ names.old.program) }
{
    let (t, u) = sides;
    let y = side_code(alloc, u, known, names)?;
    match rest {
        Links::End => related_code(alloc, relation, (t, u), x, y, names),
        Links::Link(_, _, _, _) => more_links(alloc, relation, (t, u), (x, y), rest, known, names),
    }
}

// A relation whose right side is the left one of the next.
#[cycle(code)]
fn more_links(
    alloc: Global,
    relation: Relation,
    sides: (&Term, &Term),
    codes: (Side, Side),
    rest: &Links,
    known: &Known<'_>,
    names: &mut Registers<'_>,
) -> Result<Code, AllocError>
    ensures code { IfOk result (λ c. code_of c names.new.table.kinds ≡ more_links (unit_of names.old) names.old.table.bound relation
        (plain_term sides.entry.0.now) (plain_term sides.entry.1.now) (side_of codes.0 []) (side_of codes.1 names.old.table.kinds)
        (plain_links rest.now) (plain_known known.now)) }
    ensures bound { OnOk result (names.new.table.bound ≡ names.old.table.bound) }
    ensures program { OnOk result (names.new.program ≡ names.old.program) }
{
    let (t, u) = sides;
    let (x, y) = codes;
    let related = related_again(alloc, relation, (t, u), x, y, names)?;
    let (first, next) = related;
    let readings = known_after_relation(alloc, known, t, u)?;
    let more = Known {
        stored: known.stored,
        readings: &readings,
    };
    let others = chain_code(alloc, u, next, rest, &more, names)?;
    connected(alloc, Connective::And, first, others, names)
}

// ---- predicates

#[cycle(code)]
pub fn pred_code(
    alloc: Global,
    p: &Pred,
    known: &Known<'_>,
    names: &mut Registers<'_>,
) -> Result<Code, AllocError>
    ensures code { IfOk result (λ c. code_of c names.new.table.kinds ≡ pred_by names.old (plain_pred p.now) (plain_known known.now)) }
    ensures bound { OnOk result (names.new.table.bound ≡ names.old.table.bound) }
    ensures program { OnOk result (names.new.program ≡ names.old.program) }
{
    match &*p.kind {
        PredKind::Truth(b) => truth_code(alloc, *b),
        PredKind::NonZero(t) => nonzero(alloc, t, known, names),
        PredKind::Chain(t, links) => chain(alloc, t, links, known, names),
        PredKind::Not(q) => denied(alloc, q, known, names),
        PredKind::Connected(connective, a, b) => sides(alloc, *connective, (a, b), known, names),
        PredKind::Choice(c, a, b) => one_of(alloc, c, (a, b), known, names),
        PredKind::Asks(question, z) => asks(alloc, *question, z, known, names),
        PredKind::Separated(zones) => separated(alloc, zones, known, names),
        PredKind::Quantified(q, guards, inner) => {
            quantified(alloc, *q, (guards, inner), known, names)
        }
    }
}

// A term where a predicate is wanted.
#[cycle(code)]
fn nonzero(
    alloc: Global,
    t: &Term,
    known: &Known<'_>,
    names: &mut Registers<'_>,
) -> Result<Code, AllocError>
    ensures code { IfOk result (λ c. code_of c names.new.table.kinds ≡ pred_by names.old (nonzero_of t.now) (plain_known known.now)) }
    ensures bound { OnOk result (names.new.table.bound ≡ names.old.table.bound) }
    ensures program { OnOk result (names.new.program ≡ names.old.program) }
{
    let x = term_code(alloc, t, known, names)?;
    nonzero_code(alloc, type_of(t), x)
}

// A chain of relations.
#[cycle(code)]
fn chain(
    alloc: Global,
    t: &Term,
    links: &Links,
    known: &Known<'_>,
    names: &mut Registers<'_>,
) -> Result<Code, AllocError>
    ensures code { IfOk result (λ c. code_of c names.new.table.kinds ≡ pred_by names.old (chain_of t.now links.now) (plain_known known.now)) }
    ensures bound { OnOk result (names.new.table.bound ≡ names.old.table.bound) }
    ensures program { OnOk result (names.new.program ≡ names.old.program) }
{
    let x = side_code(alloc, t, known, names)?;
    chain_code(alloc, t, x, links, known, names)
}

// The opposite of a predicate.
#[cycle(code)]
fn denied(
    alloc: Global,
    q: &Pred,
    known: &Known<'_>,
    names: &mut Registers<'_>,
) -> Result<Code, AllocError>
    ensures code { IfOk result (λ c. code_of c names.new.table.kinds ≡ pred_by names.old (denied_of q.now) (plain_known known.now)) }
    ensures bound { OnOk result (names.new.table.bound ≡ names.old.table.bound) }
    ensures program { OnOk result (names.new.program ≡ names.old.program) }
{
    let x = pred_code(alloc, q, known, names)?;
    denied_code(alloc, x)
}

// A connective of two predicates.
#[cycle(code)]
fn sides(
    alloc: Global,
    connective: Connective,
    parts: (&Pred, &Pred),
    known: &Known<'_>,
    names: &mut Registers<'_>,
) -> Result<Code, AllocError>
    ensures code { IfOk result (λ c. code_of c names.new.table.kinds
        ≡ pred_by names.old (connected_of connective parts.entry.0.now parts.entry.1.now) (plain_known known.now)) }
    ensures bound { OnOk result (names.new.table.bound ≡ names.old.table.bound) }
    ensures program { OnOk result (names.new.program ≡ names.old.program) }
{
    let (a, b) = parts;
    let x = pred_code(alloc, a, known, names)?;
    let readings = known_at_right(alloc, connective, known, a)?;
    let more = Known {
        stored: known.stored,
        readings: &readings,
    };
    let y = pred_code(alloc, b, &more, names)?;
    connected(alloc, connective, x, y, names)
}

// `c ? a : b`
#[cycle(code)]
fn one_of(
    alloc: Global,
    c: &Pred,
    parts: (&Pred, &Pred),
    known: &Known<'_>,
    names: &mut Registers<'_>,
) -> Result<Code, AllocError>
    ensures code { IfOk result (λ r. code_of r names.new.table.kinds
        ≡ pred_by names.old (branch_of c.now parts.entry.0.now parts.entry.1.now) (plain_known known.now)) }
    ensures bound { OnOk result (names.new.table.bound ≡ names.old.table.bound) }
    ensures program { OnOk result (names.new.program ≡ names.old.program) }
{
    let (a, b) = parts;
    let z = pred_code(alloc, c, known, names)?;
    let readings = known_after(alloc, known, c)?;
    let more = Known {
        stored: known.stored,
        readings: &readings,
    };
    let x = pred_code(alloc, a, &more, names)?;
    let y = pred_code(alloc, b, &more, names)?;
    branched(alloc, MonType::I32, z, x, y, names)
}

// A question about a zone.
#[cycle(code)]
fn asks(
    alloc: Global,
    question: MemoryQuestion,
    z: &Zone,
    known: &Known<'_>,
    names: &mut Registers<'_>,
) -> Result<Code, AllocError>
    ensures code { IfOk result (λ c. code_of c names.new.table.kinds ≡ pred_by names.old (asks_of question z.now) (plain_known known.now)) }
    ensures bound { OnOk result (names.new.table.bound ≡ names.old.table.bound) }
    ensures program { OnOk result (names.new.program ≡ names.old.program) }
{
    let c = zone_code(alloc, z, known, names)?;
    zone_asked(alloc, question, z.align, c, names)
}

// Zones that share no byte.
#[cycle(code)]
fn separated(
    alloc: Global,
    zones: &Zones,
    known: &Known<'_>,
    names: &mut Registers<'_>,
) -> Result<Code, AllocError>
    ensures code { IfOk result (λ c. code_of c names.new.table.kinds ≡ pred_by names.old (separated_of zones.now) (plain_known known.now)) }
    ensures bound { OnOk result (names.new.table.bound ≡ names.old.table.bound) }
    ensures program { OnOk result (names.new.program ≡ names.old.program) }
{
    let c = zones_code(alloc, zones, known, names)?;
    separated_code(alloc, c, names)
}
