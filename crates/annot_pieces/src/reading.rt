//! Variables that are read, and those of which it is known that they hold numbers.

ghost use Rattle.std.specs.Prelude.{◌≡◌, ◌++◌, OnOk, IfOk, option_map};
ghost use Rattle.c_syntax.specs.Ctypes.{plain_type};
ghost use Rattle.c_syntax.specs.Logic.{plain_pred, plain_term, plain_zones};
ghost use Rattle.annot_simulation.specs.Code.{is_known, is_same_reading, known_at_right, readings_of_variable, sure_readings};
ghost use Rattle.annot_simulation.specs.Code.{sure_readings_of_place, sure_readings_of_term, sure_readings_of_zone, sure_readings_of_zones, term_type};
ghost use Rattle.annot_pieces.specs.Plain.{plain_known, plain_reading, plain_readings, plain_zone};

use crate::plan::Stored;
use c_effects::conversion::value_type;
use c_syntax::CType;
use c_syntax::logic::{Connective, Links, Pred, PredKind, Term, TermKind, Zone, ZoneKind, Zones};
use mon_syntax::{MonType, same_type};
use std::alloc::{AllocError, Global};

/// A variable, and the type of its value.
#[derive(Clone, Copy)]
pub struct Reading {
    pub decl: u32,
    pub kind: MonType,
}

/// What is known where a part is asked.
#[derive(Clone, Copy)]
pub struct Known<'a> {
    pub stored: Stored<'a>,
    /// The variables that were read.
    pub readings: &'a [Reading],
}

/// The type of a term that is the value of an object.
pub fn term_type(t: &Option<CType>) -> MonType
    ensures { result ≡ term_type (option_map plain_type t.now) }
{
    match t {
        Some(t) => value_type(t),
        None => MonType::I32,
    }
}

fn is_same(x: Reading, y: Reading) -> bool
    ensures { result ≡ is_same_reading (plain_reading x) (plain_reading y) }
{
    x.decl == y.decl && same_type(x.kind, y.kind)
}

/// Whether it is known that a variable holds a number.
pub fn is_known(known: &[Reading], x: Reading) -> bool
    ensures { result ≡ is_known (plain_readings known.now) (plain_reading x) }
{
    match known {
        [] => false,
        [first, rest @ ..] => is_same(x, *first) || is_known(rest, x),
    }
}

// What is read of a variable.
fn read_variable(t: &Option<CType>, decl: u32, to: &mut Vec<Reading>) -> Result<(), AllocError>
    ensures { OnOk result (plain_readings to.new.items ≡ plain_readings to.old.items ++ readings_of_variable (option_map plain_type t.now) decl) }
{
    match t {
        Some(CType::Int(_) | CType::Ptr(_)) => {
            to.push(Reading {
                decl,
                kind: term_type(t),
            })?;
            Ok(())
        }
        Some(CType::Void | CType::Array(..) | CType::Struct(_) | CType::Named(_)) | None => Ok(()),
        Some(CType::StructTag(..) | CType::EnumTag(..)) => Ok(()),
    }
}

// What is read wherever a term has a value.
#[cycle(term)]
fn read_in_term(t: &Term, to: &mut Vec<Reading>) -> Result<(), AllocError>
    ensures { OnOk result (plain_readings to.new.items ≡ plain_readings to.old.items ++ sure_readings_of_term (plain_term t.now)) }
{
    match &*t.kind {
        TermKind::Number(_) | TermKind::Letter(_) | TermKind::Choice(_, _, _) => Ok(()),
        TermKind::Null | TermKind::Named(_) | TermKind::At(_, _) => Ok(()),
        TermKind::Variable(x) => read_variable(&t.ctype, x.decl, to),
        TermKind::Unary(_, a) | TermKind::Cast(_, a) => read_in_term(a, to),
        TermKind::Deref(a) | TermKind::Told(_, a) => read_in_term(a, to),
        TermKind::Member(_, a) | TermKind::Address(a) => read_in_place(a, to),
        TermKind::Binary(_, a, b) => {
            read_in_term(a, to)?;
            read_in_term(b, to)
        }
        TermKind::Moved(_, _, a, b) => {
            read_in_term(a, to)?;
            read_in_term(b, to)
        }
        TermKind::Difference(_, a, b) => {
            read_in_term(a, to)?;
            read_in_term(b, to)
        }
    }
}

// What is read wherever a place stands somewhere.
#[cycle(term)]
fn read_in_place(t: &Term, to: &mut Vec<Reading>) -> Result<(), AllocError>
    ensures { OnOk result (plain_readings to.new.items ≡ plain_readings to.old.items ++ sure_readings_of_place (plain_term t.now)) }
{
    match &*t.kind {
        TermKind::Deref(a) => read_in_term(a, to),
        TermKind::Member(_, a) => read_in_place(a, to),
        TermKind::Number(_) | TermKind::Letter(_) | TermKind::Variable(_) => Ok(()),
        TermKind::Unary(_, _) | TermKind::Binary(_, _, _) | TermKind::Cast(_, _) => Ok(()),
        TermKind::Choice(_, _, _) | TermKind::Null | TermKind::Address(_) => Ok(()),
        TermKind::Moved(_, _, _, _) | TermKind::Difference(_, _, _) => Ok(()),
        TermKind::Told(_, _) | TermKind::Named(_) | TermKind::At(_, _) => Ok(()),
    }
}

// What is read wherever a zone has bytes.
fn read_in_zone(z: &Zone, to: &mut Vec<Reading>) -> Result<(), AllocError>
    ensures { OnOk result (plain_readings to.new.items ≡ plain_readings to.old.items ++ sure_readings_of_zone (plain_zone z.now)) }
{
    match &*z.kind {
        ZoneKind::Object(a) => read_in_term(a, to),
        ZoneKind::Elements(a, low, high) => {
            read_in_term(a, to)?;
            read_in_term(low, to)?;
            read_in_term(high, to)
        }
    }
}

fn read_in_zones(zones: &Zones, to: &mut Vec<Reading>) -> Result<(), AllocError>
    ensures { OnOk result (plain_readings to.new.items ≡ plain_readings to.old.items ++ sure_readings_of_zones (plain_zones zones.now)) }
{
    match zones {
        Zones::End => Ok(()),
        Zones::More(z, rest) => {
            read_in_zone(z, to)?;
            read_in_zones(rest, to)
        }
    }
}

/// What is read by both terms of a relation.
pub fn read_in_relation(t: &Term, u: &Term, to: &mut Vec<Reading>) -> Result<(), AllocError>
    ensures { OnOk result (plain_readings to.new.items ≡ plain_readings to.old.items
        ++ (sure_readings_of_term (plain_term t.now) ++ sure_readings_of_term (plain_term u.now))) }
{
    read_in_term(t, to)?;
    read_in_term(u, to)
}

/// What is read wherever a predicate says something.
pub fn read_in(p: &Pred, to: &mut Vec<Reading>) -> Result<(), AllocError>
    ensures { OnOk result (plain_readings to.new.items ≡ plain_readings to.old.items ++ sure_readings (plain_pred p.now)) }
{
    match &*p.kind {
        PredKind::Truth(_) | PredKind::Quantified(_, _, _) => Ok(()),
        PredKind::NonZero(t) => read_in_term(t, to),
        PredKind::Chain(_, Links::End) => Ok(()),
        PredKind::Chain(t, Links::Link(_, _, u, _)) => read_in_relation(t, u, to),
        PredKind::Not(q) => read_in(q, to),
        PredKind::Connected(Connective::And | Connective::Or | Connective::Implies, a, _) => {
            read_in(a, to)
        }
        PredKind::Connected(Connective::Iff | Connective::Xor, a, b) => {
            read_in(a, to)?;
            read_in(b, to)
        }
        PredKind::Choice(c, _, _) => read_in(c, to),
        PredKind::Asks(_, z) => read_in_zone(z, to),
        PredKind::Separated(zones) => read_in_zones(zones, to),
    }
}

// A copy of what is known.
fn copied(alloc: Global, known: &[Reading]) -> Result<Vec<Reading>, AllocError>
    ensures { IfOk result (λ v. plain_readings v.items ≡ plain_readings known.now) }
{
    known.to_vec(alloc)
}

/// What is known to be read after a predicate that says something.
pub fn known_after(alloc: Global, known: &Known<'_>, p: &Pred) -> Result<Vec<Reading>, AllocError>
    ensures { IfOk result (λ v. plain_readings v.items ≡ (plain_known known.now).readings ++ sure_readings (plain_pred p.now)) }
{
    let mut more = copied(alloc, known.readings)?;
    read_in(p, &mut more)?;
    Ok(more)
}

/// What is known to be read after a relation that says something.
pub fn known_after_relation(
    alloc: Global,
    known: &Known<'_>,
    t: &Term,
    u: &Term,
) -> Result<Vec<Reading>, AllocError>
    ensures { IfOk result (λ v. plain_readings v.items ≡ (plain_known known.now).readings
        ++ (sure_readings_of_term (plain_term t.now) ++ sure_readings_of_term (plain_term u.now))) }
{
    let mut more = copied(alloc, known.readings)?;
    read_in_relation(t, u, &mut more)?;
    Ok(more)
}

/// What is known to be read where the right side of a connective is asked.
pub fn known_at_right(
    alloc: Global,
    connective: Connective,
    known: &Known<'_>,
    left: &Pred,
) -> Result<Vec<Reading>, AllocError>
    ensures { IfOk result (λ v. plain_readings v.items ≡ known_at_right connective (plain_known known.now).readings (plain_pred left.now)) }
{
    match connective {
        Connective::And | Connective::Or | Connective::Implies => known_after(alloc, known, left),
        Connective::Iff | Connective::Xor => copied(alloc, known.readings),
    }
}
