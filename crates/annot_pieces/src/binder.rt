//! The code around binders (ACSL 2.2.4): their registers, and their first and last values.

ghost use Rattle.std.specs.Prelude.{◌≡◌, ◌<◌, ◌++◌, ◌∷◌, [], IfOk, OnOk, map, option_map};
ghost use Rattle.c_syntax.specs.Formulas.{plain_cast_type};
ghost use Rattle.c_syntax.specs.Logic.{plain_binder};
ghost use Rattle.c_model.specs.Quantifiers.{first_of};
ghost use Rattle.c_model.specs.TermRanges.{lowered, raised};
ghost use Rattle.mon_syntax.specs.Registers.{next_register};
ghost use Rattle.mon_syntax.specs.Trees.{Register, plain_expr};
ghost use Rattle.quantifier_loops.specs.Plain.{plain_bounds};
ghost use Rattle.annot_simulation.specs.Binders.{greatest_of, least_of, tried_with, tries_code};
ghost use Rattle.annot_simulation.specs.Opened.{bound_in, close_binder, close_binders, held_within, open_binder, open_binders, used_within, with_bound};
ghost use Rattle.annot_pieces.specs.Plain.{c_type_of, code_of, plain_opened};
ghost use Rattle.annot_pieces.specs.Tables.{plain_held, plain_helds};

use crate::kept::Held;
use crate::opened::{Chain, LowerBound, OpenBinder};
use crate::piece::Code;
use c_conversions::conversion::integer_type;
use c_effects::operator::register;
use c_syntax::CInt;
use c_syntax::logic::{Binder, LogicType, Quantifier};
use ea_num::type_range;
use mon_syntax::{MonExpr, MonType, Registers};
use quantifier_loops::tries::{Bounds, at_most, tries};
use std::alloc::{AllocError, Global};

// ---- names and registers

fn hold_all(from: &[Held], to: &mut Vec<Held>) -> Result<(), AllocError>
    ensures { OnOk result (plain_helds to.new.items ≡ plain_helds to.old.items ++ plain_helds from.now) }
{
    match from {
        [] => Ok(()),
        [first, rest @ ..] => {
            to.push(*first)?;
            hold_all(rest, to)
        }
    }
}

// One more name before the others.
fn held_with(alloc: Global, name: Held, others: &[Held]) -> Result<Vec<Held>, AllocError>
    ensures { IfOk result (λ all. plain_helds all.items ≡ plain_held name ∷ plain_helds others.now) }
{
    let mut all = Vec::new(alloc);
    all.push(name)?;
    hold_all(others, &mut all)?;
    Ok(all)
}

// The registers of one binder, of which the last one is its index: the first one's number.
fn four_fresh(kind: MonType, names: &mut Registers<'_>) -> Result<u32, AllocError>
    ensures number { IfOk result (λ r. r ≡ next_register names.old.table) }
    ensures few { IfOk result (λ r. r < 4294967293) }
    ensures kinds { OnOk result (names.new.table.kinds ≡ tried_with kind names.old.table.kinds) }
    ensures bound { OnOk result (names.new.table.bound ≡ names.old.table.bound) }
    ensures program { OnOk result (names.new.program ≡ names.old.program) }
{
    let flag = names.fresh(MonType::I32)?;
    let _ = names.fresh(MonType::I32)?;
    let _ = names.fresh(MonType::I32)?;
    let _ = names.fresh(kind)?;
    Ok(flag)
}

// ---- the first and the last value

// The least number after a lower bound, by the sign between them. No range of a binder goes beyond 128 bits.
fn raised(above: bool, from: i128) -> Result<i128, AllocError>
    ensures { IfOk result (λ n. n ≡ raised above from) }
{
    if above {
        from.checked_add(1).ok_or(AllocError)
    } else {
        Ok(from)
    }
}

/// The greatest number before an upper bound.
pub fn lowered(below: bool, to: i128) -> Result<i128, AllocError>
    ensures { IfOk result (λ n. n ≡ lowered below to) }
{
    if below {
        to.checked_sub(1).ok_or(AllocError)
    } else {
        Ok(to)
    }
}

fn c_type(kind: &LogicType) -> Option<CInt>
    ensures { result ≡ c_type_of (plain_cast_type kind.now) }
{
    match kind {
        LogicType::Integer => None,
        LogicType::Of(t) => integer_type(t),
    }
}

// The least value of a type, where a lower bound of this number may lie below it.
fn least_of(kind: &LogicType, from: i128) -> Option<i128>
    ensures { result ≡ least_of (plain_cast_type kind.now) from }
{
    match c_type(kind) {
        None => None,
        Some(k) => {
            let least = type_range(k).lo;
            if from < least { Some(least) } else { None }
        }
    }
}

// The greatest one, where an upper bound of this number may lie above it.
fn greatest_of(kind: &LogicType, to: i128) -> Option<i128>
    ensures { result ≡ greatest_of (plain_cast_type kind.now) to }
{
    match c_type(kind) {
        None => None,
        Some(k) => {
            let greatest = type_range(k).hi;
            if greatest < to { Some(greatest) } else { None }
        }
    }
}

// The first value of a type from a number on.
fn first_of(kind: &LogicType, from: i128) -> i128
    ensures { result ≡ first_of (plain_cast_type kind.now) from }
{
    match c_type(kind) {
        None => from,
        Some(k) => from.max(type_range(k).lo),
    }
}

// ---- what is opened

// The register of the last value of a binder, and the greatest number that it may be where it has one of its own.
fn last_value(
    chain: Chain,
    kind: &LogicType,
    names: &mut Registers<'_>,
) -> Result<(u32, Option<(u32, i128)>), AllocError>
    ensures last { IfOk result (λ r. Register r.0 ≡ bound_in (Register chain.last) (greatest_of (plain_cast_type kind.now) chain.most) names.old.table.kinds) }
    ensures most { IfOk result (λ r. r.1
        ≡ option_map (λ z. (next_register names.old.table, z)) (greatest_of (plain_cast_type kind.now) chain.most)) }
    ensures kinds { OnOk result (names.new.table.kinds ≡ with_bound chain.kind (greatest_of (plain_cast_type kind.now) chain.most) names.old.table.kinds) }
    ensures bound { OnOk result (names.new.table.bound ≡ names.old.table.bound) }
    ensures program { OnOk result (names.new.program ≡ names.old.program) }
{
    match greatest_of(kind, chain.most) {
        None => Ok((chain.last, None)),
        Some(most) => {
            let last = names.fresh(chain.kind)?;
            Ok((last, Some((last, most))))
        }
    }
}

// A binder after its lower bound.
fn open_binder(
    alloc: Global,
    chain: Chain,
    b: &Binder,
    lower: LowerBound,
    names: &mut Registers<'_>,
) -> Result<OpenBinder, AllocError>
    ensures binder { IfOk result (λ o. plain_opened o
        ≡ open_binder chain.kind (Register chain.last) chain.most (plain_expr lower.value) lower.least (plain_binder b.now) names.old.table.kinds) }
    ensures kinds { OnOk result (names.new.table.kinds
        ≡ tried_with chain.kind (with_bound chain.kind (greatest_of (plain_cast_type b.now.kind) chain.most) names.old.table.kinds)) }
    ensures bound { OnOk result (names.new.table.bound ≡ names.old.table.bound) }
    ensures program { OnOk result (names.new.program ≡ names.old.program) }
{
    let LowerBound { value: from, least } = lower;
    let at = raised(b.above, least)?;
    let (last, most) = last_value(chain, &b.kind, names)?;
    let to = register(alloc, last)?;
    let first = four_fresh(chain.kind, names)?;
    let bounds = Bounds {
        above: b.above,
        kind: chain.kind,
        least: least_of(&b.kind, at),
        from,
        to,
    };
    Ok(OpenBinder {
        bounds,
        first,
        most,
    })
}

// The binders of a chain after a lower bound: the names that are held within them.
fn open_binders(
    alloc: Global,
    chain: Chain,
    binders: &[Binder],
    lower: LowerBound,
    held: Vec<Held>,
    names: &mut Registers<'_>,
    opened: &mut Vec<OpenBinder>,
) -> Result<Vec<Held>, AllocError>
    ensures opened { OnOk result (map plain_opened opened.new.items ≡ map plain_opened opened.old.items
        ++ open_binders chain.kind (Register chain.last) chain.most (plain_expr lower.value) lower.least (map plain_binder binders.now) names.old.table.kinds) }
    ensures held { IfOk result (λ r. plain_helds r.items
        ≡ held_within chain.kind (Register chain.last) chain.most (map plain_binder binders.now) (plain_helds held.items) names.old.table.kinds) }
    ensures kinds { OnOk result (names.new.table.kinds
        ≡ used_within chain.kind (Register chain.last) chain.most (map plain_binder binders.now) names.old.table.kinds) }
    ensures bound { OnOk result (names.new.table.bound ≡ names.old.table.bound) }
    ensures program { OnOk result (names.new.program ≡ names.old.program) }
{
    match binders {
        [] => Ok(held),
        [b, rest @ ..] => {
            let at = raised(b.above, lower.least)?;
            let one = open_binder(alloc, chain, b, lower, names)?;
            let index = one.first + 3;
            opened.push(one)?;
            let name = Held {
                number: b.place.offset,
                register: index,
                kind: chain.kind,
            };
            let held = held_with(alloc, name, &held)?;
            let next = LowerBound {
                value: register(alloc, index)?,
                least: first_of(&b.kind, at),
            };
            open_binders(alloc, chain, rest, next, held, names, opened)
        }
    }
}

/// The binders of a chain after its lower bound: they, and the names that are held within them.
pub fn opened_binders(
    alloc: Global,
    chain: Chain,
    binders: (&Binder, &[Binder]),
    lower: LowerBound,
    held: &[Held],
    names: &mut Registers<'_>,
) -> Result<(Vec<OpenBinder>, Vec<Held>), AllocError>
    ensures opened { IfOk result (λ r. map plain_opened r.0.items ≡ open_binders chain.kind (Register chain.last) chain.most
        (plain_expr lower.value) lower.least (plain_binder binders.entry.0.now ∷ map plain_binder binders.entry.1.now) names.old.table.kinds) }
    ensures held { IfOk result (λ r. plain_helds r.1.items ≡ held_within chain.kind (Register chain.last) chain.most
        (plain_binder binders.entry.0.now ∷ map plain_binder binders.entry.1.now) (plain_helds held.now) names.old.table.kinds) }
    ensures kinds { OnOk result (names.new.table.kinds ≡ used_within chain.kind (Register chain.last) chain.most
        (plain_binder binders.entry.0.now ∷ map plain_binder binders.entry.1.now) names.old.table.kinds) }
    ensures bound { OnOk result (names.new.table.bound ≡ names.old.table.bound) }
    ensures program { OnOk result (names.new.program ≡ names.old.program) }
{
    let (b, rest) = binders;
    let at = raised(b.above, lower.least)?;
    let mut opened = Vec::new(alloc);
    let one = open_binder(alloc, chain, b, lower, names)?;
    let index = one.first + 3;
    opened.push(one)?;
    let name = Held {
        number: b.place.offset,
        register: index,
        kind: chain.kind,
    };
    let held = held_with(alloc, name, held)?;
    let next = LowerBound {
        value: register(alloc, index)?,
        least: first_of(&b.kind, at),
    };
    let held = open_binders(alloc, chain, rest, next, held, names, &mut opened)?;
    Ok((opened, held))
}

// ---- what is closed

// The code of the values of a binder by that of one value.
fn tries_code(
    alloc: Global,
    q: Quantifier,
    bounds: Bounds,
    first: u32,
    c: Code,
) -> Result<Code, AllocError>
    requires { first < 4294967293 }
    ensures { IfOk result (λ r. code_of r [] ≡ tries_code q (plain_bounds bounds) first (code_of c [])) }
{
    let stmts = tries(alloc, q, bounds, first, (c.stmts, c.flag, c.value))?;
    let flag = register(alloc, first)?;
    let value = register(alloc, first + 1)?;
    Ok(Code {
        stmts,
        flag: Some(flag),
        value,
    })
}

fn close_binder(
    alloc: Global,
    q: Quantifier,
    chain: Chain,
    b: OpenBinder,
    c: Code,
) -> Result<Code, AllocError>
    ensures { IfOk result (λ r. code_of r [] ≡ close_binder q chain.kind (Register chain.last) (plain_opened b) (code_of c [])) }
{
    let OpenBinder {
        bounds,
        first,
        most,
    } = b;
    let c = tries_code(alloc, q, bounds, first, c)?;
    match most {
        None => Ok(c),
        Some((number, most)) => {
            let last = register(alloc, chain.last)?;
            let stmts = at_most(alloc, chain.kind, number, last, most, c.stmts)?;
            Ok(Code {
                stmts,
                flag: c.flag,
                value: c.value,
            })
        }
    }
}

/// The code of a chain by that within its binders.
pub fn close_binders(
    alloc: Global,
    q: Quantifier,
    chain: Chain,
    opened: &mut Vec<OpenBinder>,
    c: Code,
) -> Result<Code, AllocError>
    ensures { IfOk result (λ r. code_of r [] ≡ close_binders q chain.kind (Register chain.last) (map plain_opened opened.old.items) (code_of c [])) }
{
    match opened.pop() {
        None => Ok(c),
        Some(b) => {
            let c = close_binder(alloc, q, chain, b, c)?;
            close_binders(alloc, q, chain, opened, c)
        }
    }
}
