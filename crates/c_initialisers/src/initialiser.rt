//! Initialisers (C99 6.7.8).

ghost use Rattle.std.specs.Prelude.{◌≡◌, IfOk, OnOk, drop, map};
ghost use Rattle.c_syntax.specs.Ctypes.{plain_type};
ghost use Rattle.c_syntax.specs.Expressions.{plain_expr};
ghost use Rattle.c_syntax.specs.Programs.{plain_layout};
ghost use Rattle.c_syntax.specs.Statements.{One, plain_decl, plain_init, plain_inits};
ghost use Rattle.c_model.specs.Meaning.{string_in};
ghost use Rattle.mon_syntax.specs.Trees.{plain_stmts};
ghost use Rattle.c_effects.specs.Letters.{ValueHasLetters};
ghost use Rattle.c_effects.specs.Expressions.{before};
ghost use Rattle.c_effects.specs.Effects.{zero_parts};
ghost use Rattle.c_effects.specs.Named.{unit_of, with_registers};
ghost use Rattle.c_initialisers.specs.Initialisers.{fill_by, fill_first_by, fill_one_by, fill_parts_by, initialise_all_by, initialise_by};
ghost use Rattle.c_initialisers.specs.Initialisers.{initialise_local_by, initialise_object_by, initialise_one_by, object_temporaries, plain_parts};
ghost use Rattle.c_initialisers.specs.Letters.{InitialHasLetters, InitialiserHasLetters, InitialisersHaveLetters, InitialsHaveLetters};
ghost use Rattle.c_initialisers.specs.Translation.{declaration_temporaries, fill_temporaries, initial_temporaries, may_be_born};
ghost use Rattle.c_initialisers.specs.Translation.{one_temporaries, parts_temporaries};

use crate::aggregate::{Parts, first, parts_of, rest};
use crate::text::{bytes_in, text_at};
use c_effects::conversion::value_type;
use c_effects::object::{block_of, store};
use c_effects::scalars::zero_scalars;
use c_effects::slot::{Part, Slot, farther_by, store_in};
use c_effects::zeros::{Row, zeros_in};
use c_evaluation::evaluation::value;
use c_scopes::literal::string_in;
use c_syntax::{CType, Decl, Expr, Init, Layout};
use mon_syntax::{MonStmt, MonType, Registers};
use std::alloc::{AllocError, Global};
use track_scopes::size::size_of;

// A part takes the value of an expression, or the bytes of a string.
fn fill_one(
    alloc: Global,
    e: &Expr,
    part: Part,
    t: &CType,
    names: &mut Registers<'_>,
    to: &mut Vec<MonStmt>,
) -> Result<(), AllocError>
    ensures code { OnOk result (plain_stmts to.new.items ≡ before (plain_stmts to.old.items)
        (fill_one_by names.old part.object part.offset (plain_type t.now) (plain_expr e.now))) }
    ensures names { OnOk result (names.new ≡ with_registers (one_temporaries (unit_of names.old) (string_in (plain_expr e.now)) (plain_expr e.now)) names.old) }
    ensures letters { OnOk result (ValueHasLetters (plain_expr e.now)) }
{
    let Part { object, offset } = part;
    match string_in(e) {
        Some(n) => {
            let pointer = names.fresh(MonType::Ptr)?;
            let slot = Slot {
                object,
                pointer,
                offset,
            };
            let size = size_of(names.layouts(), t)?;
            bytes_in(alloc, slot, size, text_at(names.texts(), n), to)
        }
        None => {
            let found = value(alloc, e, names, to)?;
            let pointer = names.fresh(MonType::Ptr)?;
            let slot = Slot {
                object,
                pointer,
                offset,
            };
            store_in(alloc, slot, value_type(t), found, to)
        }
    }
}

// Zeros in these parts, which have no initialiser (C99 6.7.8 p21).
fn zero_parts(
    alloc: Global,
    parts: Parts<'_>,
    layouts: &[Layout],
    slot: Slot,
    to: &mut Vec<MonStmt>,
) -> Result<(), AllocError>
    ensures { OnOk result (plain_stmts to.new.items ≡ before (plain_stmts to.old.items)
        (zero_parts (map plain_layout layouts.now) slot.object slot.pointer slot.offset (plain_parts parts.entry))) }
{
    let Slot {
        object,
        pointer,
        ..
    } = slot;
    let mut left = parts;
    let mut row = Row {
        start: slot.offset,
        count: 0,
    };
    'parts: while let Some((distance, t)) = first(left) {
        let offset = farther_by(slot.offset, distance)?;
        let part = Slot {
            object,
            pointer,
            offset,
        };
        row = zero_scalars(alloc, t, layouts, part, row, to)?;
        left = rest(left)?;
    }
    zeros_in(alloc, slot, row, to)
}

// A part takes an initialiser.
#[cycle(fill)]
fn fill(
    alloc: Global,
    i: &Init,
    part: Part,
    t: &CType,
    names: &mut Registers<'_>,
    to: &mut Vec<MonStmt>,
) -> Result<(), AllocError>
    ensures code { OnOk result (plain_stmts to.new.items ≡ before (plain_stmts to.old.items)
        (fill_by names.old part.object part.offset (plain_type t.now) (plain_init i.now))) }
    ensures names { OnOk result (names.new ≡ with_registers (fill_temporaries (unit_of names.old) (plain_init i.now)) names.old) }
    ensures letters { OnOk result (InitialiserHasLetters (plain_init i.now)) }
{
    match i {
        Init::One(e) => fill_one(alloc, e, part, t, names, to),
        Init::Many(_, inits) => {
            let parts = parts_of(names.layouts(), t)?;
            fill_parts(alloc, inits, part, parts, names, to)
        }
    }
}

// Parts of an object take initialisers in order, and those that are left zeros.
#[cycle(fill)]
fn fill_parts(
    alloc: Global,
    inits: &[Init],
    part: Part,
    parts: Parts<'_>,
    names: &mut Registers<'_>,
    to: &mut Vec<MonStmt>,
) -> Result<(), AllocError>
    ensures code { OnOk result (plain_stmts to.new.items ≡ before (plain_stmts to.old.items)
        (fill_parts_by names.old part.object part.offset (plain_parts parts.entry) (plain_inits inits.now))) }
    ensures names { OnOk result (names.new ≡ with_registers (parts_temporaries (unit_of names.old) (plain_inits inits.now)) names.old) }
    ensures letters { OnOk result (InitialisersHaveLetters (plain_inits inits.now)) }
{
    let mut left = parts;
    'inits: for i in inits {
        left = fill_first(alloc, i, part, left, names, to)?;
    }
    let pointer = names.fresh(MonType::Ptr)?;
    let slot = Slot {
        object: part.object,
        pointer,
        offset: part.offset,
    };
    zero_parts(alloc, left, names.layouts(), slot, to)
}

// The first of the parts takes an initialiser, and the others are given. Where there is none, only its registers stay.
#[cycle(fill)]
fn fill_first<'a>(
    alloc: Global,
    i: &Init,
    part: Part,
    parts: Parts<'a>,
    names: &mut Registers<'_>,
    to: &mut Vec<MonStmt>,
) -> Result<Parts<'a>, AllocError>
    ensures code { OnOk result (plain_stmts to.new.items ≡ before (plain_stmts to.old.items)
        (fill_first_by names.old part.object part.offset (plain_parts parts.entry) (plain_init i.now))) }
    ensures rest { IfOk result (λ rest. plain_parts rest ≡ drop 1 (plain_parts parts.entry)) }
    ensures names { OnOk result (names.new ≡ with_registers (fill_temporaries (unit_of names.old) (plain_init i.now)) names.old) }
    ensures letters { OnOk result (InitialiserHasLetters (plain_init i.now)) }
{
    let Part { object, offset } = part;
    match first(parts) {
        Some((distance, t)) => {
            let offset = farther_by(offset, distance)?;
            fill(alloc, i, Part { object, offset }, t, names, to)?;
            rest(parts)
        }
        None => {
            let mut unused = Vec::new(alloc);
            fill(alloc, i, part, &CType::Void, names, &mut unused)?;
            rest(parts)
        }
    }
}

// An object takes the value of an expression, or the bytes of a string.
fn initialise_one(
    alloc: Global,
    e: &Expr,
    block: u32,
    t: &CType,
    names: &mut Registers<'_>,
    to: &mut Vec<MonStmt>,
) -> Result<(), AllocError>
    ensures code { OnOk result (plain_stmts to.new.items ≡ before (plain_stmts to.old.items)
        (initialise_one_by names.old block (plain_type t.now) e.now)) }
    ensures names { OnOk result (names.new ≡ with_registers (object_temporaries (unit_of names.old) (One (plain_expr e.now))) names.old) }
    ensures letters { OnOk result (ValueHasLetters (plain_expr e.now)) }
{
    match string_in(e) {
        Some(_) => {
            let part = Part {
                object: block,
                offset: 0,
            };
            fill_one(alloc, e, part, t, names, to)
        }
        None => {
            let found = value(alloc, e, names, to)?;
            store(alloc, block, t, found, to)
        }
    }
}

// An object takes its initialiser.
fn initialise_object(
    alloc: Global,
    i: &Init,
    block: u32,
    t: &CType,
    names: &mut Registers<'_>,
    to: &mut Vec<MonStmt>,
) -> Result<(), AllocError>
    ensures code { OnOk result (plain_stmts to.new.items ≡ before (plain_stmts to.old.items)
        (initialise_object_by names.old block (plain_type t.now) (plain_init i.now))) }
    ensures names { OnOk result (names.new ≡ with_registers (object_temporaries (unit_of names.old) (plain_init i.now)) names.old) }
    ensures letters { OnOk result (InitialiserHasLetters (plain_init i.now)) }
{
    match i {
        Init::One(e) => initialise_one(alloc, e, block, t, names, to),
        Init::Many(_, inits) => {
            let part = Part {
                object: block,
                offset: 0,
            };
            let parts = parts_of(names.layouts(), t)?;
            fill_parts(alloc, inits, part, parts, names, to)
        }
    }
}

/// Initialises a declared object, to whose block a register points.
#[tactic(auto, using(c_effects::proofs::Sequences::before_none))]
pub fn initialise(
    alloc: Global,
    block: u32,
    d: &Decl,
    names: &mut Registers<'_>,
    to: &mut Vec<MonStmt>,
) -> Result<(), AllocError>
    ensures code { OnOk result (plain_stmts to.new.items ≡ before (plain_stmts to.old.items)
        (initialise_by names.old block (plain_type d.now.ctype) (plain_decl d.now).init)) }
    ensures names { OnOk result (names.new ≡ with_registers (initial_temporaries (unit_of names.old) (plain_decl d.now).init) names.old) }
    ensures letters { OnOk result (InitialHasLetters (plain_decl d.now).init) }
{
    match &d.init {
        Some((_, i)) => initialise_object(alloc, i, block, &d.ctype, names, to),
        None => Ok(()),
    }
}

// Whether an object of so many bytes may be born on a stack.
fn may_be_born(size: u64) -> bool
    ensures { result ≡ may_be_born size }
{
    size <= 268_435_456
}

// Makes the registers of an initialiser, and nothing else.
fn take_registers(alloc: Global, d: &Decl, names: &mut Registers<'_>) -> Result<(), AllocError>
    ensures names { OnOk result (names.new ≡ with_registers (initial_temporaries (unit_of names.old) (plain_decl d.now).init) names.old) }
    ensures letters { OnOk result (InitialHasLetters (plain_decl d.now).init) }
{
    let mut unused = Vec::new(alloc);
    match &d.init {
        Some((_, i)) => initialise_object(alloc, i, 0, &CType::Void, names, &mut unused),
        None => Ok(()),
    }
}

// Initialises a variable of a function. What is never born is never initialised.
#[tactic(auto, using(c_effects::proofs::Sequences::before_none))]
fn initialise_local(
    alloc: Global,
    d: &Decl,
    names: &mut Registers<'_>,
    to: &mut Vec<MonStmt>,
) -> Result<(), AllocError>
    ensures code { OnOk result (plain_stmts to.new.items ≡ before (plain_stmts to.old.items) (initialise_local_by names.old (plain_decl d.now))) }
    ensures names { OnOk result (names.new ≡ with_registers (initial_temporaries (unit_of names.old) (plain_decl d.now).init) names.old) }
    ensures letters { OnOk result (InitialHasLetters (plain_decl d.now).init) }
{
    let block = block_of(names, d.place.offset);
    let size = size_of(names.layouts(), &d.ctype)?;
    if may_be_born(size) {
        initialise(alloc, block, d, names, to)
    } else {
        take_registers(alloc, d, names)
    }
}

/// Initialises declared variables in order.
pub fn initialise_all(
    alloc: Global,
    decls: &[Decl],
    names: &mut Registers<'_>,
    to: &mut Vec<MonStmt>,
) -> Result<(), AllocError>
    ensures code { OnOk result (plain_stmts to.new.items ≡ before (plain_stmts to.old.items)
        (initialise_all_by names.old (map plain_decl decls.now))) }
    ensures names { OnOk result (names.new ≡ with_registers (declaration_temporaries (unit_of names.old) (map plain_decl decls.now)) names.old) }
    ensures letters { OnOk result (InitialsHaveLetters (map plain_decl decls.now)) }
{
    'decls: for d in decls {
        initialise_local(alloc, d, names, to)?;
    }
    Ok(())
}
