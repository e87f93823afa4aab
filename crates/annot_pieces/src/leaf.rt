//! Code of terms without parts: values that have names, terms that are kept, and pointers in variables.

ghost use Rattle.std.specs.Prelude.{◌≡◌, [], IfOk, OnOk, Some, option_map};
ghost use Rattle.c_syntax.specs.Ctypes.{plain_type};
ghost use Rattle.c_syntax.specs.Logic.{plain_term};
ghost use Rattle.c_model.specs.PredicateTyping.{place_of_term};
ghost use Rattle.c_model.specs.Ranges.{width_of_range};
ghost use Rattle.mon_syntax.specs.Trees.{Register, plain_expr};
ghost use Rattle.c_effects.specs.Expressions.{in_type};
ghost use Rattle.annot_simulation.specs.Code.{held_by, held_code, held_pointer, kept_at, kept_code, kept_pointer, type_of_width};
ghost use Rattle.annot_pieces.specs.Plain.{code_of, number_in, plain_known, pointer_in, pointer_of, pointer_variable_by};
ghost use Rattle.annot_pieces.specs.Tables.{plain_held};

use crate::kept::{Held, held_by};
use crate::piece::{Code, next};
use crate::pointer::{PointerCode, no_pointer, null_pointer, pointer_there, start_pointer};
use crate::reading::{Known, Reading, is_known, term_type};
use crate::term::no_code;
use crate::width::type_of_range;
use c_effects::object::pointer_to;
use c_effects::operator::{constant, in_type, register};
use c_syntax::logic::Term;
use c_syntax::{CType, Range};
use mon_syntax::{MonExpr, MonType, Registers};
use std::alloc::{AllocError, Global};

// ---- names

// What a name stands for, in a type.
fn held_value(alloc: Global, w: MonType, name: Held) -> Result<MonExpr, AllocError>
    ensures { IfOk result (λ e. plain_expr e ≡ in_type name.kind w (Register name.register)) }
{
    let value = register(alloc, name.register)?;
    in_type(alloc, name.kind, w, value)
}

// The number that a name stands for, in a type.
fn held_code(alloc: Global, w: MonType, name: Option<Held>) -> Result<Code, AllocError>
    ensures { IfOk result (λ c. code_of c [] ≡ held_code w (option_map plain_held name) []) }
{
    let value = match name {
        None => constant(alloc, w, 0)?,
        Some(name) => held_value(alloc, w, name)?,
    };
    Ok(Code {
        stmts: Vec::new(alloc),
        flag: None,
        value,
    })
}

// The pointer that a name stands for.
fn held_pointer(alloc: Global, name: Option<Held>) -> Result<PointerCode, AllocError>
    ensures { IfOk result (λ c. pointer_of c [] ≡ held_pointer (option_map plain_held name) []) }
{
    match name {
        None => null_pointer(alloc),
        Some(name) => {
            let base = register(alloc, name.register)?;
            start_pointer(alloc, base)
        }
    }
}

/// The number that the name of this number stands for, with a result in the range.
pub fn named(alloc: Global, range: Range, name: u32, known: &Known<'_>) -> Result<Code, AllocError>
    ensures { IfOk result (λ c. code_of c [] ≡ held_code (type_of_width (width_of_range range)) (held_by name (plain_known known.now).held) []) }
{
    let found = held_by(known.stored.held, name);
    held_code(alloc, type_of_range(range), found)
}

/// The pointer that the name of this number stands for.
pub fn pointer_named(alloc: Global, name: u32, known: &Known<'_>) -> Result<PointerCode, AllocError>
    ensures { IfOk result (λ c. pointer_of c [] ≡ held_pointer (held_by name (plain_known known.now).held) []) }
{
    let found = held_by(known.stored.held, name);
    held_pointer(alloc, found)
}

// ---- terms that are kept

// A number whose flag stands in a register.
#[tactic(auto, using(crate::proofs::Rust::next_is))]
fn number_in(alloc: Global, number: u32) -> Result<Code, AllocError>
    ensures { IfOk result (λ c. code_of c [] ≡ number_in (Some number) []) }
{
    let flag = register(alloc, number)?;
    let value = register(alloc, next(number)?)?;
    Ok(Code {
        stmts: Vec::new(alloc),
        flag: Some(flag),
        value,
    })
}

// A pointer whose flag stands in a register.
#[tactic(auto, using(crate::proofs::Rust::next_is))]
fn pointer_in(alloc: Global, number: u32) -> Result<PointerCode, AllocError>
    ensures { IfOk result (λ c. pointer_of c [] ≡ pointer_in (Some number) []) }
{
    let second = next(number)?;
    let third = next(second)?;
    let flag = register(alloc, number)?;
    let base = register(alloc, second)?;
    let offset = register(alloc, third)?;
    Ok(PointerCode {
        stmts: Vec::new(alloc),
        flag: Some(flag),
        base,
        offset,
    })
}

/// A number that is kept.
#[tactic(auto, using(crate::proofs::Stored::kept_is))]
pub fn kept_number(alloc: Global, a: &Term, known: &Known<'_>) -> Result<Code, AllocError>
    ensures { IfOk result (λ c. code_of c [] ≡ kept_code (kept_at (place_of_term (plain_term a.now)).offset (plain_known known.now).plan) []) }
{
    match known.stored.plan.register_of(a) {
        None => no_code(alloc),
        Some(number) => number_in(alloc, number),
    }
}

/// A pointer that is kept.
#[tactic(auto, using(crate::proofs::Stored::kept_pointer_is))]
pub fn kept_pointer(alloc: Global, a: &Term, known: &Known<'_>) -> Result<PointerCode, AllocError>
    ensures { IfOk result (λ c. pointer_of c [] ≡ kept_pointer (kept_at (place_of_term (plain_term a.now)).offset (plain_known known.now).plan) []) }
{
    match known.stored.plan.register_of(a) {
        None => no_pointer(alloc),
        Some(number) => pointer_in(alloc, number),
    }
}

// ---- variables

/// A pointer in a variable.
pub fn pointer_variable(
    alloc: Global,
    t: &Option<CType>,
    decl: u32,
    known: &Known<'_>,
    names: &mut Registers<'_>,
) -> Result<PointerCode, AllocError>
    ensures code { IfOk result (λ c. pointer_of c names.new.table.kinds
        ≡ pointer_variable_by names.old (option_map plain_type t.now) decl (plain_known known.now)) }
    ensures bound { OnOk result (names.new.table.bound ≡ names.old.table.bound) }
    ensures program { OnOk result (names.new.program ≡ names.old.program) }
{
    let kind = term_type(t);
    let is_there = is_known(known.readings, Reading { decl, kind });
    let base = pointer_to(alloc, names, decl)?;
    let c = start_pointer(alloc, base)?;
    pointer_there(alloc, is_there, t, c, names)
}
