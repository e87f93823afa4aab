//! Stores into the parts of an object that is initialised (C99 6.7.8).

ghost use Rattle.std.specs.Prelude.{◌≡◌, ◌+◌, IfOk, OnOk, pos};
ghost use Rattle.mon_syntax.specs.Trees.{Constant, plain_expr, plain_stmts};
ghost use Rattle.c_effects.specs.Expressions.{before};
ghost use Rattle.c_effects.specs.Slots.{stored_in};

use crate::operator::{constant, farther, register};
use crate::part::then;
use mon_syntax::{MonExpr, MonStmt, MonStmtKind, MonType};
use std::alloc::{AllocError, Global};

/// Where a part of an object is stored: so many bytes from where one register points. Another register is there to point
/// to the part.
#[derive(Clone, Copy)]
pub struct Slot {
    pub object: u32,
    pub pointer: u32,
    pub offset: u64,
}

/// An object, or a part of one: so many bytes from where a register points.
#[derive(Clone, Copy)]
pub struct Part {
    pub object: u32,
    pub offset: u64,
}

/// So many bytes farther. No memory holds an object whose bytes 64 bits don't count.
pub fn farther_by(offset: u64, distance: u64) -> Result<u64, AllocError>
    ensures { IfOk result (λ sum. sum ≡ offset + distance) }
{
    offset.checked_add(distance).ok_or(AllocError)
}

/// Stores a value of the type.
#[tactic(auto, using(crate::proofs::Sequences::before_assoc))]
pub fn store_in(
    alloc: Global,
    slot: Slot,
    t: MonType,
    value: MonExpr,
    to: &mut Vec<MonStmt>,
) -> Result<(), AllocError>
    ensures { OnOk result (plain_stmts to.new.items ≡ before (plain_stmts to.old.items) (stored_in slot t (plain_expr value))) }
{
    let start = register(alloc, slot.object)?;
    let pointer = farther(alloc, start, slot.offset)?;
    then(alloc, to, MonStmtKind::Set(slot.pointer, pointer))?;
    then(alloc, to, MonStmtKind::Store(slot.pointer, t, value))
}

/// Stores a number of the type.
pub fn number_in(
    alloc: Global,
    slot: Slot,
    t: MonType,
    n: u8,
    to: &mut Vec<MonStmt>,
) -> Result<(), AllocError>
    ensures { OnOk result (plain_stmts to.new.items ≡ before (plain_stmts to.old.items) (stored_in slot t (Constant t (pos n)))) }
{
    let value = constant(alloc, t, i128::from(n))?;
    store_in(alloc, slot, t, value, to)
}
