//! Zeros in bytes in a row, by stores that are as wide as they may be.

ghost use Rattle.std.specs.Prelude.{◌≡◌, ◌≤◌, ◌<◌, ◌+◌, IfOk, OnOk, nat_eq};
ghost use Rattle.c_syntax.specs.Layouts.{int_size};
ghost use Rattle.mon_syntax.specs.Trees.{plain_stmts};
ghost use Rattle.c_effects.specs.Expressions.{before};
ghost use Rattle.c_effects.specs.Effects.{may_stand, widest, zeros_from};
ghost use Rattle.c_effects.specs.Zeros.{goes_on, row_stored, row_with};

use crate::conversion::register_type;
use crate::slot::{Slot, farther_by, number_in};
use c_syntax::CInt;
use c_syntax::layout::int_size;
use mon_syntax::MonStmt;
use std::alloc::{AllocError, Global};

/// Zero bytes in a row of an object that aren't stored yet: the offset of the first one, and how many they are.
#[derive(Clone, Copy)]
pub struct Row {
    pub start: u64,
    pub count: u64,
}

// Whether so many bytes may be stored at once at an offset, of these that are left.
fn may_stand(offset: u64, left: u64, width: u64) -> bool
    requires { 0 < width }
    ensures { result ≡ may_stand offset left width }
{
    offset % width == 0 && width <= left
}

// The widest integer type that may be stored there.
fn widest(offset: u64, left: u64) -> CInt
    ensures { result ≡ widest offset left }
{
    if may_stand(offset, left, 8) {
        CInt::I64
    } else if may_stand(offset, left, 4) {
        CInt::I32
    } else if may_stand(offset, left, 2) {
        CInt::I16
    } else {
        CInt::I8
    }
}

/// Zeros in the bytes of a row, of which a register points to the object.
pub fn zeros_in(
    alloc: Global,
    slot: Slot,
    row: Row,
    to: &mut Vec<MonStmt>,
) -> Result<(), AllocError>
    ensures { OnOk result (plain_stmts to.new.items ≡ before (plain_stmts to.old.items) (zeros_from slot.object slot.pointer row.start 0 row.count)) }
{
    let Slot {
        object,
        pointer,
        ..
    } = slot;
    let mut offset = row.start;
    let mut left = row.count;
    'stores: while 0 < left {
        let k = widest(offset, left);
        let part = Slot {
            object,
            pointer,
            offset,
        };
        number_in(alloc, part, register_type(k), 0, to)?;
        let width = u64::from(int_size(k));
        offset = farther_by(offset, width)?;
        left -= width;
    }
    Ok(())
}

// Whether the byte at an offset is the next one of a row.
fn goes_on(row: Row, offset: u64) -> Result<bool, AllocError>
    ensures { IfOk result (λ on. on ≡ goes_on row offset) }
{
    let end = farther_by(row.start, row.count)?;
    Ok(offset == end)
}

/// The row with so many bytes more. Where they aren't its next ones it is stored, and they begin another.
#[tactic(auto, using(crate::proofs::Sequences::before_none))]
pub fn lengthened(
    alloc: Global,
    slot: Slot,
    row: Row,
    offset: u64,
    size: u64,
    to: &mut Vec<MonStmt>,
) -> Result<Row, AllocError>
    ensures code { OnOk result (plain_stmts to.new.items ≡ before (plain_stmts to.old.items) (row_stored slot row offset)) }
    ensures row { IfOk result (λ after. after ≡ row_with row offset size) }
{
    if goes_on(row, offset)? {
        let count = farther_by(row.count, size)?;
        Ok(Row {
            start: row.start,
            count,
        })
    } else {
        zeros_in(alloc, slot, row, to)?;
        Ok(Row {
            start: offset,
            count: size,
        })
    }
}
