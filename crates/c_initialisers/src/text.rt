//! The bytes of a string literal that initialises an array of characters (C99 6.7.8 p14).

ghost use Rattle.std.specs.Prelude.{◌≡◌, ◌+◌, ◌-◌, OnOk, map, option_map};
ghost use Rattle.c_syntax.specs.Programs.{StringLiteral, plain_text};
ghost use Rattle.c_model.specs.Meaning.{text_at};
ghost use Rattle.mon_syntax.specs.Trees.{plain_stmts};
ghost use Rattle.c_effects.specs.Expressions.{before};
ghost use Rattle.c_initialisers.specs.Initialisers.{bytes_in, next_byte};

use c_effects::slot::{Slot, farther_by, number_in};
use c_effects::zeros::{Row, zeros_in};
use c_syntax::Text;
use mon_syntax::{MonStmt, MonType};
use std::alloc::{AllocError, Global};

/// The bytes of a string literal, none where there is no literal of the number.
pub fn text_at(texts: &[Text], number: u32) -> &[u8]
    ensures { result.now ≡ text_at (map (λ (x : StringLiteral). x.bytes) (map plain_text texts.now)) number }
{
    match texts.get(number as usize) {
        Some(text) => text.bytes.bytes(),
        None => &[],
    }
}

// The first byte and those after it, where one is left of so many.
fn next_byte(left: u64, bytes: &[u8]) -> Option<(u8, &[u8])>
    ensures { option_map (λ x. (x.0, x.1.now)) result ≡ next_byte left bytes.now }
{
    if left == 0 {
        return None;
    }
    match bytes {
        [] => None,
        [byte, after @ ..] => Some((*byte, after)),
    }
}

/// Stores bytes one by one, and then zeros, so many in all (C99 6.7.8 p14).
pub fn bytes_in(
    alloc: Global,
    slot: Slot,
    count: u64,
    bytes: &[u8],
    to: &mut Vec<MonStmt>,
) -> Result<(), AllocError>
    ensures { OnOk result (plain_stmts to.new.items ≡ before (plain_stmts to.old.items) (bytes_in slot count bytes.now)) }
{
    let Slot {
        object,
        pointer,
        ..
    } = slot;
    let mut offset = slot.offset;
    let mut left = count;
    let mut rest = bytes;
    'bytes: while let Some((byte, after)) = next_byte(left, rest) {
        let part = Slot {
            object,
            pointer,
            offset,
        };
        number_in(alloc, part, MonType::U8, byte, to)?;
        offset = farther_by(offset, 1)?;
        left -= 1;
        rest = after;
    }
    let row = Row {
        start: offset,
        count: left,
    };
    zeros_in(alloc, slot, row, to)
}
