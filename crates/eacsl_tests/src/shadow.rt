//! The shadow of a segment: records of blocks, and marks of bytes.

ghost use Rattle.std.specs.Prelude.{◌≡◌, ◌<◌};

use crate::same::made;
use c_syntax::BlockKind;
use raw_seg::steps::Steps;
use shadow_segments::{BlockNote, Shadow};
use std::marker::Brand;
use std::process::Abort;
use std::sync::ledger::{Blank, Ledger};

fn same_note(rt: &impl Abort, found: Option<BlockNote>, wanted: Option<BlockNote>) {
    assert_eq!(rt; found, wanted);
}

fn same_answers(rt: &impl Abort, found: [bool; 3], wanted: [bool; 3]) {
    assert_eq!(rt; found, wanted);
}

/// What a look-up finds, for a caller that counts nothing.
fn found<L: Ledger>(shadow: &Shadow, addr: u32, blank: Blank) -> Option<BlockNote>
    requires name { blank.name ≡ L.name }
    requires parts { blank.parts ≡ L.parts }
    requires some { 0 < blank.parts }
{
    let mut steps = Steps::<L>::new(blank);
    shadow.lookup(addr, &mut steps)
}

/// Whether all of these bytes are written, all are of pointers that are together, and none is a pointer's; for a caller that counts
/// nothing.
fn known<L: Ledger>(shadow: &Shadow, from: u32, to: u32, blank: Blank) -> [bool; 3]
    requires name { blank.name ≡ L.name }
    requires parts { blank.parts ≡ L.parts }
    requires some { 0 < blank.parts }
{
    let mut steps = Steps::<L>::new(blank);
    if from > to || to > shadow.len() {
        return [false; 3];
    }
    [
        shadow.all_written(from, to, &mut steps),
        shadow.all_pointer(from, to, &mut steps),
        shadow.no_pointer(from, to, &mut steps),
    ]
}

fn known_of(shadow: &Shadow, from: u32, to: u32) -> [bool; 3] {
    known::<Brand>(shadow, from, to, Blank::new(1))
}

/// A pointer is written here, if there is room.
fn write_pointer(shadow: &mut Shadow, at: u32) {
    let len = shadow.len();
    if at % 8 == 0 && len >= 8 && at <= len - 8 {
        shadow.set_pointer(at);
    }
}

/// Numbers are written here, if there is room.
fn write_numbers(shadow: &mut Shadow, from: u32, to: u32) {
    if from <= to && to <= shadow.len() {
        shadow.set_written(from, to);
    }
}

/// So many marks are copied, if there is room.
fn copy(shadow: &mut Shadow, from: u32, to: u32, n: u32) {
    let len = shadow.len();
    if n <= len && from <= len - n && to <= len - n {
        shadow.copy_marks(from, to, n);
    }
}

/// So many marks are copied from another shadow, if there is room.
fn take(shadow: &mut Shadow, other: &Shadow, from: u32, to: u32, n: u32) {
    let len = shadow.len();
    let other_len = other.len();
    if n <= len && n <= other_len && from <= other_len - n && to <= len - n {
        shadow.take_marks(other, from, to, n);
    }
}

#[test]
fn a_block_is_found_at_its_units(rt: HostRuntime) {
    let mut shadow = made(&rt, Shadow::new(rt.alloc(), 64));
    let note = BlockNote {
        base: 16,
        length: 16,
        number: 5,
        kind: BlockKind::Heap,
    };
    shadow.mark(note);
    let inside = found::<Brand>(&shadow, 32, Blank::new(1));
    same_note(&rt, inside, Some(note));
    let past = found::<Brand>(&shadow, 48, Blank::new(1));
    same_note(&rt, past, None);
}

#[test]
fn marks_are_set_and_copied(rt: HostRuntime) {
    let mut shadow = made(&rt, Shadow::new(rt.alloc(), 64));
    write_pointer(&mut shadow, 8);
    copy(&mut shadow, 8, 12, 8);
    same_answers(&rt, known_of(&shadow, 8, 20), [true, true, false]);
    same_answers(&rt, known_of(&shadow, 7, 9), [false; 3]);
    copy(&mut shadow, 12, 40, 4);
    same_answers(&rt, known_of(&shadow, 40, 44), [true, false, false]);
    write_numbers(&mut shadow, 8, 16);
    same_answers(&rt, known_of(&shadow, 8, 16), [true, false, true]);
    let mut other = made(&rt, Shadow::new(rt.alloc(), 64));
    take(&mut other, &shadow, 12, 30, 8);
    same_answers(&rt, known_of(&other, 30, 34), [true, false, true]);
    same_answers(&rt, known_of(&other, 34, 38), [true, true, false]);
    same_answers(&rt, known_of(&other, 38, 64), [false, false, true]);
}
