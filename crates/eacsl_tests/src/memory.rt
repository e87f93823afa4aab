//! Births in flat memory, regions of bytes, and places in the heap.

ghost use Rattle.std.specs.Prelude.{◌≡◌, ◌+◌, ◌%◌, ◌<◌, ◌≤◌, Some, length};
ghost use Rattle.flat_mem.specs.Room.{IsSizes};

use crate::same::{made, same_bytes, same_number};
use c_syntax::{BlockKind, Segment};
use flat_mem::{BirthFault, FlatMem, Sizes};
use raw_seg::Seg;
use raw_seg::steps::Steps;
use seg_heap::Placer;
use std::marker::Brand;
use std::process::Abort;
use std::sync::ledger::{Blank, Ledger};

/// The sizes of the profile.
fn standard() -> Sizes
    ensures { IsSizes result }
{
    Sizes {
        globals: 1_048_576,
        stack: 1_048_576,
        heap: 16_777_216,
        frames: 65_536,
    }
}

/// The pointers to blocks that are born on the stack with these lengths, 1 where no number is left and 2 where there is no room.
fn births(memory: &mut FlatMem, lengths: [u64; 4]) -> [u64; 4] {
    let mut pointers = [0; 4];
    for i in 0..4 {
        pointers[i] = match memory.birth(BlockKind::Stack, lengths[i]) {
            Ok(pointer) => pointer,
            Err(BirthFault::Full(Segment::Numbers)) => 1,
            Err(BirthFault::Full(Segment::Stack)) => 2,
            Err(_) => 3,
        };
    }
    pointers
}

fn same_pointers(rt: &impl Abort, found: [u64; 4], wanted: [u64; 4]) {
    assert_eq!(rt; found, wanted);
}

fn place_of(rt: &impl Abort, found: Option<u32>) -> u32
    ensures { found ≡ Some result }
{
    match found {
        Some(place) => place,
        None => panic!(rt; "full"),
    }
}

fn is_place(rt: &impl Abort, found: Option<u32>, wanted: Option<u32>) {
    assert_eq!(rt; found, wanted);
}

#[test]
fn blocks_are_born_while_there_is_room(rt: HostRuntime) {
    let mut numbers = made(&rt, FlatMem::new(rt.alloc(), standard(), 4_294_967_294));
    same_pointers(
        &rt,
        births(&mut numbers, [4, 4, 4, 4]),
        [0xFFFF_FFFF_4000_0000, 1, 1, 1],
    );
    let mut stack = made(&rt, FlatMem::new(rt.alloc(), standard(), 0));
    let most = 18_446_744_073_709_551_615;
    let pointers = births(&mut stack, [1_048_560 - 16, 16, 15, most]);
    same_pointers(
        &rt,
        pointers,
        [0x0000_0001_4000_0000, 2, 0x0000_0002_400F_FFF0, 2],
    );
    same_number(&rt, u128::from(stack.stack_end()), 0x4000_0000 + 1_048_576);
}

/// The pointer, or 0.
fn born(answer: Result<u64, BirthFault>) -> u128 {
    match answer {
        Ok(pointer) => u128::from(pointer),
        Err(_) => 0,
    }
}

#[test]
fn a_number_is_saved_by_its_address(rt: HostRuntime) {
    let mut memory = made(&rt, FlatMem::new(rt.alloc(), standard(), 7));
    same_number(
        &rt,
        born(memory.birth(BlockKind::Heap, 15)),
        0x0000_0008_8000_0000,
    );
    let saved = [
        memory.save(0x8000_0000, 4, 0x01020304),
        memory.save(0x8000_0002, 4, 5),
        memory.save(0x7FFF_FFF8, 8, 5),
        memory.save_pointer(0x8000_0008, 0x0102),
    ];
    assert_eq!(&rt; saved, [true, false, false, true]);
    same_number(
        &rt,
        memory.load(0x8000_0000, 16).unwrap_or(0),
        0x0102_0000_0000_0102_0304,
    );
}

#[test]
fn frames_are_counted(rt: HostRuntime) {
    let sizes = Sizes {
        frames: 2,
        ..standard()
    };
    let mut memory = made(&rt, FlatMem::new(rt.alloc(), sizes, 0));
    let mut entered: u128 = 0;
    for _call in 0..4 {
        if memory.enter_frame() == Ok(()) {
            entered = entered.saturating_add(1);
        }
    }
    same_number(&rt, entered, 2);
}

#[test]
fn a_region_stores_its_own_bytes(rt: HostRuntime) {
    let mut seg = made(&rt, Seg::new(rt.alloc(), 32));
    same_number(&rt, seg.len() as u128, 32);
    seg.store(8, 4, 0x01020304);
    same_number(&rt, seg.load(8, 1), 4);
    same_number(&rt, seg.load(10, 2), 0x0102);
    same_number(&rt, seg.load(0, 8), 0);
    seg.store(16, 16, 0x0102030405060708090a0b0c0d0e0f10);
    same_number(&rt, seg.load(16, 16), 0x0102030405060708090a0b0c0d0e0f10);
    same_number(&rt, seg.load(24, 8), 0x0102030405060708);
    seg.store(12, 2, 0x12345);
    same_number(&rt, seg.load(8, 8), 0x2345_0102_0304);
}

/// The word from a place on, for a caller that counts nothing.
fn word_of<L: Ledger>(seg: &Seg, at: usize, blank: Blank) -> u64
    requires aligned { at % 8 ≡ 0 }
    requires inside { at + 8 ≤ length seg.now }
    requires name { blank.name ≡ L.name }
    requires parts { blank.parts ≡ L.parts }
    requires some { 0 < blank.parts }
{
    let mut steps = Steps::<L>::new(blank);
    seg.word(at, &mut steps)
}

#[test]
fn a_region_is_filled_and_copied(rt: HostRuntime) {
    let mut seg = made(&rt, Seg::new(rt.alloc(), 80));
    seg.fill(3, 75, 7);
    seg.set_word(8, 0x0807060504030201);
    let word = word_of::<Brand>(&seg, 8, Blank::new(1));
    same_number(&rt, u128::from(word), 0x0807060504030201);
    same_number(&rt, seg.load(0, 8), 0x0707070707000000);
    same_number(&rt, seg.load(72, 8), 0x070707);
    let mut copy = [0; 6];
    seg.copy_out(12, &mut copy);
    same_bytes(&rt, &copy, &[5, 6, 7, 8, 7, 7]);
}

#[test]
fn a_block_takes_the_least_place(rt: HostRuntime) {
    let mut placer = made(&rt, Placer::new(rt.alloc(), 4));
    let first = place_of(&rt, placer.take(15));
    same_number(&rt, u128::from(first), 0);
    is_place(&rt, placer.take(16), Some(16));
    is_place(&rt, placer.take(16), None);
    placer.give(first);
    is_place(&rt, placer.take(0), Some(0));
    is_place(&rt, placer.take(15), Some(48));
    is_place(&rt, placer.take(0), None);
}

#[test]
fn gaps_are_filled(rt: HostRuntime) {
    let mut placer = made(&rt, Placer::new(rt.alloc(), 8));
    is_place(&rt, placer.take(15), Some(0));
    let second = place_of(&rt, placer.take(31));
    same_number(&rt, u128::from(second), 16);
    is_place(&rt, placer.take(15), Some(48));
    is_place(&rt, placer.take(16), Some(64));
    placer.give(second);
    is_place(&rt, placer.take(15), Some(16));
    is_place(&rt, placer.take(16), Some(96));
    is_place(&rt, placer.take(0), Some(32));
    is_place(&rt, placer.take(0), None);
}
