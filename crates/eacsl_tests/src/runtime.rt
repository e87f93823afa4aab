//! The memory of a run, by the calls of the runtime.

ghost use Rattle.std.specs.Prelude.{◌≡◌};
ghost use Rattle.flat_mem.specs.Room.{IsSizes};

use crate::same::{made, same_number};
use block_runtime::{RunFault, Runtime};
use c_syntax::{BlockKind, Segment};
use flat_mem::Sizes;
use std::process::Abort;

fn same_place(rt: &impl Abort, found: (u128, i128, i128), wanted: (u128, i128, i128)) {
    assert_eq!(rt; found, wanted);
}

/// Regions of four units each.
fn small() -> Sizes
    ensures sizes { IsSizes result }
    ensures globals { result.globals ≡ 64 }
{
    Sizes {
        globals: 64,
        stack: 64,
        heap: 64,
        frames: 2,
    }
}

/// The pointer, or 1 to 3 by what is full, or 4 for a fault.
fn pointer_of(answer: Result<u64, RunFault>) -> u64 {
    match answer {
        Ok(p) => p,
        Err(RunFault::Full(Segment::Numbers)) => 1,
        Err(RunFault::Full(Segment::Stack)) => 2,
        Err(RunFault::Full(_)) => 3,
        Err(RunFault::Fault) => 4,
    }
}

/// Whether a call went well.
fn went(answer: Result<(), RunFault>) -> bool {
    answer.is_ok()
}

/// The number that is loaded, or the greatest one for a fault.
fn loaded(memory: &Runtime, p: u64) -> u128 {
    match memory.load(p, 8) {
        Ok(value) => value,
        Err(_) => u128::MAX,
    }
}

/// What is known of the eight bytes at a place, in digits: valid, readable, written, a number, a pointer.
fn known(memory: &Runtime, p: u64) -> u128 {
    let answers = [
        memory.valid(p, 0, 8, 8),
        memory.valid_read(p, 0, 8, 8),
        memory.initialized(p, 0, 8, 1),
        memory.number(p, 0, 8),
        memory.pointer(p, 0),
    ];
    let mut digits: u128 = 0;
    for answer in answers {
        let digit = if answer == Ok(1) { 1 } else { 0 };
        digits = digits.wrapping_mul(10).wrapping_add(digit);
    }
    digits
}

/// Where a place lies in its block: the block's start, its length, and the offset.
fn place_of(memory: &Runtime, p: u64, o: i128) -> (u128, i128, i128) {
    let start = match memory.base_addr(p, o) {
        Ok(start) => u128::from(start),
        Err(_) => 1,
    };
    let length = match memory.block_length(p, o) {
        Ok(length) => i128::from(length),
        Err(_) => -1,
    };
    let offset = match memory.offset(p, o) {
        Ok(offset) => i128::from(offset),
        Err(_) => -1,
    };
    (start, length, offset)
}

const ON_STACK: u64 = 0x0000_0001_4000_0000;

#[test]
fn a_stack_block_lives_and_dies(rt: HostRuntime) {
    let mut memory = made(&rt, Runtime::new(rt.alloc(), small()));
    let p = pointer_of(memory.store_block(40));
    same_number(&rt, u128::from(p), u128::from(ON_STACK));
    same_number(&rt, u128::from(pointer_of(memory.store_block(16))), 2);
    same_number(&rt, known(&memory, ON_STACK), 11000);
    same_number(
        &rt,
        u128::from(went(memory.store(ON_STACK, 8, 5, false))),
        1,
    );
    same_number(&rt, known(&memory, ON_STACK), 11110);
    same_number(&rt, loaded(&memory, ON_STACK), 5);
    same_number(
        &rt,
        u128::from(went(memory.store(ON_STACK, 8, 0x0102, true))),
        1,
    );
    same_number(&rt, known(&memory, ON_STACK), 11101);
    same_number(
        &rt,
        u128::from(went(memory.store(ON_STACK, 1, 3, false))),
        1,
    );
    same_number(&rt, known(&memory, ON_STACK), 11100);
    same_number(&rt, loaded(&memory, ON_STACK), 0x0103);
    same_number(&rt, known(&memory, ON_STACK.wrapping_add(0x1_0000_0000)), 0);
    same_number(&rt, u128::from(went(memory.delete_block(ON_STACK))), 1);
    same_number(&rt, known(&memory, ON_STACK), 0);
    same_number(&rt, u128::from(went(memory.delete_block(ON_STACK))), 0);
}

const FIRST: u64 = 0x0000_0001_8000_0000;

const SECOND: u64 = 0x0000_0002_8000_0020;

#[test]
fn places_on_the_heap_are_used_again(rt: HostRuntime) {
    let mut memory = made(&rt, Runtime::new(rt.alloc(), small()));
    same_number(
        &rt,
        u128::from(pointer_of(memory.malloc(16))),
        u128::from(FIRST),
    );
    same_number(
        &rt,
        u128::from(pointer_of(memory.calloc(3, 5))),
        u128::from(SECOND),
    );
    same_number(&rt, u128::from(pointer_of(memory.malloc(16))), 3);
    same_number(&rt, u128::from(pointer_of(memory.calloc(u64::MAX, 2))), 3);
    same_number(&rt, known(&memory, SECOND), 11111);
    same_place(
        &rt,
        place_of(&memory, SECOND.wrapping_add(3), 12),
        (u128::from(SECOND), 15, 15),
    );
    same_place(&rt, place_of(&memory, SECOND, 16), (0, 0, 0));
    same_number(&rt, u128::from(went(memory.free(FIRST))), 1);
    same_number(&rt, u128::from(went(memory.free(FIRST))), 0);
    same_number(
        &rt,
        u128::from(pointer_of(memory.malloc(31))),
        0x0000_0003_8000_0000,
    );
    same_number(&rt, u128::from(pointer_of(memory.malloc(0))), 0);
    same_number(&rt, u128::from(went(memory.free(0))), 1);
}

const LITERAL: u64 = 0x0000_0001_1000_0000;

const COPY: u64 = 0x0000_0002_4000_0000;

/// The answer of a question, or 2.
fn told(answer: Result<i32, RunFault>) -> u128 {
    match answer {
        Ok(1) => 1,
        Ok(0) => 0,
        _ => 2,
    }
}

#[test]
fn a_literal_is_read_and_copied(rt: HostRuntime) {
    let mut memory = made(&rt, Runtime::new(rt.alloc(), small()));
    same_number(
        &rt,
        u128::from(pointer_of(memory.begin(BlockKind::Literal, 3, b"ab"))),
        u128::from(LITERAL),
    );
    same_number(&rt, told(memory.valid(LITERAL, 0, 3, 1)), 0);
    same_number(&rt, told(memory.valid_read(LITERAL, 0, 3, 1)), 1);
    same_number(
        &rt,
        u128::from(memory.print_str(LITERAL, 1).unwrap_or(0)),
        98,
    );
    same_number(
        &rt,
        u128::from(memory.print_str(LITERAL, 64).unwrap_or(1)),
        1,
    );
    same_number(
        &rt,
        u128::from(pointer_of(memory.store_block(8))),
        u128::from(COPY),
    );
    same_number(&rt, u128::from(went(memory.copy(COPY, LITERAL, 2))), 1);
    same_number(&rt, loaded(&memory, COPY), 0x6261);
    same_number(&rt, told(memory.initialized(COPY, 0, 2, 1)), 1);
    same_number(&rt, told(memory.initialized(COPY, 0, 3, 1)), 0);
    same_number(&rt, told(memory.separated(COPY, 0, 3, COPY, 3, 1)), 1);
    same_number(&rt, told(memory.separated(COPY, 0, 4, COPY, 3, 1)), 0);
    same_number(&rt, told(memory.inside(COPY, 8)), 1);
}

#[test]
fn frames_are_at_most_so_many(rt: HostRuntime) {
    let mut memory = made(&rt, Runtime::new(rt.alloc(), small()));
    let mut entered: u128 = 0;
    for _call in 0..4 {
        if went(memory.enter_frame()) {
            entered = entered.saturating_add(1);
        }
    }
    memory.leave_frame();
    same_number(&rt, entered, 2);
    same_number(&rt, u128::from(went(memory.enter_frame())), 1);
}
