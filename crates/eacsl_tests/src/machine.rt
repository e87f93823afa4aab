//! Runs of code on sources and sinks that fail, and of code that no valid program has.

use crate::monitored::{add, code_of, code_of_body, constant, value};
use crate::same::{made, same_bytes, same_number, same_numbers};
use c_lower::{Code, lower};
use c_machine::{Stop, run};
use c_syntax::Segment;
use ea_ports::{Failed, MemSink, MemSource, Source};
use mon_syntax::{
    AccessSize, MemoryCall, MonExpr, MonExprKind, MonOp, MonProgram, MonStmt, MonStmtKind, MonType,
};
use std::process::Abort;

/// What a run came to: how it ended, the steps left, what was written, and what the source gives then.
#[derive(Drop)]
struct Done {
    stop: Stop,
    left: u64,
    output: Vec<u8>,
    next: u8,
}

fn next_byte(input: &mut MemSource) -> u8 {
    match input.next() {
        Ok(Some(byte)) => byte,
        Ok(None) => b'-',
        Err(Failed) => b'!',
    }
}

/// Runs code on the input "ab", where the source fails at this call and the sink at that one.
fn ran_on(
    rt: &(impl Abort + AllocGlobal),
    code: &Code,
    steps: u64,
    failing_read: u32,
    failing_put: u32,
) -> Done {
    let alloc = rt.alloc();
    let bytes = made(rt, b"ab".to_vec(alloc));
    let mut input = MemSource::new(bytes, made(rt, [failing_read].to_vec(alloc)));
    let mut out = MemSink::new(alloc, made(rt, [failing_put].to_vec(alloc)));
    let ran = run(alloc, code, steps, &mut input, &mut out);
    Done {
        stop: ran.stop,
        left: ran.left,
        output: made(rt, out.bytes().to_vec(alloc)),
        next: next_byte(&mut input),
    }
}

/// Runs code where no port fails.
fn plainly(rt: &(impl Abort + AllocGlobal), code: &Code, steps: u64) -> Done {
    ran_on(rt, code, steps, 9, 9)
}

/// An end as a word, with the value of an exit.
fn end_word(stop: Stop) -> (&'static str, i128) {
    match stop {
        Stop::Exit(value) => ("exit", value),
        Stop::Broken { .. } => ("broken", 0),
        Stop::Spent => ("spent", 0),
        Stop::Full(Segment::Stack) => ("full stack", 0),
        Stop::Full(Segment::Frames) => ("full frames", 0),
        Stop::Full(_) => ("full", 0),
        Stop::Fault => ("fault", 0),
        Stop::ReadFault => ("read fault", 0),
        Stop::WriteFault => ("write fault", 0),
        Stop::OutOfMemory => ("memory", 0),
    }
}

fn ends_so(rt: &impl Abort, found: Stop, word: &str, value: i128) {
    let (found_word, found_value) = end_word(found);
    same_bytes(rt, found_word.as_bytes(), word.as_bytes());
    same_numbers(rt, (found_value, 0), (value, 0));
}

fn leaves(rt: &impl Abort, done: &Done, left: u64) {
    same_number(rt, u128::from(done.left), u128::from(left));
}

/// Compares what code comes to where no port fails: how it ends, the steps left, and what it writes.
pub fn comes_to(
    rt: &(impl Abort + AllocGlobal),
    code: &Code,
    steps: u64,
    end: (&str, i128),
    left: u64,
    output: &[u8],
) {
    let whole = plainly(rt, code, steps);
    ends_so(rt, whole.stop, end.0, end.1);
    leaves(rt, &whole, left);
    same_bytes(rt, &whole.output, output);
}

/// Compares what a text comes to where no port fails.
fn runs(
    rt: &(impl Abort + AllocGlobal),
    text: &str,
    steps: u64,
    end: (&str, i128),
    left: u64,
    output: &[u8],
) {
    comes_to(rt, &code_of(rt, text), steps, end, left, output);
}

const COUNTS: &str =
    "#include <e_acsl.h>\ni32 main(void) { i32 x; { while (1) { if ((x < I32(3))) { } else { goto end; } \
     __e_acsl_step(); x = (x + I32(1)); } } end: ; __e_acsl_print_i64(((i64)x)); return I32(7); }";

const ENDLESS: &str = "#include <e_acsl.h>\ni32 main(void) { f(); } i32 f(void) { f(); }";

const SUM: &str =
    "#include <e_acsl.h>\ni32 f(i32 n) { i32 m; if (n) { m = f((n - I32(1))); return (n + m); } else { } return n; } \
     i32 main(void) { i32 x; x = f(I32(5)); __e_acsl_print_i64(((i64)x)); return I32(0); }";

#[test]
fn steps_are_counted(rt: HostRuntime) {
    runs(&rt, COUNTS, 100, ("exit", 7), 97, b"3");
    runs(&rt, COUNTS, 2, ("spent", 0), 0, b"");
    runs(&rt, ENDLESS, 70000, ("full frames", 0), 4464, b"");
    runs(&rt, SUM, 100, ("exit", 0), 94, b"15");
}

/// Compares what a run of 5,000 steps comes to, each of which writes a byte, where a call of the sink fails.
fn writes(rt: &(impl Abort + AllocGlobal), failing_put: u32, word: &str, length: u128) {
    let text =
        "#include <e_acsl.h>\ni32 main(void) { while (1) { __e_acsl_step(); __e_acsl_print_text(\"x\"); } }";
    let code = code_of(rt, text);
    let written = ran_on(rt, &code, 5000, 9, failing_put);
    ends_so(rt, written.stop, word, 0);
    leaves(rt, &written, 0);
    same_number(rt, written.output.len() as u128, length);
}

#[test]
fn output_is_put_in_pieces(rt: HostRuntime) {
    writes(&rt, 9, "spent", 5000);
    writes(&rt, 2, "write fault", 4096);
    writes(&rt, 1, "write fault", 0);
}

/// Compares what a run comes to that writes its input, "ab", up to the end, reads once more, and writes that number; and what the
/// source gives then, `-` for its end. These calls of the source and of the sink fail.
fn copies(
    rt: &(impl Abort + AllocGlobal),
    failing: (u32, u32),
    word: &str,
    left: u64,
    output: &[u8],
    next: u8,
) {
    let text =
        "#include <e_acsl.h>\ni32 main(void) { i32 c; { while (1) { c = getchar(); if ((c != I32(-1))) { } else { goto end; } \
                __e_acsl_step(); putchar(c); } } end: ; c = getchar(); __e_acsl_print_i64(((i64)c)); return I32(0); }";
    let code = code_of(rt, text);
    let copied = ran_on(rt, &code, 100, failing.0, failing.1);
    ends_so(rt, copied.stop, word, 0);
    same_number(rt, u128::from(copied.left), u128::from(left));
    same_bytes(rt, &copied.output, output);
    same_number(rt, u128::from(copied.next), u128::from(next));
}

#[test]
fn the_source_is_asked_up_to_its_end(rt: HostRuntime) {
    // Asked once more after the end, the source would fail at the test's own call, the fifth then.
    copies(&rt, (5, 9), "exit", 98, b"ab-1", b'-');
    copies(&rt, (2, 9), "read fault", 99, b"a", b'b');
    // The sink refuses what waits.
    copies(&rt, (2, 1), "write fault", 0, b"", b'b');
}

#[test]
fn code_without_main_faults(rt: HostRuntime) {
    let globals = Vec::new(rt.alloc());
    let functions = Vec::new(rt.alloc());
    let code = made(&rt, lower(rt.alloc(), &MonProgram { globals, functions }));
    comes_to(&rt, &code, 5, ("fault", 0), 5, b"");
}

/// `__e_acsl_store_block` or `__e_acsl_delete_block` with an argument, whose value goes to this register.
fn act(
    rt: &(impl Abort + AllocGlobal),
    body: &mut Vec<MonStmt>,
    into: Option<u32>,
    call: MemoryCall,
    argument: MonExpr,
) {
    let arguments = made(rt, vec![in rt.alloc(); argument]);
    add(rt, body, MonStmtKind::Act(into, call, arguments));
}

/// `p = __e_acsl_store_block(SIZE);`, where `p` is register 0, and `__e_acsl_print_i64(p);`.
fn store(rt: &(impl Abort + AllocGlobal), body: &mut Vec<MonStmt>, size: i128) {
    let size = constant(rt, MonType::U64, size);
    act(rt, body, Some(0), MemoryCall::StoreBlock, size);
    add(rt, body, MonStmtKind::PrintSigned(value(rt, 0)));
}

#[test]
fn a_block_stands_where_the_one_before_stood(rt: HostRuntime) {
    // A `ptr` is printed in no valid program.
    let mut body = Vec::new(rt.alloc());
    store(&rt, &mut body, 4);
    let pointer = value(&rt, 0);
    act(&rt, &mut body, None, MemoryCall::DeleteBlock, pointer);
    store(&rt, &mut body, 16);
    store(&rt, &mut body, 1);
    let code = code_of_body(&rt, body);
    let output = b"5368709120966367641613958643744";
    comes_to(&rt, &code, 100, ("exit", 0), 100, output);
}

/// Compares how a run ends that stores or deletes a block with a constant as its only argument.
fn acts(
    rt: &(impl Abort + AllocGlobal),
    call: MemoryCall,
    kind: MonType,
    argument: i128,
    word: &str,
) {
    let mut body = Vec::new(rt.alloc());
    act(rt, &mut body, None, call, constant(rt, kind, argument));
    comes_to(rt, &code_of_body(rt, body), 100, (word, 0), 100, b"");
}

#[test]
fn blocks_of_no_valid_program(rt: HostRuntime) {
    let store = MemoryCall::StoreBlock;
    acts(&rt, store, MonType::U64, 1, "exit");
    // A size is the lowest 64 bits of a value.
    acts(&rt, store, MonType::I32, -1, "full stack");
    acts(&rt, store, MonType::I128, 1 << 64, "exit");
    acts(&rt, MemoryCall::DeleteBlock, MonType::I32, 0, "fault");
}

#[test]
fn a_block_has_one_size(rt: HostRuntime) {
    let mut sizes = made(&rt, vec![in rt.alloc(); constant(&rt, MonType::U64, 1)]);
    made(&rt, sizes.push(constant(&rt, MonType::U64, 1)));
    let mut body = Vec::new(rt.alloc());
    let stored = MonStmtKind::Act(None, MemoryCall::StoreBlock, sizes);
    add(&rt, &mut body, stored);
    comes_to(&rt, &code_of_body(&rt, body), 100, ("fault", 0), 100, b"");
}

/// Compares what a run prints that prints an expression.
fn prints(rt: &(impl Abort + AllocGlobal), e: MonExpr, wanted: &[u8]) {
    let mut body = Vec::new(rt.alloc());
    add(rt, &mut body, MonStmtKind::PrintSigned(e));
    comes_to(rt, &code_of_body(rt, body), 100, ("exit", 0), 100, wanted);
}

/// Compares what an operator gives on two numbers of a type, as it is printed.
fn computes(
    rt: &(impl Abort + AllocGlobal),
    op: MonOp,
    kind: MonType,
    operands: (i128, i128),
    wanted: &[u8],
) {
    let left = constant(rt, kind, operands.0);
    let right = constant(rt, kind, operands.1);
    let e = MonExpr::new(rt.alloc(), MonExprKind::Binary(op, kind, left, right));
    prints(rt, made(rt, e), wanted);
}

#[test]
fn operators_of_types_that_no_valid_program_computes_in(rt: HostRuntime) {
    computes(&rt, MonOp::And, MonType::I16, (-2, 7), b"6");
    computes(&rt, MonOp::Or, MonType::I16, (-8, 3), b"-5");
    computes(&rt, MonOp::Xor, MonType::I16, (-1, 5), b"-6");
    computes(&rt, MonOp::Ge, MonType::I8, (4, 4), b"1");
    computes(&rt, MonOp::Ne, MonType::I8, (4, 4), b"0");
}

#[test]
fn a_narrow_number_is_negated_and_flipped(rt: HostRuntime) {
    let number = constant(&rt, MonType::I8, 65);
    let minus = MonExpr::new(rt.alloc(), MonExprKind::Minus(MonType::I8, number));
    let flip = MonExprKind::Flip(MonType::I8, made(&rt, minus));
    prints(&rt, made(&rt, MonExpr::new(rt.alloc(), flip)), b"64");
}

#[test]
fn a_register_that_is_not_there_faults(rt: HostRuntime) {
    let mut body = Vec::new(rt.alloc());
    add(&rt, &mut body, MonStmtKind::Exit(value(&rt, 2)));
    comes_to(&rt, &code_of_body(&rt, body), 100, ("fault", 0), 100, b"");
}

/// `*(t *)p = t(VALUE);`, where `p` is register 0, and `__e_acsl_print_i64((*(t *)p));`.
fn keep(rt: &(impl Abort + AllocGlobal), body: &mut Vec<MonStmt>, kind: MonType, number: i128) {
    let number = constant(rt, kind, number);
    add(rt, body, MonStmtKind::Store(0, kind, number));
    let kept = MonExpr::new(rt.alloc(), MonExprKind::Load(kind, value(rt, 0)));
    add(rt, body, MonStmtKind::PrintSigned(made(rt, kept)));
}

#[test]
fn a_number_is_read_as_it_was_stored(rt: HostRuntime) {
    let mut body = Vec::new(rt.alloc());
    let size = constant(&rt, MonType::U64, 16);
    act(&rt, &mut body, Some(0), MemoryCall::StoreBlock, size);
    keep(&rt, &mut body, MonType::U8, 200);
    keep(&rt, &mut body, MonType::I16, -2);
    keep(&rt, &mut body, MonType::U32, 4_294_967_295);
    keep(&rt, &mut body, MonType::I64, -3);
    keep(&rt, &mut body, MonType::I128, -4);
    keep(&rt, &mut body, MonType::Ptr, 5);
    let code = code_of_body(&rt, body);
    comes_to(&rt, &code, 100, ("exit", 0), 100, b"200-24294967295-3-45");
}

/// `R = __e_acsl_number(p, I64(OFFSET), 4);`, where `p` is register 0 and `R` is register 1, and `__e_acsl_print_i64(R);`.
fn ask(rt: &(impl Abort + AllocGlobal), body: &mut Vec<MonStmt>, offset: i128) {
    let mut arguments = made(rt, vec![in rt.alloc(); value(rt, 0)]);
    made(rt, arguments.push(constant(rt, MonType::I64, offset)));
    let call = MemoryCall::Number(AccessSize::Four);
    add(rt, body, MonStmtKind::Act(Some(1), call, arguments));
    add(rt, body, MonStmtKind::PrintSigned(value(rt, 1)));
}

#[test]
fn a_question_is_answered_by_marks(rt: HostRuntime) {
    let mut body = Vec::new(rt.alloc());
    let size = constant(&rt, MonType::U64, 8);
    act(&rt, &mut body, Some(0), MemoryCall::StoreBlock, size);
    ask(&rt, &mut body, 0);
    let number = constant(&rt, MonType::I32, 7);
    add(&rt, &mut body, MonStmtKind::Store(0, MonType::I32, number));
    ask(&rt, &mut body, 0);
    ask(&rt, &mut body, 4);
    ask(&rt, &mut body, 8);
    let code = code_of_body(&rt, body);
    comes_to(&rt, &code, 100, ("exit", 0), 100, b"0100");
}

#[test]
fn a_store_at_null_faults(rt: HostRuntime) {
    let mut body = Vec::new(rt.alloc());
    let number = constant(&rt, MonType::I32, 7);
    add(&rt, &mut body, MonStmtKind::Store(0, MonType::I32, number));
    comes_to(&rt, &code_of_body(&rt, body), 100, ("fault", 0), 100, b"");
}
