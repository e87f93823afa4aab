//! Runs of code by forms and instruction by instruction, which come to the same.

use crate::monitored::code_of;
use crate::same::{made, same_bytes};
use c_lower::Code;
use c_machine::{Ran, run, run_plainly};
use ea_ports::{MemSink, MemSource};
use std::process::Abort;

/// What a run came to, and what it wrote.
#[derive(Drop)]
struct Done {
    ran: Ran,
    output: Vec<u8>,
}

/// Runs code on the input "ab", by forms or without, where the source fails at the first of these calls and the sink at the second.
fn outcome(
    rt: &(impl Abort + AllocGlobal),
    code: &Code,
    steps: u64,
    failing: (u32, u32),
    by_forms: bool,
) -> Done {
    let alloc = rt.alloc();
    let bytes = made(rt, b"ab".to_vec(alloc));
    let mut input = MemSource::new(bytes, made(rt, [failing.0].to_vec(alloc)));
    let mut out = MemSink::new(alloc, made(rt, [failing.1].to_vec(alloc)));
    let ran = if by_forms {
        run(alloc, code, steps, &mut input, &mut out)
    } else {
        run_plainly(alloc, code, steps, &mut input, &mut out)
    };
    Done {
        ran,
        output: made(rt, out.bytes().to_vec(alloc)),
    }
}

/// Compares how code ends both ways, the steps left, the number of instructions, and what was written.
fn comes_to_the_same(
    rt: &(impl Abort + AllocGlobal),
    code: &Code,
    steps: u64,
    failing: (u32, u32),
) {
    let first = outcome(rt, code, steps, failing, true);
    let second = outcome(rt, code, steps, failing, false);
    assert!(rt; first.ran == second.ran);
    same_bytes(rt, &first.output, &second.output);
}

/// The same with each number of steps up to 30.
fn same_with_each_number_of_steps(rt: &(impl Abort + AllocGlobal), text: &str) {
    let code = code_of(rt, text);
    for steps in 0..31 {
        comes_to_the_same(rt, &code, steps, (9, 9));
    }
}

/// A sum of numbers, with an assert in each turn.
const SUMS: &str =
    "#include <e_acsl.h>\ni32 main(void) { ptr p0; ptr p1; i32 t2; i32 t3; i32 t4; i32 t5; p0 = __e_acsl_store_block(U64(8)); *(i64 *)p0 = \
     ((i64)I32(0)); __e_acsl_initialize(p0, 8); p1 = __e_acsl_store_block(U64(4)); *(i32 *)p1 = I32(0); __e_acsl_initialize(p1, 4); { while \
     (1) { if (((*(i32 *)p1) < I32(25))) { } else { goto end_1; } __e_acsl_step(); { *(i64 *)p0 = ((*(i64 *)p0) + ((i64)(*(i32 *)p1))); \
     __e_acsl_initialize(p0, 8); t2 = __e_acsl_number(p0, I128(0), 8); t3 = __e_acsl_number(p1, I128(0), 4); if ((t2 & t3)) { t4 = \
     (((i128)(*(i64 *)p0)) >= ((i128)(*(i32 *)p1))); } else { t4 = I32(0); } __e_acsl_assert((t2 & t3), t4, 1, 5, \"assert\"); } next_1: ; \
     *(i32 *)p1 = ((*(i32 *)p1) + I32(1)); __e_acsl_initialize(p1, 4); } } end_1: ; __e_acsl_delete_block(p1); t5 = ((i32)((*(i64 *)p0) % \
     ((i64)I32(100)))); __e_acsl_delete_block(p0); return t5; __e_acsl_delete_block(p0); }";

#[test]
fn runs_by_forms_end_at_the_same_step(rt: HostRuntime) {
    same_with_each_number_of_steps(&rt, SUMS);
}

/// The same where each of the first calls of the source and of the sink fails.
fn same_where_a_port_fails(rt: &(impl Abort + AllocGlobal), text: &str) {
    let code = code_of(rt, text);
    for read in 1..5 {
        for put in 1..4 {
            comes_to_the_same(rt, &code, 10000, (read, put));
        }
    }
}

/// Writes the input, and then so many bytes that the sink is called twice before the end.
const COPIES: &str =
    "#include <e_acsl.h>\ni32 main(void) { ptr p0; i32 t1; p0 = __e_acsl_store_block(U64(4)); *(i32 *)p0 = I32(0); \
     __e_acsl_initialize(p0, 4); { while (1) { t1 = getchar(); if ((t1 != I32(-1))) { } else { goto end; } __e_acsl_step(); \
     putchar(t1); } } end: ; { while (1) { if (((*(i32 *)p0) < I32(9000))) { } else { goto end; } __e_acsl_step(); \
     __e_acsl_print_text(\"x\"); *(i32 *)p0 = ((*(i32 *)p0) + I32(1)); __e_acsl_initialize(p0, 4); } } end: ; \
     __e_acsl_delete_block(p0); return I32(0); }";

/// Writes a number in each turn, and reads a byte.
const READS: &str =
    "#include <e_acsl.h>\ni32 main(void) { ptr p0; i32 t1; p0 = __e_acsl_store_block(U64(8)); *(i64 *)p0 = I64(-3); \
     __e_acsl_initialize(p0, 8); { while (1) { if (((*(i64 *)p0) < I64(9))) { } else { goto end; } __e_acsl_step(); \
     t1 = getchar(); *(i64 *)p0 = ((*(i64 *)p0) + I64(1)); __e_acsl_initialize(p0, 8); __e_acsl_print_i64((*(i64 *)p0)); } } \
     end: ; return t1; }";

#[test]
fn ports_fail_alike_by_forms(rt: HostRuntime) {
    same_where_a_port_fails(&rt, COPIES);
    same_where_a_port_fails(&rt, READS);
}

/// A type of variables: its words, how many bytes a variable has, and two numbers.
struct Numbers {
    kind: &'static str,
    constant: &'static str,
    width: u8,
    first: &'static str,
    second: &'static str,
}

const KINDS: [Numbers; 5] = [
    Numbers {
        kind: "i32",
        constant: "I32",
        width: 4,
        first: "2147483640",
        second: "-5",
    },
    Numbers {
        kind: "u32",
        constant: "U32",
        width: 4,
        first: "7",
        second: "4294967290",
    },
    Numbers {
        kind: "i64",
        constant: "I64",
        width: 8,
        first: "-9223372036854775800",
        second: "-5",
    },
    Numbers {
        kind: "u64",
        constant: "U64",
        width: 8,
        first: "18446744073709551610",
        second: "0",
    },
    Numbers {
        kind: "i128",
        constant: "I128",
        width: 16,
        first: "170141183460469231731687303715884105720",
        second: "-5",
    },
];

const OPERATORS: [&str; 10] = ["+", "-", "*", "/", "%", "<<", ">>", "&", "|", "^"];

const RELATIONS: [&str; 6] = ["==", "!=", "<", "<=", ">", ">="];

/// What stands before the loop in some programs: nothing; the second variable's pointer is null, is moved, or is that of a block
/// that died; or a variable isn't written.
const BEGINNINGS: [&str; 5] = [
    "",
    "p1 = PTR(0);",
    "p1 = (p1 + I64(2));",
    "__e_acsl_delete_block(p1);",
    "p0 = __e_acsl_store_block(U64(16));",
];

/// A program that changes a variable by another one with an operator, asserts a relation of the two, and adds one to the second.
fn text_of(
    rt: &(impl Abort + AllocGlobal),
    numbers: &Numbers,
    op: &str,
    relation: &str,
    beginning: &str,
) -> String {
    let kind = numbers.kind;
    let constant = numbers.constant;
    let width = numbers.width;
    let first = numbers.first;
    let second = numbers.second;
    let head = made(
        rt,
        format!(in rt.alloc();
            "#include <e_acsl.h>\ni32 main(void) {{ ptr p0; ptr p1; i32 t2; i32 t3; i32 t4; \
            p0 = __e_acsl_store_block(U64(16)); p1 = __e_acsl_store_block(U64(16)); \
            *({kind} *)p0 = {constant}({first}); __e_acsl_initialize(p0, {width}); \
            *({kind} *)p1 = {constant}({second}); __e_acsl_initialize(p1, {width}); {beginning} "
        ),
    );
    let turn = made(
        rt,
        format!(in rt.alloc();
            "*({kind} *)p0 = ((*({kind} *)p0) {op} (*({kind} *)p1)); __e_acsl_initialize(p0, {width}); \
            t2 = __e_acsl_number(p0, I128(0), {width}); t3 = __e_acsl_number(p1, I128(0), {width}); \
            if ((t2 & t3)) {{ t4 = (((i128)(*({kind} *)p0)) {relation} ((i128)(*({kind} *)p1))); }} else {{ t4 = I32(0); }} \
            __e_acsl_assert((t2 & t3), t4, 1, 5, \"assert\"); "
        ),
    );
    made(
        rt,
        format!(in rt.alloc();
            "{head}{{ while (1) {{ if (((*({kind} *)p1) < {constant}(3))) {{ }} else {{ goto end; }} \
            __e_acsl_step(); {turn}*({kind} *)p1 = ((*({kind} *)p1) + {constant}(1)); __e_acsl_initialize(p1, {width}); }} }} end: ; \
            t4 = ((i32)(*({kind} *)p0)); __e_acsl_delete_block(p1); __e_acsl_delete_block(p0); return t4; }}"
        ),
    )
}

/// The same of a program, with 20 steps.
fn text_comes_to_the_same(rt: &(impl Abort + AllocGlobal), text: &str) {
    comes_to_the_same(rt, &code_of(rt, text), 20, (9, 9));
}

/// The same of the programs with an operator and a relation, of each type.
fn kinds_come_to_the_same(
    rt: &(impl Abort + AllocGlobal),
    op: &str,
    relation: &str,
    beginning: &str,
) {
    for numbers in &KINDS {
        text_comes_to_the_same(rt, &text_of(rt, numbers, op, relation, beginning));
    }
}

#[test]
fn operators_are_alike_by_forms(rt: HostRuntime) {
    for op in &OPERATORS {
        kinds_come_to_the_same(&rt, op, ">=", "");
    }
}

#[test]
fn relations_are_alike_by_forms(rt: HostRuntime) {
    for relation in &RELATIONS {
        kinds_come_to_the_same(&rt, "-", relation, "");
    }
}

#[test]
fn what_is_unusual_is_alike_by_forms(rt: HostRuntime) {
    for beginning in &BEGINNINGS {
        kinds_come_to_the_same(&rt, "+", ">=", beginning);
    }
}
