//! The texts of programs.

use crate::monitored::program_of;
use crate::same::{made, same_bytes, same_number};
use c_printer::print;
use ea_ports::{MemSink, SinkFault};
use std::process::Abort;

/// Prints the program of a text into a sink, of which this call fails, and compares what the sink got with the text up to a
/// length.
fn prints(
    rt: &(impl Abort + AllocGlobal),
    text: &str,
    failing: u32,
    length: usize,
    wanted: Result<(), SinkFault>,
) {
    let failing = made(rt, [failing].to_vec(rt.alloc()));
    let mut out = MemSink::new(rt.alloc(), failing);
    let program = program_of(rt, text);
    let printed = print(&program, &mut out);
    drop(program);
    same_number(rt, number_of(printed), number_of(wanted));
    same_bytes(
        rt,
        out.bytes(),
        text.as_bytes().get(..length).unwrap_or(b"a length"),
    );
}

fn number_of(printed: Result<(), SinkFault>) -> u128 {
    match printed {
        Ok(()) => 0,
        Err(SinkFault::Failed) => 1,
        Err(SinkFault::Memory) => 2,
    }
}

/// A text that the printer writes as it is.
fn is_printed(rt: &(impl Abort + AllocGlobal), text: &str) {
    prints(rt, text, 9, text.len(), Ok(()));
}

const EXPRESSIONS: &str =
    "#include <e_acsl.h>\ni32 main(void) {\n  i32 x;\n  i32 y;\n  x = (y - (-I32(-5)));\n  return ((i32)(~x));\n}\n";

#[test]
fn expressions_stand_in_parentheses(rt: HostRuntime) {
    is_printed(&rt, EXPRESSIONS);
}

#[test]
fn each_statement_stands_on_a_line(rt: HostRuntime) {
    is_printed(
        &rt,
        "#include <e_acsl.h>\nvoid f(i32 a, u8 b) {\n  i32 c;\n  i64 d;\n  if (a) {\n    c = putchar(a);\n  } else { }\n  \
         {\n    while (1) {\n      goto end_1;\n      __e_acsl_step();\n      return;\n    }\n  } end_1: ;\n  \
         __e_acsl_assert(I32(1), a, 7, 12, \"requires\");\n  __e_acsl_print_text(\"a\\042\\012\");\n  \
         __e_acsl_print_i64(d);\n}\ni32 main(void) {\n}\n",
    );
}

#[test]
fn functions_are_called_by_name(rt: HostRuntime) {
    is_printed(
        &rt,
        "#include <e_acsl.h>\ni32 main(void) {\n  i32 x;\n  ptr p;\n  x = getchar();\n  getchar();\n  \
         p = __e_acsl_store_block(U64(8));\n  x = f(x, p);\n  g();\n  __e_acsl_delete_block(p);\n}\n\
         i32 f(i32 a, ptr b) {\n}\nvoid g(void) {\n}\n",
    );
}

#[test]
fn a_sink_that_fails_gets_nothing_more(rt: HostRuntime) {
    prints(&rt, EXPRESSIONS, 1, 0, Err(SinkFault::Failed));
}

#[test]
fn a_sink_that_fails_later_has_the_pieces_before(rt: HostRuntime) {
    let head = "#include <e_acsl.h>\ni32 main(void) {";
    let mut text = made(&rt, String::from_str(rt.alloc(), head));
    for _step in 0..300 {
        made(&rt, text.push_str("\n  __e_acsl_step();"));
    }
    made(&rt, text.push_str("\n}\n"));
    prints(&rt, &text, 2, 4096, Err(SinkFault::Failed));
    is_printed(&rt, &text);
}
