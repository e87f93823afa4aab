//! Sizes of types, and offsets of members.

use crate::same::same_number;
use c_reader::read_text;
use c_scopes::sight::name_at;
use c_syntax::layout::{checked_size, offset_of, size_of};
use c_syntax::{CInt, CType, Program};
use std::process::Abort;

/// The program of a text, which is accepted.
fn program_of(rt: &(impl Abort + AllocGlobal), text: &str) -> Program {
    if text.len() >= 4_294_967_295 {
        panic!(rt; "the text is too long");
    }
    match read_text(rt.alloc(), text.as_bytes()) {
        Ok(program) => program,
        Err(_) => panic!(rt; "the text is refused"),
    }
}

/// A program with one struct.
fn program(rt: &(impl Abort + AllocGlobal)) -> Program {
    program_of(
        rt,
        "struct s { char c; int i; long l[3]; }; struct s x; int main(void) { return 0; }",
    )
}

/// The number of a name, which is among the first 20.
fn number_of(rt: &impl Abort, program: &Program, name: &str) -> u32 {
    for number in 0..20 {
        if name_at(&program.names, number) == name.as_bytes() {
            return number;
        }
    }
    panic!(rt; "there is no such name")
}

#[test]
fn integers_have_sizes(rt: HostRuntime) {
    let program = program(&rt);
    same_number(&rt, u128::from(size_of(&program, &CType::Int(CInt::I8))), 1);
    same_number(
        &rt,
        u128::from(size_of(&program, &CType::Int(CInt::I32))),
        4,
    );
}

/// Compares the size of a struct, or 1,000 where there is none.
fn has_size(rt: &impl Abort, program: &Program, t: &CType, wanted: u128) {
    let found = match checked_size(&program.structs, t) {
        Some(size) => u128::from(size),
        None => 1000,
    };
    same_number(rt, found, wanted);
}

#[test]
fn a_struct_has_a_size(rt: HostRuntime) {
    let program = program(&rt);
    has_size(&rt, &program, &CType::Struct(0), 32);
}

/// Compares the offset of a member of the struct, or 1,000 where it has none of this name.
fn has_offset(rt: &impl Abort, program: &Program, name: &str, wanted: u128) {
    let found = match offset_of(program, 0, number_of(rt, program, name)) {
        Some(offset) => u128::from(offset),
        None => 1000,
    };
    same_number(rt, found, wanted);
}

#[test]
fn members_have_offsets(rt: HostRuntime) {
    let program = program(&rt);
    has_offset(&rt, &program, "c", 0);
    has_offset(&rt, &program, "i", 4);
    has_offset(&rt, &program, "l", 8);
    has_offset(&rt, &program, "x", 1000);
}
