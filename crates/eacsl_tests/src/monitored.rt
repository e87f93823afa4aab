//! Programs in monitored C, most of them read from texts.

ghost use Rattle.std.specs.Prelude.{◌≤◌};
ghost use Rattle.c_model.specs.Limits.{globals_bytes};
ghost use Rattle.mon_syntax.specs.Globals.{globals_taken};
ghost use Rattle.mon_syntax.specs.Trees.{plain_program};

use crate::same::made;
use c_lower::{Code, lower};
use c_syntax::Name;
use mon_reader::read_monitored;
use mon_syntax::{
    MonExpr, MonExprKind, MonFunc, MonProgram, MonStmt, MonStmtKind, MonType, Register,
};
use std::process::Abort;

/// The program of a text, which is accepted.
pub fn program_of(rt: &(impl Abort + AllocGlobal), text: &str) -> MonProgram
    ensures { globals_taken (plain_program result).globals ≤ globals_bytes }
{
    if text.len() >= 4_294_967_295 {
        panic!(rt; "the text is too long");
    }
    match read_monitored(rt.alloc(), text.as_bytes()) {
        Ok(program) => program,
        Err(_) => panic!(rt; "the text is refused"),
    }
}

/// The code of a text, which is accepted.
pub fn code_of(rt: &(impl Abort + AllocGlobal), text: &str) -> Code {
    made(rt, lower(rt.alloc(), &program_of(rt, text)))
}

/// The code of `i32 main(void)` with two registers and this body, which needs not be valid.
pub fn code_of_body(rt: &(impl Abort + AllocGlobal), body: Vec<MonStmt>) -> Code {
    let mut registers = Vec::new(rt.alloc());
    made(rt, registers.push(register(rt)));
    made(rt, registers.push(register(rt)));
    let globals = Vec::new(rt.alloc());
    let mut functions = Vec::new(rt.alloc());
    let main = MonFunc {
        result: Some(MonType::I32),
        name: name(rt, b"main"),
        parameters: Vec::new(rt.alloc()),
        registers,
        body,
    };
    made(rt, functions.push(main));
    made(rt, lower(rt.alloc(), &MonProgram { globals, functions }))
}

pub fn name(rt: &(impl Abort + AllocGlobal), bytes: &[u8]) -> Name {
    Name::new(made(rt, bytes.to_vec(rt.alloc())))
}

fn register(rt: &(impl Abort + AllocGlobal)) -> Register {
    Register {
        kind: MonType::I32,
        name: name(rt, b"x"),
    }
}

pub fn constant(rt: &(impl Abort + AllocGlobal), kind: MonType, value: i128) -> MonExpr {
    made(
        rt,
        MonExpr::new(rt.alloc(), MonExprKind::Constant(kind, value)),
    )
}

pub fn value(rt: &(impl Abort + AllocGlobal), register: u32) -> MonExpr {
    made(
        rt,
        MonExpr::new(rt.alloc(), MonExprKind::Register(register)),
    )
}

/// Adds a statement to a body.
pub fn add(rt: &(impl Abort + AllocGlobal), body: &mut Vec<MonStmt>, kind: MonStmtKind) {
    let s = made(rt, MonStmt::new(rt.alloc(), kind));
    made(rt, body.push(s));
}
