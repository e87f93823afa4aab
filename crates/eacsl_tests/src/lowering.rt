//! What the code does that trees of no valid program are lowered to. Which code that is, no contract says.

use crate::machine::comes_to;
use crate::monitored::{add, code_of_body, constant, name};
use crate::same::made;
use mon_syntax::{MonStmt, MonStmtKind, MonType};
use std::process::Abort;

/// Compares the value of an exit with the constant of 128 bits that it has.
fn exits_with(rt: &(impl Abort + AllocGlobal), value: i128) {
    let mut body = Vec::new(rt.alloc());
    let number = constant(rt, MonType::I128, value);
    add(rt, &mut body, MonStmtKind::Exit(number));
    let code = code_of_body(rt, body);
    comes_to(rt, &code, 5, ("exit", value), 5, b"");
}

#[test]
fn constants_have_128_bits(rt: HostRuntime) {
    exits_with(&rt, -1);
    exits_with(&rt, 1 << 63);
    exits_with(&rt, -(1 << 63));
    exits_with(&rt, -(1 << 63) - 1);
    exits_with(&rt, 1 << 64);
    exits_with(&rt, -(1 << 64) - 1);
    exits_with(&rt, i128::MIN);
    exits_with(&rt, i128::MAX);
}

/// `{ .. } end: ;` round statements.
fn labelled(rt: &(impl Abort + AllocGlobal), inside: Vec<MonStmt>) -> MonStmt {
    let label = name(rt, b"end");
    made(
        rt,
        MonStmt::new(rt.alloc(), MonStmtKind::Labelled(inside, label)),
    )
}

/// `goto LABEL;` alone.
fn jump(rt: &(impl Abort + AllocGlobal), label: &[u8]) -> Vec<MonStmt> {
    let mut body = Vec::new(rt.alloc());
    let label = name(rt, label);
    add(rt, &mut body, MonStmtKind::Goto(label));
    body
}

/// A label inside one of its own name, with a step between their ends, and then a jump to no label.
fn odd_body(rt: &(impl Abort + AllocGlobal)) -> Vec<MonStmt> {
    let mut body = Vec::new(rt.alloc());
    made(rt, body.push(labelled(rt, jump(rt, b"end"))));
    add(rt, &mut body, MonStmtKind::Step);
    let outer = labelled(rt, body);
    let mut all = Vec::new(rt.alloc());
    made(rt, all.push(outer));
    made(rt, all.push(labelled(rt, jump(rt, b"en"))));
    all
}

#[test]
fn a_jump_leads_to_the_innermost_body_of_its_label(rt: HostRuntime) {
    let code = code_of_body(&rt, odd_body(&rt));
    comes_to(&rt, &code, 5, ("fault", 0), 4, b"");
}
