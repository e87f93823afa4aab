//! Code of parts joined.

ghost use Rattle.std.specs.Prelude.{◌≡◌, ◌<◌, IfOk, OnOk, [], option_map};
ghost use Rattle.mon_syntax.specs.Trees.{plain_expr, plain_stmts};
ghost use Rattle.c_effects.specs.Expressions.{in_type};
ghost use Rattle.annot_simulation.specs.Code.{binary_value, both_asked, branch, connected, connective_operator, is_sure, is_total, left_first};
ghost use Rattle.annot_simulation.specs.Code.{operated, partial_code, relation_value, settled, two_code, with_value};
ghost use Rattle.term_guards.specs.Guards.{guard};
ghost use Rattle.annot_pieces.specs.Plain.{branch_in, code_of, in_registers, joined, partial_in};

use crate::piece::{Code, guarded, in_sequence, take, take_none, two_fresh};
use crate::term::truth_code;
use crate::value::{OperationTypes, binary_value, is_total, relation_value};
use c_effects::copy::copy_of;
use c_effects::operator::{in_type, operation, register};
use c_effects::part::alone;
use c_syntax::logic::Connective;
use c_syntax::{BinOp, Range, Relation};
use mon_syntax::{MonExpr, MonOp, MonStmt, MonStmtKind, MonType, Registers};
use std::alloc::{AllocError, Global};
use term_guards::guard;

// ---- both parts

// The statements of two parts, each with its flag, and a value.
fn joined(
    alloc: Global,
    a: (Vec<MonStmt>, Option<MonExpr>),
    b: (Vec<MonStmt>, Option<MonExpr>),
    value: MonExpr,
) -> Result<Code, AllocError>
    ensures { IfOk result (λ c. code_of c [] ≡ joined (plain_stmts a.0.items) (option_map plain_expr a.1) (plain_stmts b.0.items) (option_map plain_expr b.1)
        (plain_expr value)) }
{
    let (stmts, flag) = in_sequence(alloc, a, b)?;
    Ok(Code { stmts, flag, value })
}

// An operator that is defined for all values of the second part.
fn total(
    alloc: Global,
    op: BinOp,
    types: OperationTypes,
    range: Range,
    x: Code,
    y: Code,
) -> Result<Code, AllocError>
    ensures { IfOk result (λ c. code_of c [] ≡ two_code (code_of x []) (code_of y [])
        (binary_value op types.result types.working types.left types.right range (plain_expr x.value) (plain_expr y.value))) }
{
    let value = binary_value(alloc, op, types, range, x.value, y.value)?;
    joined(alloc, (x.stmts, x.flag), (y.stmts, y.flag), value)
}

/// A relation in the type `working`.
pub fn related(
    alloc: Global,
    relation: Relation,
    working: MonType,
    types: (MonType, MonType),
    x: Code,
    y: Code,
) -> Result<Code, AllocError>
    ensures { IfOk result (λ c. code_of c [] ≡ two_code (code_of x []) (code_of y [])
        (relation_value relation working types.0 types.1 (plain_expr x.value) (plain_expr y.value))) }
{
    let value = relation_value(alloc, relation, working, types.0, types.1, x.value, y.value)?;
    joined(alloc, (x.stmts, x.flag), (y.stmts, y.flag), value)
}

fn connective_operator(connective: Connective) -> MonOp
    ensures { result ≡ connective_operator connective }
{
    match connective {
        Connective::And => MonOp::And,
        Connective::Or => MonOp::Or,
        Connective::Implies => MonOp::Le,
        Connective::Iff => MonOp::Eq,
        Connective::Xor => MonOp::Ne,
    }
}

// Both sides of a connective are asked.
fn both_asked(alloc: Global, connective: Connective, p: Code, q: Code) -> Result<Code, AllocError>
    ensures { IfOk result (λ c. code_of c [] ≡ both_asked connective (code_of p []) (code_of q [])) }
{
    let op = connective_operator(connective);
    let value = operation(alloc, op, MonType::I32, p.value, q.value)?;
    joined(alloc, (p.stmts, p.flag), (q.stmts, q.flag), value)
}

// ---- a flag and a value in registers

// Statements that leave a flag and a value in two registers.
#[tactic(auto, using(crate::proofs::Rust::next_is))]
fn in_registers(alloc: Global, stmts: Vec<MonStmt>, number: u32) -> Result<Code, AllocError>
    requires { number < 4294967295 }
    ensures { IfOk result (λ c. code_of c [] ≡ in_registers (plain_stmts stmts.items) number) }
{
    let flag = register(alloc, number)?;
    let value = register(alloc, number + 1)?;
    Ok(Code {
        stmts,
        flag: Some(flag),
        value,
    })
}

// A value that exists where a test is 1, after two parts.
fn partial_in(
    alloc: Global,
    number: u32,
    a: (Vec<MonStmt>, Option<MonExpr>),
    b: (Vec<MonStmt>, Option<MonExpr>),
    test: MonExpr,
    value: MonExpr,
) -> Result<Code, AllocError>
    requires { number < 4294967295 }
    ensures { IfOk result (λ c. code_of c [] ≡ partial_in number
        (joined (plain_stmts a.0.items) (option_map plain_expr a.1) (plain_stmts b.0.items) (option_map plain_expr b.1) (plain_expr value)) (plain_expr test)) }
{
    let both = joined(alloc, a, b, value)?;
    let mut on = Vec::new(alloc);
    take(alloc, Some(test), both.value, number, &mut on)?;
    let nothing = take_none(alloc, number)?;
    let mut stmts = both.stmts;
    guarded(alloc, both.flag, on, nothing, &mut stmts)?;
    in_registers(alloc, stmts, number)
}

// Whether an operator is defined on the value of its second part.
fn test_of(
    alloc: Global,
    op: BinOp,
    types: OperationTypes,
    y: &MonExpr,
) -> Result<MonExpr, AllocError>
    ensures { IfOk result (λ e. plain_expr e ≡ guard types.working op (in_type types.right types.working (plain_expr y.now))) }
{
    let again = copy_of(alloc, y)?;
    let operand = in_type(alloc, types.right, types.working, again)?;
    guard(alloc, types.working, op, operand)
}

// An operator that may be undefined.
fn partial(
    alloc: Global,
    op: BinOp,
    types: OperationTypes,
    range: Range,
    x: Code,
    y: Code,
    names: &mut Registers<'_>,
) -> Result<Code, AllocError>
    ensures code { IfOk result (λ c. code_of c names.new.table.kinds ≡ partial_code op types.result types.working types.right
        (code_of x []) (code_of y names.old.table.kinds)
        (binary_value op types.result types.working types.left types.right range (plain_expr x.value) (plain_expr y.value))) }
    ensures bound { OnOk result (names.new.table.bound ≡ names.old.table.bound) }
    ensures program { OnOk result (names.new.program ≡ names.old.program) }
{
    let test = test_of(alloc, op, types, &y.value)?;
    let value = binary_value(alloc, op, types, range, x.value, y.value)?;
    let number = two_fresh(types.result, names)?;
    partial_in(
        alloc,
        number,
        (x.stmts, x.flag),
        (y.stmts, y.flag),
        test,
        value,
    )
}

/// An operator on two parts, of which the second one's value lies in a range.
pub fn operated(
    alloc: Global,
    op: BinOp,
    types: OperationTypes,
    range: Range,
    x: Code,
    y: Code,
    names: &mut Registers<'_>,
) -> Result<Code, AllocError>
    ensures code { IfOk result (λ c. code_of c names.new.table.kinds ≡ operated (is_total op range) op types.result types.working types.right
        (code_of x []) (code_of y names.old.table.kinds)
        (binary_value op types.result types.working types.left types.right range (plain_expr x.value) (plain_expr y.value))) }
    ensures bound { OnOk result (names.new.table.bound ≡ names.old.table.bound) }
    ensures program { OnOk result (names.new.program ≡ names.old.program) }
{
    if is_total(op, range) {
        total(alloc, op, types, range, x, y)
    } else {
        partial(alloc, op, types, range, x, y, names)
    }
}

/// A value in a register, where it opens no parenthesis.
pub fn settled(
    alloc: Global,
    t: MonType,
    c: Code,
    names: &mut Registers<'_>,
) -> Result<Code, AllocError>
    ensures code { IfOk result (λ r. code_of r names.new.table.kinds ≡ settled t (code_of c names.old.table.kinds)) }
    ensures bound { OnOk result (names.new.table.bound ≡ names.old.table.bound) }
    ensures program { OnOk result (names.new.program ≡ names.old.program) }
{
    let number = two_fresh(t, names)?;
    let mut stmts = c.stmts;
    take(alloc, c.flag, c.value, number, &mut stmts)?;
    in_registers(alloc, stmts, number)
}

// ---- one of two parts

// The second part where the first one's value is 1, and the third where it is 0, in two registers from one on.
#[tactic(auto, using(mon_syntax::proofs::Rows::if_is))]
fn branch_in(alloc: Global, number: u32, c: Code, a: Code, b: Code) -> Result<Code, AllocError>
    requires { number < 4294967295 }
    ensures { IfOk result (λ r. code_of r [] ≡ branch_in number (code_of c []) (code_of a []) (code_of b [])) }
{
    let mut on = a.stmts;
    take(alloc, a.flag, a.value, number, &mut on)?;
    let mut off = b.stmts;
    take(alloc, b.flag, b.value, number, &mut off)?;
    let choice = alone(alloc, MonStmtKind::If(c.value, on, off))?;
    let nothing = take_none(alloc, number)?;
    let mut stmts = c.stmts;
    guarded(alloc, c.flag, choice, nothing, &mut stmts)?;
    in_registers(alloc, stmts, number)
}

/// The second part where the first one's value is 1, and the third where it is 0, whose registers are the last ones.
pub fn branched(
    alloc: Global,
    t: MonType,
    c: Code,
    a: Code,
    b: Code,
    names: &mut Registers<'_>,
) -> Result<Code, AllocError>
    ensures code { IfOk result (λ r. code_of r names.new.table.kinds
        ≡ branch t (code_of c []) (code_of a []) (code_of b names.old.table.kinds)) }
    ensures bound { OnOk result (names.new.table.bound ≡ names.old.table.bound) }
    ensures program { OnOk result (names.new.program ≡ names.old.program) }
{
    let number = two_fresh(t, names)?;
    branch_in(alloc, number, c, a, b)
}

/// The value of a part in another type.
pub fn value_in(alloc: Global, from: MonType, to: MonType, x: Code) -> Result<Code, AllocError>
    ensures { IfOk result (λ c. code_of c [] ≡ with_value (in_type from to (plain_expr x.value)) (code_of x [])) }
{
    let value = in_type(alloc, from, to, x.value)?;
    Ok(Code {
        stmts: x.stmts,
        flag: x.flag,
        value,
    })
}

/// One of two values, each of its type, in the type `t`.
pub fn chosen(
    alloc: Global,
    t: MonType,
    types: (MonType, MonType),
    c: Code,
    values: (Code, Code),
    names: &mut Registers<'_>,
) -> Result<Code, AllocError>
    ensures code { IfOk result (λ r. code_of r names.new.table.kinds ≡ branch t (code_of c [])
        (with_value (in_type types.0 t (plain_expr values.0.value)) (code_of values.0 []))
        (with_value (in_type types.1 t (plain_expr values.1.value)) (code_of values.1 names.old.table.kinds))) }
    ensures bound { OnOk result (names.new.table.bound ≡ names.old.table.bound) }
    ensures program { OnOk result (names.new.program ≡ names.old.program) }
{
    let (x, y) = values;
    let x = value_in(alloc, types.0, t, x)?;
    let y = value_in(alloc, types.1, t, y)?;
    branched(alloc, t, c, x, y, names)
}

// ---- connectives

#[tactic(auto, using(crate::proofs::Rust::none_is))]
fn is_sure(c: &Code) -> bool
    ensures { result ≡ is_sure (code_of c.now []) }
{
    match &c.flag {
        None => c.stmts.is_empty(),
        Some(_) => false,
    }
}

// The right side of `&&`, `||` and `==>` runs only where the left one doesn't decide.
fn left_first(
    alloc: Global,
    connective: Connective,
    p: Code,
    q: Code,
    names: &mut Registers<'_>,
) -> Result<Code, AllocError>
    ensures code { IfOk result (λ c. code_of c names.new.table.kinds ≡ left_first connective (code_of p []) (code_of q names.old.table.kinds)) }
    ensures bound { OnOk result (names.new.table.bound ≡ names.old.table.bound) }
    ensures program { OnOk result (names.new.program ≡ names.old.program) }
{
    match connective {
        Connective::And => {
            let decided = truth_code(alloc, false)?;
            branched(alloc, MonType::I32, p, q, decided, names)
        }
        Connective::Or => {
            let decided = truth_code(alloc, true)?;
            branched(alloc, MonType::I32, p, decided, q, names)
        }
        Connective::Implies => {
            let decided = truth_code(alloc, true)?;
            branched(alloc, MonType::I32, p, q, decided, names)
        }
        Connective::Iff | Connective::Xor => both_asked(alloc, connective, p, q),
    }
}

/// A connective of two predicates, of which the second one's registers are the last ones.
pub fn connected(
    alloc: Global,
    connective: Connective,
    p: Code,
    q: Code,
    names: &mut Registers<'_>,
) -> Result<Code, AllocError>
    ensures code { IfOk result (λ c. code_of c names.new.table.kinds ≡ connected connective (code_of p []) (code_of q names.old.table.kinds)) }
    ensures bound { OnOk result (names.new.table.bound ≡ names.old.table.bound) }
    ensures program { OnOk result (names.new.program ≡ names.old.program) }
{
    if is_sure(&q) {
        both_asked(alloc, connective, p, q)
    } else {
        left_first(alloc, connective, p, q, names)
    }
}
