//! Code that is made of the code of parts, or of none.

ghost use Rattle.std.specs.Prelude.{◌≡◌, [], IfOk, OnOk, false, pos};
ghost use Rattle.c_syntax.specs.Formulas.{plain_cast_type};
ghost use Rattle.annot_simulation.specs.Code.{access_of, question};
ghost use Rattle.c_effects.specs.Named.{unit_of};
ghost use Rattle.mon_syntax.specs.declared.tree.MonOp.TheVariants.{Eq, Ne};
ghost use Rattle.mon_syntax.specs.declared.tree.MonType.TheVariants.{I32};
ghost use Rattle.mon_syntax.specs.Trees.{Binary, Constant, plain_expr, plain_stmt_kind};
ghost use Rattle.annot_simulation.specs.Code.{cast_value, is_known, no_code, sure_code, truth_code, type_of_width, unary_value};
ghost use Rattle.annot_simulation.specs.Code.{variable_code, variable_value, wider, with_value};
ghost use Rattle.annot_pieces.specs.Plain.{code_of, plain_reading, plain_readings};

use crate::piece::Code;
use crate::reading::{Reading, is_known};
use crate::value::{cast_value, type_of_width, unary_value, wider};
use c_effects::object::pointer_to;
use c_effects::operator::{constant, in_type, operation, register};
use c_effects::part::alone;
use c_syntax::logic::LogicType;
use c_syntax::{Range, UnOp, Width};
use mon_syntax::{
    AccessSize, MemoryCall, MonExpr, MonExprKind, MonOp, MonStmtKind, MonType, Registers,
};
use std::alloc::{AllocError, Global};

// ---- values that always exist

/// A number in the type of its width.
pub fn number_code(alloc: Global, w: Width, n: i128) -> Result<Code, AllocError>
    ensures { IfOk result (λ c. code_of c [] ≡ sure_code (Constant (type_of_width w) n) []) }
{
    let value = constant(alloc, type_of_width(w), n)?;
    Ok(Code {
        stmts: Vec::new(alloc),
        flag: None,
        value,
    })
}

/// What has no code.
pub fn no_code(alloc: Global) -> Result<Code, AllocError>
    ensures { IfOk result (λ c. code_of c [] ≡ no_code []) }
{
    let never = constant(alloc, MonType::I32, 0)?;
    let value = constant(alloc, MonType::I32, 0)?;
    Ok(Code {
        stmts: Vec::new(alloc),
        flag: Some(never),
        value,
    })
}

/// `\true` or `\false`.
pub fn truth_code(alloc: Global, b: bool) -> Result<Code, AllocError>
    ensures { IfOk result (λ c. code_of c [] ≡ truth_code b []) }
{
    let value = constant(alloc, MonType::I32, i128::from(b))?;
    Ok(Code {
        stmts: Vec::new(alloc),
        flag: None,
        value,
    })
}

// ---- variables

fn variable_value(
    alloc: Global,
    w: MonType,
    x: Reading,
    names: &Registers<'_>,
) -> Result<MonExpr, AllocError>
    ensures { IfOk result (λ m. plain_expr m ≡ variable_value (unit_of names.now) names.now.table.bound w (plain_reading x)) }
{
    let place = pointer_to(alloc, names, x.decl)?;
    let value = MonExpr::new(alloc, MonExprKind::Load(x.kind, place))?;
    in_type(alloc, x.kind, w, value)
}

/// How many bytes a value of a type has.
pub fn access_of(kind: MonType) -> AccessSize
    ensures { result ≡ access_of kind }
{
    match kind {
        MonType::I8 | MonType::U8 => AccessSize::One,
        MonType::I16 | MonType::U16 => AccessSize::Two,
        MonType::I32 | MonType::U32 => AccessSize::Four,
        MonType::I64 | MonType::U64 | MonType::Ptr => AccessSize::Eight,
        MonType::I128 => AccessSize::Sixteen,
    }
}

// Whether a variable holds a number, in a register.
fn question(
    alloc: Global,
    answer: u32,
    x: Reading,
    names: &Registers<'_>,
) -> Result<MonStmtKind, AllocError>
    ensures { IfOk result (λ k. plain_stmt_kind k ≡ question (unit_of names.now) names.now.table.bound answer (plain_reading x)) }
{
    let mut operands = Vec::new(alloc);
    operands.push(pointer_to(alloc, names, x.decl)?)?;
    operands.push(constant(alloc, MonType::I128, 0)?)?;
    let call = MemoryCall::Number(access_of(x.kind));
    Ok(MonStmtKind::Act(Some(answer), call, operands))
}

// A variable of which it is asked first whether it holds a number.
fn asked_variable(
    alloc: Global,
    w: MonType,
    x: Reading,
    names: &mut Registers<'_>,
) -> Result<Code, AllocError>
    ensures code { IfOk result (λ c. code_of c names.new.table.kinds
        ≡ variable_code (unit_of names.old) names.old.table.bound false w (plain_reading x) names.old.table.kinds) }
    ensures bound { OnOk result (names.new.table.bound ≡ names.old.table.bound) }
    ensures program { OnOk result (names.new.program ≡ names.old.program) }
{
    let value = variable_value(alloc, w, x, names)?;
    let answer = names.fresh(MonType::I32)?;
    let kind = question(alloc, answer, x, names)?;
    let stmts = alone(alloc, kind)?;
    let flag = register(alloc, answer)?;
    Ok(Code {
        stmts,
        flag: Some(flag),
        value,
    })
}

/// The value of a variable, in a type.
pub fn variable_code(
    alloc: Global,
    known: &[Reading],
    w: MonType,
    x: Reading,
    names: &mut Registers<'_>,
) -> Result<Code, AllocError>
    ensures code { IfOk result (λ c. code_of c names.new.table.kinds
        ≡ variable_code (unit_of names.old) names.old.table.bound (is_known (plain_readings known.now) (plain_reading x)) w (plain_reading x)
        names.old.table.kinds) }
    ensures bound { OnOk result (names.new.table.bound ≡ names.old.table.bound) }
    ensures program { OnOk result (names.new.program ≡ names.old.program) }
{
    if is_known(known, x) {
        let value = variable_value(alloc, w, x, names)?;
        Ok(Code {
            stmts: Vec::new(alloc),
            flag: None,
            value,
        })
    } else {
        asked_variable(alloc, w, x, names)
    }
}

// ---- one part

/// `+`, `-` or `~` of a term of a width, in a width.
pub fn unary_code(
    alloc: Global,
    op: UnOp,
    whole: Width,
    operand: Width,
    x: Code,
) -> Result<Code, AllocError>
    ensures { IfOk result (λ c. code_of c []
        ≡ with_value (unary_value op (type_of_width whole) (type_of_width (wider whole operand)) (type_of_width operand) (plain_expr x.value)) (code_of x [])) }
{
    let working = type_of_width(wider(whole, operand));
    let value = unary_value(
        alloc,
        op,
        type_of_width(whole),
        working,
        type_of_width(operand),
        x.value,
    )?;
    Ok(Code {
        stmts: x.stmts,
        flag: x.flag,
        value,
    })
}

/// A cast of a term in a range and of a width, in a width.
pub fn cast_code(
    alloc: Global,
    to: &LogicType,
    a: Range,
    whole: Width,
    operand: Width,
    x: Code,
) -> Result<Code, AllocError>
    ensures { IfOk result (λ c. code_of c []
        ≡ with_value (cast_value (plain_cast_type to.now) a (type_of_width whole) (type_of_width operand) (plain_expr x.value)) (code_of x [])) }
{
    let value = cast_value(
        alloc,
        to,
        a,
        type_of_width(whole),
        type_of_width(operand),
        x.value,
    )?;
    Ok(Code {
        stmts: x.stmts,
        flag: x.flag,
        value,
    })
}

// A value compared with 0.
fn compared_code(alloc: Global, op: MonOp, t: MonType, x: Code) -> Result<Code, AllocError>
    ensures { IfOk result (λ c. code_of c [] ≡ with_value (Binary op t (plain_expr x.value) (Constant t (pos 0))) (code_of x [])) }
{
    let zero = constant(alloc, t, 0)?;
    let value = operation(alloc, op, t, x.value, zero)?;
    Ok(Code {
        stmts: x.stmts,
        flag: x.flag,
        value,
    })
}

/// A term that is wanted as a predicate.
pub fn nonzero_code(alloc: Global, t: MonType, x: Code) -> Result<Code, AllocError>
    ensures { IfOk result (λ c. code_of c [] ≡ with_value (Binary Ne t (plain_expr x.value) (Constant t (pos 0))) (code_of x [])) }
{
    compared_code(alloc, MonOp::Ne, t, x)
}

/// The opposite of a predicate.
pub fn denied_code(alloc: Global, x: Code) -> Result<Code, AllocError>
    ensures { IfOk result (λ c. code_of c [] ≡ with_value (Binary Eq I32 (plain_expr x.value) (Constant I32 (pos 0))) (code_of x [])) }
{
    compared_code(alloc, MonOp::Eq, MonType::I32, x)
}
