//! The code of expressions.

ghost use Rattle.std.specs.Prelude.{◌≡◌, ◌∷◌, ◌++◌, map, OnOk};
ghost use Rattle.mon_syntax.specs.Trees.{plain_expr};
ghost use Rattle.c_lower.specs.Code.{arguments_code, constant_code, expression_code, operator_code};

use crate::backward::Backward;
use crate::code::Instr;
use mon_syntax::{MonExpr, MonExprKind, MonOp, MonType};
use std::alloc::AllocError;

// A number of at most 64 bits at once, another one by its high bits and then its 64 low ones.
fn emit_constant(code: &mut Backward, z: i128) -> Result<(), AllocError>
    ensures { OnOk result (code.new ≡ constant_code z ++ code.old) }
{
    match i64::try_from(z) {
        Ok(short) => code.put(Instr::Push(short)),
        Err(_) => {
            let low = (z.cast_unsigned() % (1 << 64)) as u64;
            code.put(Instr::Extend(low))?;
            code.put(Instr::Push((z >> 64) as i64))
        }
    }
}

// An operator, of which the first operand is a pointer or a number.
fn operator(op: MonOp, t: MonType) -> Instr
    ensures { result ≡ operator_code op t }
{
    match t {
        MonType::Ptr => Instr::Pointed(op),
        _ => Instr::Binary(op, t),
    }
}

/// Writes the code of an expression, and an instruction after it that takes its value.
#[cycle(expression)]
pub fn emit_operand(code: &mut Backward, e: &MonExpr, taken_by: Instr) -> Result<(), AllocError>
    ensures { OnOk result (code.new ≡ expression_code (plain_expr e.now) ++ taken_by ∷ code.old) }
{
    code.put(taken_by)?;
    emit_expression(code, e)
}

/// Writes the code of an expression, whose operands come first, from left to right.
#[cycle(expression)]
pub fn emit_expression(code: &mut Backward, e: &MonExpr) -> Result<(), AllocError>
    ensures { OnOk result (code.new ≡ expression_code (plain_expr e.now) ++ code.old) }
{
    match &*e.kind {
        MonExprKind::Register(r) => code.put(Instr::Get(*r)),
        MonExprKind::Global(g) => code.put(Instr::Global(*g)),
        MonExprKind::Constant(_, z) => emit_constant(code, *z),
        MonExprKind::Binary(op, t, a, b) => {
            emit_operand(code, b, operator(*op, *t))?;
            emit_expression(code, a)
        }
        MonExprKind::Minus(t, a) => emit_operand(code, a, Instr::Minus(*t)),
        MonExprKind::Flip(t, a) => emit_operand(code, a, Instr::Flip(*t)),
        MonExprKind::Cast(t, a) => emit_operand(code, a, Instr::Cast(*t)),
        MonExprKind::Load(t, a) => emit_operand(code, a, Instr::Load(*t)),
    }
}

/// Writes the code of arguments, which come one after another.
pub fn emit_arguments(code: &mut Backward, args: &[MonExpr]) -> Result<(), AllocError>
    ensures { OnOk result (code.new ≡ arguments_code (map plain_expr args.now) ++ code.old) }
{
    let mut left = args.len();
    while left > 0 {
        left -= 1;
        emit_expression(code, &args[left])?;
    }
    Ok(())
}
