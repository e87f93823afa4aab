//! The code of statements that hold no others.

ghost use Rattle.std.specs.Prelude.{◌≡◌, ◌∷◌, [], ◌++◌, map, option_map, length, OnOk};
ghost use Rattle.mon_syntax.specs.Trees.{Act, Assert, Call, GetChar, Goto, PrintText, PutChar, Return, Store, plain_expr};
ghost use Rattle.c_lower.specs.Code.{result_code, statement_code};
ghost use Rattle.c_lower.specs.Labels.{open_labels};

use crate::backward::Backward;
use crate::code::Instr;
use crate::expressions::{emit_arguments, emit_expression, emit_operand};
use crate::labels::{Labels, behind_label};
use c_syntax::Kind;
use mon_syntax::{MemoryCall, MonExpr, MonType};
use std::alloc::AllocError;

/// `*(t *)R = e;` with its mark.
pub fn emit_store(code: &mut Backward, r: u32, t: MonType, e: &MonExpr) -> Result<(), AllocError>
    ensures { OnOk result (code.new ≡ statement_code (Store r t (plain_expr e.now)) 0 [] ++ code.old) }
{
    emit_operand(code, e, Instr::Store(t))?;
    code.put(Instr::Get(r))
}

/// `__e_acsl_assert(d, v, number, line, kind);`
pub fn emit_assert(
    code: &mut Backward,
    d: &MonExpr,
    v: &MonExpr,
    number: u32,
    line: u32,
    kind: Kind,
) -> Result<(), AllocError>
    ensures { OnOk result (code.new ≡ statement_code (Assert (plain_expr d.now) (plain_expr v.now) number line kind) 0 [] ++ code.old) }
{
    emit_operand(code, v, Instr::Assert(number, line, kind))?;
    emit_expression(code, d)
}

// The value of a call goes into a register, or away.
fn result_of(r: Option<u32>) -> Instr
    ensures { result ≡ result_code r }
{
    match r {
        Some(r) => Instr::Put(r),
        None => Instr::Drop,
    }
}

/// `putchar(e);`, or `R = putchar(e);`
pub fn emit_put_char(code: &mut Backward, r: Option<u32>, e: &MonExpr) -> Result<(), AllocError>
    ensures { OnOk result (code.new ≡ statement_code (PutChar r (plain_expr e.now)) 0 [] ++ code.old) }
{
    code.put(result_of(r))?;
    emit_operand(code, e, Instr::PutChar)
}

/// `getchar();`, or `R = getchar();`
pub fn emit_get_char(code: &mut Backward, r: Option<u32>) -> Result<(), AllocError>
    ensures { OnOk result (code.new ≡ statement_code (GetChar r) 0 [] ++ code.old) }
{
    code.put(result_of(r))?;
    code.put(Instr::GetChar)
}

/// `f(..);`, or `R = f(..);`: a call of the runtime on the memory.
pub fn emit_act(
    code: &mut Backward,
    r: Option<u32>,
    f: MemoryCall,
    args: &[MonExpr],
) -> Result<(), AllocError>
    ensures { OnOk result (code.new ≡ statement_code (Act r f (map plain_expr args.now)) 0 [] ++ code.old) }
{
    code.put(result_of(r))?;
    code.put(Instr::Act(f, args.len()))?;
    emit_arguments(code, args)
}

/// `f(..);`, or `R = f(..);`: a call of the function with this number.
pub fn emit_call(
    code: &mut Backward,
    r: Option<u32>,
    f: u32,
    args: &[MonExpr],
) -> Result<(), AllocError>
    ensures { OnOk result (code.new ≡ statement_code (Call r f (map plain_expr args.now)) 0 [] ++ code.old) }
{
    code.put(result_of(r))?;
    code.put(Instr::Call(f, args.len()))?;
    emit_arguments(code, args)
}

/// `__e_acsl_print_text("..");`
pub fn emit_text(code: &mut Backward, bytes: &[u8]) -> Result<(), AllocError>
    ensures { OnOk result (code.new ≡ statement_code (PrintText bytes.now) 0 [] ++ code.old) }
{
    let mut left = bytes.len();
    while left > 0 {
        left -= 1;
        code.put(Instr::PutByte(bytes[left]))?;
    }
    Ok(())
}

/// `goto LABEL;`: without a body of that label the machine faults there.
pub fn emit_goto(code: &mut Backward, label: &[u8], labels: &Labels<'_>) -> Result<(), AllocError>
    ensures { OnOk result (code.new ≡ statement_code (Goto label.now) (length code.old) (open_labels labels.now) ++ code.old) }
{
    match behind_label(labels, label) {
        None => code.put(Instr::Fail),
        Some(end) => code.put(Instr::GoOn(code.len().saturating_sub(end))),
    }
}

/// `return e;`, or `return;`, which returns 0.
pub fn emit_return(code: &mut Backward, value: &Option<MonExpr>) -> Result<(), AllocError>
    ensures { OnOk result (code.new ≡ statement_code (Return (option_map plain_expr value.now)) 0 [] ++ code.old) }
{
    code.put(Instr::Return)?;
    match value {
        None => code.put(Instr::Push(0)),
        Some(e) => emit_expression(code, e),
    }
}
