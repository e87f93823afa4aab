//! Two ranges of bytes.

ghost use Rattle.std.specs.Prelude.{◌≡◌, IfOk};
ghost use Rattle.mon_syntax.specs.Trees.{plain_expr, plain_stmt};
ghost use Rattle.mem_preds.specs.Questions.{parted};

use mon_syntax::{MemoryCall, MonExpr, MonStmt, MonStmtKind};
use std::alloc::{AllocError, Global};

/// So many bytes at an offset from a pointer; the offset and the length are of type `i128`.
#[derive(Drop)]
pub struct Bytes {
    pub base: MonExpr,
    pub offset: MonExpr,
    pub length: MonExpr,
}

/// The statement that puts into a register whether two ranges share no byte.
pub fn part(alloc: Global, first: Bytes, second: Bytes, into: u32) -> Result<MonStmt, AllocError>
    ensures { IfOk result (λ s. plain_stmt s ≡ parted (plain_expr first.base) (plain_expr first.offset) (plain_expr first.length)
        (plain_expr second.base) (plain_expr second.offset) (plain_expr second.length) into) }
{
    let mut operands = Vec::new(alloc);
    operands.push(first.base)?;
    operands.push(first.offset)?;
    operands.push(first.length)?;
    operands.push(second.base)?;
    operands.push(second.offset)?;
    operands.push(second.length)?;
    MonStmt::new(
        alloc,
        MonStmtKind::Act(Some(into), MemoryCall::Separated, operands),
    )
}
