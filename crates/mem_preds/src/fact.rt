//! What is told of a block.

ghost use Rattle.std.specs.Prelude.{◌≡◌, IfOk};
ghost use Rattle.mon_syntax.specs.Trees.{plain_expr, plain_stmt};
ghost use Rattle.mem_preds.specs.Questions.{call_of_fact, told};

use c_syntax::logic::BlockFact;
use mon_syntax::{MemoryCall, MonExpr, MonStmt, MonStmtKind};
use std::alloc::{AllocError, Global};

/// The statement that puts into a register what is told of the block that a pointer of type `ptr`, at an offset of type
/// `i128`, is inside: its start as a `ptr`, or its length or the offset in it as an `i64`. Where it is inside no live
/// block the register gets null or 0.
pub fn tell(
    alloc: Global,
    fact: BlockFact,
    base: MonExpr,
    offset: MonExpr,
    into: u32,
) -> Result<MonStmt, AllocError>
    ensures { IfOk result (λ s. plain_stmt s ≡ told fact (plain_expr base) (plain_expr offset) into) }
{
    let mut operands = Vec::new(alloc);
    operands.push(base)?;
    operands.push(offset)?;
    MonStmt::new(alloc, MonStmtKind::Act(Some(into), call_of(fact), operands))
}

// The call of the runtime that tells it.
fn call_of(fact: BlockFact) -> MemoryCall
    ensures { result ≡ call_of_fact fact }
{
    match fact {
        BlockFact::BaseAddr => MemoryCall::BaseAddr,
        BlockFact::BlockLength => MemoryCall::BlockLength,
        BlockFact::Offset => MemoryCall::Offset,
    }
}
