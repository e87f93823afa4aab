//! Places that are read.

ghost use Rattle.std.specs.Prelude.{◌≡◌, IfOk};
ghost use Rattle.mon_syntax.specs.Trees.{plain_expr};
ghost use Rattle.mem_preds.specs.Questions.{read_at};

use mon_syntax::{MonExpr, MonExprKind, MonOp, MonType};
use std::alloc::{AllocError, Global};

/// The value of a type that stands at an offset of type `i128` from a pointer, `(*(t *)(P + (i64)O))`. It may be asked
/// for only where a question said that it can be read.
pub fn read_at(
    alloc: Global,
    t: MonType,
    base: MonExpr,
    offset: MonExpr,
) -> Result<MonExpr, AllocError>
    ensures { IfOk result (λ e. plain_expr e ≡ read_at t (plain_expr base) (plain_expr offset)) }
{
    let bytes = MonExpr::new(alloc, MonExprKind::Cast(MonType::I64, offset))?;
    let place = MonExpr::new(
        alloc,
        MonExprKind::Binary(MonOp::Add, MonType::Ptr, base, bytes),
    )?;
    MonExpr::new(alloc, MonExprKind::Load(t, place))
}
