//! Copies of expressions, for a value that stands in two places.

ghost use Rattle.std.specs.Prelude.{◌≡◌, IfOk};
ghost use Rattle.mon_syntax.specs.Trees.{plain_expr, plain_expr_kind};

use mon_syntax::{MonExpr, MonExprKind};
use std::alloc::{AllocError, Global};

/// The same expression.
#[cycle(copy)]
pub fn copy_of(alloc: Global, e: &MonExpr) -> Result<MonExpr, AllocError>
    ensures { IfOk result (λ c. plain_expr c ≡ plain_expr e.now) }
{
    let kind = copy_of_kind(alloc, &e.kind)?;
    MonExpr::new(alloc, kind)
}

#[cycle(copy)]
fn copy_of_kind(alloc: Global, kind: &MonExprKind) -> Result<MonExprKind, AllocError>
    ensures { IfOk result (λ k. plain_expr_kind k ≡ plain_expr_kind kind.now) }
{
    match kind {
        MonExprKind::Register(r) => Ok(MonExprKind::Register(*r)),
        MonExprKind::Global(g) => Ok(MonExprKind::Global(*g)),
        MonExprKind::Constant(t, n) => Ok(MonExprKind::Constant(*t, *n)),
        MonExprKind::Binary(op, t, a, b) => {
            let a = copy_of(alloc, a)?;
            let b = copy_of(alloc, b)?;
            Ok(MonExprKind::Binary(*op, *t, a, b))
        }
        MonExprKind::Minus(t, a) => Ok(MonExprKind::Minus(*t, copy_of(alloc, a)?)),
        MonExprKind::Flip(t, a) => Ok(MonExprKind::Flip(*t, copy_of(alloc, a)?)),
        MonExprKind::Cast(t, a) => Ok(MonExprKind::Cast(*t, copy_of(alloc, a)?)),
        MonExprKind::Load(t, a) => Ok(MonExprKind::Load(*t, copy_of(alloc, a)?)),
    }
}
