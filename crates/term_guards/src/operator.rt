//! The guard of each operator.

ghost use Rattle.std.specs.Prelude.{◌≡◌, IfOk};
ghost use Rattle.mon_syntax.specs.declared.tree.MonType.TheVariants.{I32};
ghost use Rattle.mon_syntax.specs.Trees.{Constant, plain_expr};
ghost use Rattle.term_guards.specs.Guards.{guard, is_nonnegative, is_nonzero};

use c_syntax::BinOp;
use mon_syntax::{MonExpr, MonExprKind, MonOp, MonType};
use std::alloc::{AllocError, Global};

/// An expression that is 1 where the operator is defined on its operands, and 0 elsewhere. The second operand is of the
/// type `t`, which isn't that of pointers; the first one plays no part.
pub fn guard(alloc: Global, t: MonType, op: BinOp, right: MonExpr) -> Result<MonExpr, AllocError>
    ensures { IfOk result (λ e. plain_expr e ≡ guard t op (plain_expr right)) }
{
    match op {
        BinOp::Div | BinOp::Rem => is_nonzero(alloc, t, right),
        BinOp::Shl | BinOp::Shr => is_nonnegative(alloc, t, right),
        BinOp::Add | BinOp::Sub | BinOp::Mul => constant(alloc, MonType::I32, 1),
        BinOp::BitAnd | BinOp::BitOr | BinOp::BitXor => constant(alloc, MonType::I32, 1),
        BinOp::Eq | BinOp::Ne | BinOp::Lt | BinOp::Le | BinOp::Gt | BinOp::Ge => {
            constant(alloc, MonType::I32, 0)
        }
    }
}

fn constant(alloc: Global, t: MonType, n: i128) -> Result<MonExpr, AllocError>
    ensures { IfOk result (λ e. plain_expr e ≡ Constant t n) }
{
    MonExpr::new(alloc, MonExprKind::Constant(t, n))
}

/// `e != 0`
fn is_nonzero(alloc: Global, t: MonType, e: MonExpr) -> Result<MonExpr, AllocError>
    ensures { IfOk result (λ x. plain_expr x ≡ is_nonzero t (plain_expr e)) }
{
    let zero = constant(alloc, t, 0)?;
    MonExpr::new(alloc, MonExprKind::Binary(MonOp::Ne, t, e, zero))
}

/// `0 <= e`
fn is_nonnegative(alloc: Global, t: MonType, e: MonExpr) -> Result<MonExpr, AllocError>
    ensures { IfOk result (λ x. plain_expr x ≡ is_nonnegative t (plain_expr e)) }
{
    let zero = constant(alloc, t, 0)?;
    MonExpr::new(alloc, MonExprKind::Binary(MonOp::Le, t, zero, e))
}
