//! Variables and literals: they have no operands.

ghost use Rattle.std.specs.Prelude.{◌≡◌, IfOk};
ghost use Rattle.c_syntax.specs.Ctypes.{plain_type};
ghost use Rattle.c_syntax.specs.Expressions.{plain_expr};
ghost use Rattle.mon_syntax.specs.Trees.{plain_expr as plain_monitored};
ghost use Rattle.c_effects.specs.Expressions.{literal};
ghost use Rattle.c_effects.specs.Named.{unit_of};
ghost use Rattle.c_effects.specs.Objects.{direct_register};
ghost use Rattle.c_effects.specs.Parts.{named_value};

use crate::object::{block_of, pointer_to};
use crate::operator::{constant, loaded};
use c_syntax::{CType, Expr, ExprKind, Use};
use mon_syntax::{MonExpr, MonExprKind, MonType, Registers};
use std::alloc::{AllocError, Global};

/// A string literal.
pub fn literal(alloc: Global, names: &Registers<'_>, n: u32) -> Result<MonExpr, AllocError>
    ensures { IfOk result (λ m. plain_monitored m ≡ literal (unit_of names.now) n) }
{
    MonExpr::new(alloc, MonExprKind::Global(names.object_of_literal(n)))
}

/// The value of a variable. The one pointer of the library is `NULL`.
pub fn variable(
    alloc: Global,
    names: &Registers<'_>,
    t: &CType,
    x: Use,
) -> Result<MonExpr, AllocError>
    ensures { IfOk result (λ m. plain_monitored m ≡ named_value (unit_of names.now) names.now.table.bound (plain_type t.now) x) }
{
    if x.decl == Use::LIBRARY {
        constant(alloc, MonType::Ptr, 0)
    } else {
        let pointer = pointer_to(alloc, names, x.decl)?;
        loaded(alloc, t, pointer)
    }
}

/// The register that points to the block of a variable of a function. No other expression has one.
pub fn direct(names: &Registers<'_>, e: &Expr) -> Option<u32>
    ensures { result ≡ direct_register names.now (plain_expr e.now) }
{
    match &*e.kind {
        ExprKind::Variable(x) => {
            if names.is_global(x.decl) {
                None
            } else {
                Some(block_of(names, x.decl))
            }
        }
        ExprKind::Number(_, _)
        | ExprKind::Letter(_)
        | ExprKind::Unary(_, _)
        | ExprKind::Binary(_, _, _)
        | ExprKind::Both(_, _)
        | ExprKind::Either(_, _)
        | ExprKind::Choice(_, _, _)
        | ExprKind::Assign(_, _, _)
        | ExprKind::Bump(_, _)
        | ExprKind::Call(_, _)
        | ExprKind::Cast(_, _)
        | ExprKind::SizeOfType(_)
        | ExprKind::SizeOfExpr(_)
        | ExprKind::Text(_)
        | ExprKind::Index(_, _)
        | ExprKind::Dot(_, _)
        | ExprKind::Arrow(_, _)
        | ExprKind::Comma(_, _) => None,
    }
}
