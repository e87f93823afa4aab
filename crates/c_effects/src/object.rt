//! Objects: the pointers to their blocks, their values, and stores into them.

ghost use Rattle.std.specs.Prelude.{◌≡◌, IfOk, OnOk};
ghost use Rattle.c_syntax.specs.Ctypes.{plain_type};
ghost use Rattle.mon_syntax.specs.Trees.{plain_expr as plain_monitored, plain_stmts};
ghost use Rattle.c_effects.specs.Expressions.{before, pointer_to};
ghost use Rattle.c_effects.specs.Effects.{block_of, current, store};
ghost use Rattle.c_effects.specs.Named.{unit_of};

use crate::conversion::value_type;
use crate::operator::register;
use crate::part::then;
use c_syntax::CType;
use mon_syntax::{MonExpr, MonExprKind, MonStmt, MonStmtKind, Registers};
use std::alloc::{AllocError, Global};

/// The pointer to the block of a declaration: in its register, or else that of a global.
pub fn pointer_to(alloc: Global, names: &Registers<'_>, x: u32) -> Result<MonExpr, AllocError>
    ensures { IfOk result (λ m. plain_monitored m ≡ pointer_to (unit_of names.now) names.now.table.bound x) }
{
    match names.register_of(x) {
        Some(number) => register(alloc, number),
        None => { MonExpr::new(alloc, MonExprKind::Global(names.object_of_global(x))) }
    }
}

/// The register that points to the block of a declaration.
pub fn block_of(names: &Registers<'_>, x: u32) -> u32
    ensures { result ≡ block_of names.now.table.bound x }
{
    match names.register_of(x) {
        Some(number) => number,
        None => 0,
    }
}

/// The value of the object to which a register points.
pub fn current(alloc: Global, block: u32, t: &CType) -> Result<MonExpr, AllocError>
    ensures { IfOk result (λ m. plain_monitored m ≡ current block (plain_type t.now)) }
{
    let pointer = register(alloc, block)?;
    MonExpr::new(alloc, MonExprKind::Load(value_type(t), pointer))
}

/// It becomes a value.
pub fn store(
    alloc: Global,
    block: u32,
    t: &CType,
    value: MonExpr,
    to: &mut Vec<MonStmt>,
) -> Result<(), AllocError>
    ensures { OnOk result (plain_stmts to.new.items ≡ before (plain_stmts to.old.items) (store block (plain_type t.now) (plain_monitored value))) }
{
    then(alloc, to, MonStmtKind::Store(block, value_type(t), value))
}
