//! Sizes of types (C99 6.5.3.4) in monitored C, among a program's structs.

ghost use Rattle.std.specs.Prelude.{◌≡◌, ◌<◌, ◌^◌, IfOk, map, pos};
ghost use Rattle.c_syntax.specs.Ctypes.{plain_type};
ghost use Rattle.c_syntax.specs.Programs.{plain_layout};
ghost use Rattle.c_syntax.specs.Layouts.{size_of};
ghost use Rattle.mon_syntax.specs.Trees.{Constant, plain_expr};
ghost use Rattle.mon_syntax.specs.declared.tree.MonType.TheVariants.{U64};

use c_syntax::layout::checked_size;
use c_syntax::{CType, Layout};
use mon_syntax::{MonExpr, MonExprKind, MonType};
use std::alloc::{AllocError, Global};

/// The size of a type in bytes. No memory holds an object of more than 32 bits count.
pub fn size_of(structs: &[Layout], t: &CType) -> Result<u64, AllocError>
    ensures { IfOk result (λ n. n ≡ size_of (map plain_layout structs.now) (plain_type t.now)) }
{
    match checked_size(structs, t) {
        Some(size) => Ok(u64::from(size)),
        None => Err(AllocError),
    }
}

/// The size of a type in bytes, as a constant.
pub fn size_constant(alloc: Global, structs: &[Layout], t: &CType) -> Result<MonExpr, AllocError>
    ensures code { IfOk result (λ e. plain_expr e ≡ Constant U64 (pos (size_of (map plain_layout structs.now) (plain_type t.now)))) }
    ensures small { IfOk result (λ _. size_of (map plain_layout structs.now) (plain_type t.now) < 2 ^ 64) }
{
    let size = size_of(structs, t)?;
    MonExpr::new(alloc, MonExprKind::Constant(MonType::U64, i128::from(size)))
}
