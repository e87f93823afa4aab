//! Where objects and their parts stand.

ghost use Rattle.std.specs.Prelude.{◌≡◌, IfOk, map};
ghost use Rattle.c_syntax.specs.Ctypes.{plain_type};
ghost use Rattle.c_syntax.specs.Programs.{plain_layout};
ghost use Rattle.c_syntax.specs.Layouts.{size_of, target_of};
ghost use Rattle.c_model.specs.Meaning.{unit_of};

use c_syntax::{CType, Layout};
use std::alloc::AllocError;
use track_scopes::size::size_of;

/// The size of what a pointer points to, 0 where it is none.
pub fn target_size(structs: &[Layout], t: &CType) -> Result<u64, AllocError>
    ensures { IfOk result (λ n. n ≡ size_of (map plain_layout structs.now) (target_of (plain_type t.now))) }
{
    match t {
        CType::Ptr(target) => size_of(structs, target),
        _ => Ok(0),
    }
}

/// The size of what is pointed to, on either side.
pub fn unit_of(structs: &[Layout], t: &CType, u: &CType) -> Result<u64, AllocError>
    ensures { IfOk result (λ n. n ≡ unit_of (map plain_layout structs.now) (plain_type t.now) (plain_type u.now)) }
{
    match t {
        CType::Ptr(_) => target_size(structs, t),
        _ => target_size(structs, u),
    }
}
