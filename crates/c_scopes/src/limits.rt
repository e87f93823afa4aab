//! Whether the size of a type is known (C99 6.2.5 p1), sizes and alignments, and the limits on types (C99 5.2.4.1).

ghost use Rattle.std.specs.Prelude.{◌≡◌, IfOk, map, nat_le, slice_get};
ghost use Rattle.c_syntax.specs.Ctypes.{plain_type};
ghost use Rattle.c_syntax.specs.Programs.{plain_layout};
ghost use Rattle.c_syntax.specs.Layouts.{align_of, align_of_struct, size_of};
ghost use Rattle.c_model.specs.ExpressionTyping.{has_small_parts, is_known, is_within_limits, levels_behind_pointer, levels_of, sized};
ghost use Rattle.c_scopes.specs.Limits.{plain_sized, small};
ghost use Rattle.c_scopes.specs.Sights.{plain_sight};

use crate::sight::{Sight, number_at};
use c_syntax::layout::{checked_size, int_size};
use c_syntax::{CType, Layout, Length};
use std::alloc::AllocError;

/// How many pointers and arrays may stand around one another in a type.
pub const MOST_LEVELS: u32 = 100;

/// How many elements an array has at most.
pub const MOST_ELEMENTS: u32 = 2_147_483_647;

/// How many bytes a type has at most.
pub const MOST_BYTES: u32 = 2_147_483_647;

/// Whether a type has a size: a struct whose members aren't known yet may have one.
#[derive(Clone, Copy, PartialEq, Eq, Debug)]
pub enum KnownSize {
    HasSize,
    HasNoSize,
    NotYet,
}

/// A number that a tree holds, where there is room for it.
pub fn number(n: u64) -> Result<u32, AllocError>
    ensures { IfOk result (λ m. m ≡ n) }
{
    match u32::try_from(n) {
        Ok(n) => Ok(n),
        Err(_) => Err(AllocError),
    }
}

/// Whether the members of a struct are known.
fn is_known(structs: &[Layout], n: u32) -> KnownSize
    ensures { plain_sized result ≡ is_known (slice_get (map plain_layout structs.now) n) }
{
    match structs.get(n as usize) {
        None => KnownSize::NotYet,
        Some(layout) => {
            if layout.size == 0 {
                KnownSize::NotYet
            } else {
                KnownSize::HasSize
            }
        }
    }
}

/// Whether the size of a type is known.
pub fn sized(structs: &[Layout], t: &CType) -> KnownSize
    ensures { plain_sized result ≡ sized (map plain_layout structs.now) (plain_type t.now) }
{
    match t {
        CType::Int(_) | CType::Ptr(_) => KnownSize::HasSize,
        CType::Array(t, Length::Count(_)) => sized(structs, t),
        CType::Struct(n) => is_known(structs, *n),
        _ => KnownSize::HasNoSize,
    }
}

/// Whether a type behind a pointer has at most so many levels.
fn is_shallow_behind(t: &CType, most: u32) -> bool
    ensures { result ≡ nat_le (levels_behind_pointer (plain_type t.now)) most }
{
    match t {
        CType::Ptr(t) => most > 0 && is_shallow_behind(t, most - 1),
        CType::Array(t, _) => most > 0 && is_shallow_behind(t, most - 1),
        _ => true,
    }
}

/// Whether a type has at most so many levels.
fn is_shallow(levels: &[u32], t: &CType, most: u32) -> bool
    ensures { result ≡ nat_le (levels_of levels.now (plain_type t.now)) most }
{
    match t {
        CType::Ptr(t) => most > 0 && is_shallow_behind(t, most - 1),
        CType::Array(t, _) => most > 0 && is_shallow(levels, t, most - 1),
        CType::Struct(n) => number_at(levels, *n as usize) <= most,
        _ => true,
    }
}

/// A size, where it is within the limit.
fn small(n: u32) -> Option<u32>
    ensures { result ≡ small n }
{
    if n <= MOST_BYTES { Some(n) } else { None }
}

/// The size of a type, where it is within the limit.
pub fn small_size(structs: &[Layout], t: &CType) -> Option<u32>
    ensures { result ≡ small (size_of (map plain_layout structs.now) (plain_type t.now)) }
{
    small(checked_size(structs, t)?)
}

/// The size of a type within the limit, in bytes; one past it wants memory.
pub fn size_of(structs: &[Layout], t: &CType) -> Result<u32, AllocError>
    ensures { IfOk result (λ n. n ≡ size_of (map plain_layout structs.now) (plain_type t.now)) }
{
    match small_size(structs, t) {
        Some(n) => Ok(n),
        None => Err(AllocError),
    }
}

/// The alignment of the struct of a number in bytes, 1 where there is none.
fn align_of_struct(structs: &[Layout], n: u32) -> u32
    ensures { result ≡ align_of_struct (slice_get (map plain_layout structs.now) n) }
{
    match structs.get(n as usize) {
        Some(layout) => layout.align,
        None => 1,
    }
}

/// The alignment of a type in bytes.
pub fn align_of(structs: &[Layout], t: &CType) -> u32
    ensures { result ≡ align_of (map plain_layout structs.now) (plain_type t.now) }
{
    match t {
        CType::Int(k) => int_size(*k),
        CType::Ptr(_) => 8,
        CType::Array(u, _) => align_of(structs, u),
        CType::Struct(n) => align_of_struct(structs, *n),
        CType::Void | CType::Named(_) | CType::StructTag(..) | CType::EnumTag(..) => 1,
    }
}

/// Whether a type and the types in it have few enough bytes.
pub fn has_small_parts(structs: &[Layout], t: &CType) -> bool
    ensures { result ≡ has_small_parts (map plain_layout structs.now) (plain_type t.now) }
{
    match t {
        CType::Ptr(u) => has_small_parts(structs, u),
        CType::Array(u, _) => small_size(structs, t).is_some() && has_small_parts(structs, u),
        CType::Struct(_) => small_size(structs, t).is_some(),
        _ => true,
    }
}

/// Whether a type passes no limit.
pub fn is_within_limits(sight: &Sight, t: &CType) -> bool
    ensures { result ≡ is_within_limits (plain_sight sight.now) (plain_type t.now) }
{
    is_shallow(&sight.levels, t, MOST_LEVELS) && has_small_parts(&sight.structs, t)
}
