//! The parts of objects that a list in braces initialises one by one (C99 6.7.8 p17): elements of arrays and members of
//! structs.

ghost use Rattle.std.specs.Prelude.{◌≡◌, IfOk, drop, map, option_map};
ghost use Rattle.c_syntax.specs.Ctypes.{plain_type};
ghost use Rattle.c_syntax.specs.Programs.{plain_layout};
ghost use Rattle.c_initialisers.specs.Initialisers.{first_part, parts_in, plain_parts};

use c_effects::slot::farther_by;
use c_syntax::layout::members_of;
use c_syntax::{CType, Layout, Length, Member};
use std::alloc::AllocError;
use track_scopes::size::size_of;

/// Parts in order, each at its offset.
#[derive(Clone, Copy)]
pub enum Parts<'a> {
    /// The offset of the first element, the size of each, how many there are, and their type.
    Elements(u64, u64, u32, &'a CType),
    Members(&'a [Member]),
}

/// The parts of an object of the type. A scalar is its own part (C99 6.7.8 p11).
pub fn parts_of<'a>(structs: &'a [Layout], t: &'a CType) -> Result<Parts<'a>, AllocError>
    ensures { IfOk result (λ parts. plain_parts parts ≡ parts_in (map plain_layout structs.now) (plain_type t.now)) }
{
    match t {
        CType::Int(_) | CType::Ptr(_) => Ok(Parts::Elements(0, 0, 1, t)),
        CType::Array(element, Length::Count(n)) => {
            let size = size_of(structs, element)?;
            Ok(Parts::Elements(0, size, *n, element))
        }
        CType::Struct(_) => Ok(Parts::Members(members_of(structs, t))),
        CType::Array(_, Length::Left | Length::Written(_))
        | CType::Void
        | CType::Named(_)
        | CType::StructTag(..)
        | CType::EnumTag(_, _) => Ok(Parts::Members(&[])),
    }
}

/// The first part: its offset and its type.
pub fn first<'a>(parts: Parts<'a>) -> Option<(u64, &'a CType)>
    ensures { option_map (λ c. (c.0, plain_type c.1.now)) result ≡ first_part (plain_parts parts.entry) }
{
    match parts {
        Parts::Elements(_, _, 0, _) => None,
        Parts::Elements(offset, _, _, t) => Some((offset, t)),
        Parts::Members([]) => None,
        Parts::Members([m, ..]) => Some((u64::from(m.offset), &m.ctype)),
    }
}

/// The parts after the first.
pub fn rest<'a>(parts: Parts<'a>) -> Result<Parts<'a>, AllocError>
    ensures { IfOk result (λ rest. plain_parts rest ≡ drop 1 (plain_parts parts.entry)) }
{
    match parts {
        Parts::Elements(_, _, 0, _) | Parts::Members([]) => Ok(parts),
        Parts::Elements(offset, size, count, t) => {
            let next = farther_by(offset, size)?;
            Ok(Parts::Elements(next, size, count - 1, t))
        }
        Parts::Members([_, after @ ..]) => Ok(Parts::Members(after)),
    }
}
