//! The layout of types (C99 6.5.3.4, 6.7.2.1): sizes, and members of structs with their offsets, among the structs of a program.

ghost use Rattle.std.specs.Prelude.{◌≡◌, ℕ, ◌*◌, ◌<◌, ◌^◌, map, option_map, slice_get};
ghost use Rattle.c_syntax.specs.Ctypes.{Struct, plain_length, plain_type};
ghost use Rattle.c_syntax.specs.Programs.{plain_layout, plain_member, plain_program};
ghost use Rattle.c_syntax.specs.Layouts.{count_of, in_word, int_size, size_of, size_of_struct, target_of};
ghost use Rattle.c_syntax.specs.Layouts.{member_among, members_of, members_of_struct, offset_among, offset_of};

use crate::program::{Layout, Member, Program};
use crate::types::{CInt, CType, Length};

/// The size of an integer type.
pub fn int_size(k: CInt) -> u32
    ensures { result ≡ int_size k }
{
    match k {
        CInt::I8 | CInt::U8 => 1,
        CInt::I16 | CInt::U16 => 2,
        CInt::I32 | CInt::U32 => 4,
        CInt::I64 | CInt::U64 => 8,
    }
}

/// The count of an array's elements, 0 where it isn't known yet.
pub fn count_of(n: &Length) -> u32
    ensures { result ≡ count_of (plain_length n.now) }
{
    match n {
        Length::Count(n) => *n,
        Length::Left | Length::Written(_) => 0,
    }
}

/// The size of a struct, 0 where there is none of this number.
fn size_of_struct(structs: &[Layout], n: u32) -> u32
    ensures { result ≡ size_of_struct (slice_get (map plain_layout structs.now) n) }
{
    match structs.get(n as usize) {
        Some(layout) => layout.size,
        None => 0,
    }
}

/// So many times a size, where 32 bits hold that.
fn times(count: u32, size: Option<u32>) -> Option<u32>
    ensures { (n : ℕ) → size ≡ in_word n → result ≡ in_word (count * n) }
{
    if count == 0 {
        return Some(0);
    }
    match size {
        None => None,
        Some(size) => count.checked_mul(size),
    }
}

/// The size of a type, where 32 bits hold it.
pub fn checked_size(structs: &[Layout], t: &CType) -> Option<u32>
    ensures { result ≡ in_word (size_of (map plain_layout structs.now) (plain_type t.now)) }
{
    match t {
        CType::Int(k) => Some(int_size(*k)),
        CType::Ptr(_) => Some(8),
        CType::Array(t, n) => times(count_of(n), checked_size(structs, t)),
        CType::Struct(n) => Some(size_of_struct(structs, *n)),
        CType::Void | CType::Named(_) | CType::StructTag(_, _) | CType::EnumTag(_, _) => Some(0),
    }
}

/// The members of a struct, none where there is none of this number.
fn members_of_struct(structs: &[Layout], n: u32) -> &[Member]
    ensures { map plain_member result.now ≡ members_of_struct (slice_get (map plain_layout structs.now) n) }
{
    match structs.get(n as usize) {
        Some(layout) => &layout.members,
        None => &[],
    }
}

/// The members of a type: only a struct has some.
pub fn members_of<'a>(structs: &'a [Layout], t: &CType) -> &'a [Member]
    ensures { map plain_member result.now ≡ members_of (map plain_layout structs.now) (plain_type t.now) }
{
    match t {
        CType::Struct(n) => members_of_struct(structs, *n),
        _ => &[],
    }
}

/// The member of a name.
pub fn member_among(members: &[Member], name: u32) -> Option<&Member>
    ensures { option_map (λ m. plain_member m.now) result ≡ member_among name (map plain_member members.now) }
{
    let mut rest = members;
    'turn: while let [m, after @ ..] = rest {
        if m.name == name {
            return Some(m);
        }
        rest = after;
    }
    None
}

/// The offset of a member of this name in a type, 0 where there is none.
pub fn offset_of_member(structs: &[Layout], t: &CType, name: u32) -> u32
    ensures { result ≡ offset_of (map plain_layout structs.now) (plain_type t.now) name }
{
    match member_among(members_of(structs, t), name) {
        Some(m) => m.offset,
        None => 0,
    }
}

/// The same in the type that a pointer points to.
pub fn offset_in_target(structs: &[Layout], t: &CType, name: u32) -> u32
    ensures { result ≡ offset_of (map plain_layout structs.now) (target_of (plain_type t.now)) name }
{
    match t {
        CType::Ptr(target) => offset_of_member(structs, target, name),
        _ => 0,
    }
}

/// The size of a type of a program in bytes.
pub fn size_of(program: &Program, ctype: &CType) -> u32
    requires { size_of (plain_program program.now).structs (plain_type ctype.now) < 2 ^ 32 }
    ensures { result ≡ size_of (plain_program program.now).structs (plain_type ctype.now) }
{
    checked_size(&program.structs, ctype).unwrap()
}

/// The offset of the member of this name in the struct with this index.
pub fn offset_of(program: &Program, index: u32, member: u32) -> Option<u32>
    ensures { result ≡ offset_among (plain_program program.now).structs (Struct index) member }
{
    let m = member_among(members_of_struct(&program.structs, index), member)?;
    Some(m.offset)
}
