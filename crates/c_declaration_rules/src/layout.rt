//! The layout of structs (C99 6.7.2.1 p13): each member stands at the next multiple of its alignment, and so does the end.

ghost use Rattle.std.specs.Prelude.{◌≡◌, ◌<◌, ◌+◌, IfOk, OnOk, map, suc};
ghost use Rattle.c_syntax.specs.Ctypes.{plain_type};
ghost use Rattle.c_syntax.specs.Programs.{plain_layout, plain_member};
ghost use Rattle.c_syntax.specs.Layouts.{align_of, aligned, size_of};
ghost use Rattle.c_model.specs.ExpressionTyping.{HasSize, levels_behind_pointer, levels_of, sized};
ghost use Rattle.c_model.specs.DeclarationTyping.{end_of, greater, placed_from, widest};
ghost use Rattle.c_declaration_rules.specs.Layouts.{IsLaidBehind};
ghost use Rattle.c_declaration_rules.specs.OpenStructs.{AreSized, IsLaid};

use c_scopes::limits::{KnownSize, align_of, number, size_of, sized};
use c_scopes::sight::number_at;
use c_syntax::{CType, Layout, Member};
use std::alloc::AllocError;

/// What a struct is with one more member: the offset of the member, and its own size and alignment, in bytes.
#[derive(Clone, Copy, PartialEq, Eq, Debug, Drop)]
pub struct Grown {
    pub offset: u32,
    pub size: u64,
    pub align: u32,
}

/// The least multiple of an alignment that is no less.
fn aligned(align: u32, n: u64) -> u64
    requires { n < 17179869184 }
    ensures { result ≡ aligned align n }
{
    if align == 0 {
        0
    } else {
        let align = u64::from(align);
        (n + align - 1) / align * align
    }
}

/// The greater of two numbers.
pub fn greater(a: u32, b: u32) -> u32
    ensures { result ≡ greater a b }
{
    if a < b { b } else { a }
}

/// Where a member ends that has a size and stands by the layout behind this offset; there are no others in structs that were laid out.
fn member_end(structs: &[Layout], end: u64, m: &Member) -> Result<u64, AllocError>
    requires { end < 17179869184 }
    ensures offset { IfOk result (λ _. m.now.offset ≡ aligned (align_of (map plain_layout structs.now) (plain_type m.now.ctype)) end) }
    ensures end { IfOk result (λ e. e ≡ m.now.offset + size_of (map plain_layout structs.now) (plain_type m.now.ctype)) }
    ensures sized { OnOk result (sized (map plain_layout structs.now) (plain_type m.now.ctype) ≡ HasSize) }
    ensures small { IfOk result (λ e. e < 17179869184) }
{
    let size = size_of(structs, &m.ctype)?;
    if sized(structs, &m.ctype) == KnownSize::HasSize
        && u64::from(m.offset) == aligned(align_of(structs, &m.ctype), end)
    {
        Ok(u64::from(m.offset) + u64::from(size))
    } else {
        Err(AllocError)
    }
}

/// Looks whether members were laid out one after another.
fn check_places(structs: &[Layout], members: &[Member]) -> Result<(), AllocError>
    ensures placed { OnOk result (placed_from (map plain_layout structs.now) 0 (map plain_member members.now) ≡ map plain_member members.now) }
    ensures sized { OnOk result (AreSized (map plain_layout structs.now) (map plain_member members.now)) }
{
    let mut end: u64 = 0;
    let mut rest = members;
    'turn: while let [m, after @ ..] = rest {
        end = member_end(structs, end, m)?;
        rest = after;
    }
    Ok(())
}

/// The greatest alignment of members.
fn widest(structs: &[Layout], members: &[Member]) -> u32
    ensures { result ≡ widest (map plain_layout structs.now) (map plain_member members.now) }
{
    let mut align = 1;
    let mut rest = members;
    'turn: while let [m, after @ ..] = rest {
        align = greater(align, align_of(structs, &m.ctype));
        rest = after;
    }
    align
}

/// Looks whether a struct that isn't whole was laid out.
pub fn check_laid(structs: &[Layout], layout: &Layout) -> Result<(), AllocError>
    ensures { OnOk result (IsLaid (map plain_layout structs.now) (plain_layout layout.now)) }
{
    check_places(structs, &layout.members)?;
    if layout.size == 0 && layout.align == widest(structs, &layout.members) {
        Ok(())
    } else {
        Err(AllocError)
    }
}

/// Where the members of a struct end.
fn members_end(structs: &[Layout], members: &[Member]) -> Result<u64, AllocError>
    ensures end { IfOk result (λ e. e ≡ end_of (map plain_layout structs.now) (map plain_member members.now)) }
    ensures small { IfOk result (λ e. e < 17179869184) }
{
    match members.last() {
        None => Ok(0),
        Some(m) => {
            let size = size_of(structs, &m.ctype)?;
            Ok(u64::from(m.offset) + u64::from(size))
        }
    }
}

/// One more than a count; one past those that there are wants memory.
pub fn more(n: u32) -> Result<u32, AllocError>
    ensures { IfOk result (λ m. m ≡ suc n) }
{
    match n.checked_add(1) {
        Some(m) => Ok(m),
        None => Err(AllocError),
    }
}

/// The levels of a type behind a pointer.
fn levels_behind_pointer(t: &CType) -> Result<u32, AllocError>
    ensures { IfOk result (λ n. n ≡ levels_behind_pointer (plain_type t.now)) }
{
    match t {
        CType::Ptr(u) => more(levels_behind_pointer(u)?),
        CType::Array(u, _) => more(levels_behind_pointer(u)?),
        _ => Ok(0),
    }
}

/// The levels of a type, where each struct has so many.
pub fn levels_of(levels: &[u32], t: &CType) -> Result<u32, AllocError>
    ensures { IfOk result (λ n. n ≡ levels_of levels.now (plain_type t.now)) }
{
    match t {
        CType::Ptr(u) => more(levels_behind_pointer(u)?),
        CType::Array(u, _) => more(levels_of(levels, u)?),
        CType::Struct(n) => Ok(number_at(levels, *n as usize)),
        _ => Ok(0),
    }
}

/// The layout of a struct that isn't whole with a member of this type behind its others. Its size may pass the limit.
pub fn grow(structs: &[Layout], layout: &Layout, t: &CType) -> Result<Grown, AllocError>
    requires { IsLaid (map plain_layout structs.now) (plain_layout layout.now) }
    ensures { IfOk result (λ g. IsLaidBehind (map plain_layout structs.now) (plain_layout layout.now).members (plain_type t.now) g.offset g.align g.size) }
{
    let end = members_end(structs, &layout.members)?;
    let size = size_of(structs, t)?;
    let align = align_of(structs, t);
    let offset = number(aligned(align, end))?;
    let align = greater(layout.align, align);
    let size = aligned(align, u64::from(offset) + u64::from(size));
    Ok(Grown {
        offset,
        size,
        align,
    })
}
