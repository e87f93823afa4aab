//! The ranges of pointers, places and zones. The range of a pointer is that of its offset in its block, in bytes.

ghost use Rattle.std.specs.Prelude.{◌≡◌, IfSome, Some, option_map};
ghost use Rattle.c_syntax.specs.Ctypes.{plain_type};
ghost use Rattle.c_syntax.specs.Logic.{plain_term};
ghost use Rattle.c_model.specs.Ranges.{IsRange, from_to};
ghost use Rattle.c_model.specs.TermRanges.{TermRanged, address_range, begin_range, distance_range, end_range, has_extent, held_range};
ghost use Rattle.c_model.specs.TermRanges.{member_range, moved_range, offset_range, place_range, scaled_range, span_range, start_range, told_range};
ghost use Rattle.interval_infer.specs.Seen.{plain_seen};

use crate::seen::Seen;
use c_syntax::logic::{BlockFact, PointerOp, Term, TermKind};
use c_syntax::{CType, Range};
use ea_num::{add, mul, sub, type_range};

// No block has more bytes.
const MOST_BYTES: i128 = 1 << 32;

/// The offsets of a pointer that is read, and of an object's place.
pub fn offset_range() -> Range
    ensures is { result ≡ offset_range }
    ensures ordered { IsRange result }
{
    Range {
        lo: 0,
        hi: MOST_BYTES,
    }
}

/// The offset of a block's start.
pub fn start_range() -> Range
    ensures { result ≡ start_range }
{
    Range { lo: 0, hi: 0 }
}

/// The distances of two pointers into a block.
pub fn distance_range() -> Range
    ensures { result ≡ distance_range }
{
    Range {
        lo: -MOST_BYTES,
        hi: MOST_BYTES,
    }
}

/// What the block of a pointer can tell.
pub fn told_range(fact: BlockFact) -> Range
    ensures { result ≡ told_range fact }
{
    match fact {
        BlockFact::BaseAddr => start_range(),
        BlockFact::BlockLength | BlockFact::Offset => offset_range(),
    }
}

/// The values that a place of this type holds, where its address has this range. An array or a struct is its address.
fn typed_range(ctype: &CType, address: Range) -> Option<Range>
    ensures { result ≡ held_range (Some (plain_type ctype.now)) (Some address) }
{
    match ctype {
        CType::Int(k) => Some(type_range(*k)),
        CType::Ptr(_) => Some(offset_range()),
        CType::Array(_, _) | CType::Struct(_) => Some(address),
        _ => None,
    }
}

/// The values that a place of a C type holds, where its address has this range.
pub fn held_range(ctype: &Option<CType>, address: Option<Range>) -> Option<Range>
    ensures { result ≡ held_range (option_map plain_type ctype.now) address }
{
    let address = address?;
    match ctype {
        Some(t) => typed_range(t, address),
        None => None,
    }
}

/// The values that an object of a C type holds.
pub fn place_range(ctype: &Option<CType>) -> Option<Range>
    ensures { result ≡ place_range (option_map plain_type ctype.now) }
{
    held_range(ctype, Some(offset_range()))
}

/// The values of this type that a function gives.
pub fn result_range(ctype: &CType) -> Option<Range>
    ensures { result ≡ place_range (Some (plain_type ctype.now)) }
{
    typed_range(ctype, offset_range())
}

/// The range of the address of a place whose parts have their ranges. A term that is no place has none.
pub fn address_range(seen: &Seen<'_>, t: &Term) -> Option<Range>
    requires ranged { TermRanged (plain_seen seen.now) (plain_term t.now) }
    ensures is { result ≡ address_range (plain_term t.now) }
    ensures ordered { IfSome result IsRange }
{
    match &*t.kind {
        TermKind::Variable(_) => Some(offset_range()),
        TermKind::Deref(pointer) => Some(pointer.range),
        TermKind::Member(offset, place) => member_range(*offset, address_range(seen, place)),
        _ => None,
    }
}

/// The range of the address of the member at an offset, in bytes, in a place.
pub fn member_range(offset: u32, address: Option<Range>) -> Option<Range>
    requires address { IfSome address IsRange }
    ensures is { result ≡ member_range offset address }
    ensures ordered { IfSome result IsRange }
{
    add(exactly(i128::from(offset)), address?)
}

/// The range of a pointer moved by so many elements of a size in bytes.
pub fn moved_range(op: PointerOp, size: u32, pointer: Range, count: Range) -> Option<Range>
    requires pointer { IsRange pointer }
    requires count { IsRange count }
    ensures { result ≡ moved_range op size pointer count }
{
    let bytes = scaled_range(size, count)?;
    match op {
        PointerOp::Plus => add(pointer, bytes),
        PointerOp::Minus => sub(pointer, bytes),
    }
}

/// Whether the elements of a size in bytes, from one to another behind a pointer, begin and end within signed 128 bits, and
/// so does each sum and product on the way there.
pub fn has_extent(size: u32, pointer: Range, lo: Range, hi: Range) -> bool
    requires pointer { IsRange pointer }
    requires first { IsRange lo }
    requires last { IsRange hi }
    ensures { result ≡ has_extent size pointer lo hi }
{
    begin_range(size, pointer, lo).is_some() && end_range(size, pointer, lo, hi).is_some()
}

// Where the elements begin.
fn begin_range(size: u32, pointer: Range, lo: Range) -> Option<Range>
    requires pointer { IsRange pointer }
    requires first { IsRange lo }
    ensures { result ≡ begin_range size pointer lo }
{
    add(pointer, scaled_range(size, lo)?)
}

// How far behind the pointer so many bytes end as the elements have.
fn end_range(size: u32, pointer: Range, lo: Range, hi: Range) -> Option<Range>
    requires pointer { IsRange pointer }
    requires first { IsRange lo }
    requires last { IsRange hi }
    ensures { result ≡ end_range size pointer lo hi }
{
    add(pointer, span_range(size, lo, hi)?)
}

// How many bytes the elements have, both ends included.
fn span_range(size: u32, lo: Range, hi: Range) -> Option<Range>
    requires first { IsRange lo }
    requires last { IsRange hi }
    ensures is { result ≡ span_range size lo hi }
    ensures ordered { IfSome result IsRange }
{
    let distance = sub(hi, lo)?;
    scaled_range(size, add(distance, exactly(1))?)
}

// So many bytes of each element.
fn scaled_range(size: u32, count: Range) -> Option<Range>
    requires { IsRange count }
    ensures is { result ≡ scaled_range size count }
    ensures ordered { IfSome result IsRange }
{
    mul(exactly(i128::from(size)), count)
}

/// The range of one number.
pub fn exactly(number: i128) -> Range
    ensures is { result ≡ from_to number number }
    ensures ordered { IsRange result }
{
    Range {
        lo: number,
        hi: number,
    }
}
