// Questions about a place of a segment, at an offset in its block. None of them changes anything, and none faults.

ghost use Rattle.std.specs.Prelude.{◌≡◌, ◌+◌, ◌-◌, ◌*◌, ◌/◌, ◌%◌, ◌^◌, ◌<◌, ◌≤◌, length, get_or, Some, None, IfSome};
ghost use Rattle.raw_seg.specs.Bytes.{IsWidth};
ghost use Rattle.shadow_segments.specs.Shadow.{longest_segment, IsWhole};
ghost use Rattle.mon_syntax.specs.Questions.{plus, minus, moved, live_at, range_in, pointer_at, region_valid, region_valid_read};
ghost use Rattle.mon_syntax.specs.Questions.{region_initialized, region_number, region_pointer, region_inside, region_offset};

use crate::looks::{all_in_unit, all_in_unit_written, all_written, note_at, note_written};
use crate::region::Region;
use c_syntax::BlockKind;
use shadow_segments::{Asked, BlockNote};

impl Region {
    /// The record of the live block with this number whose units hold this place.
    #[inline(always)]
    pub fn live_at(&self, at: u32, number: u32) -> Option<BlockNote>
        ensures value { result ≡ live_at self.now at number }
        ensures there { IfSome result (λ note. get_or self.now.shadow.notes (at / 16) None ≡ Some note) }
        ensures whole { IfSome result (λ note. IsWhole self.now.shadow.notes (at / 16) note) }
        ensures inside { IfSome result (λ note. note.base + note.length < length self.now.bytes) }
        ensures small { length self.now.bytes ≤ longest_segment }
    {
        // A use of a field tells the check how long the segment is.
        let _ = self.bytes.len();
        match note_at(&self.shadow, at) {
            Some(note) if note.number == number => Some(note),
            _ => None,
        }
    }

    /// The same where the words of this place's unit are written. `None` if they aren't, and nothing is said then.
    #[inline(always)]
    pub fn live_written(&self, at: u32, number: u32) -> Option<Option<BlockNote>>
        ensures value { IfSome result (λ found. found ≡ live_at self.now at number) }
        ensures there { IfSome result (λ found. IfSome found (λ note. get_or self.now.shadow.notes (at / 16) None ≡ Some note)) }
        ensures whole { IfSome result (λ found. IfSome found (λ note. IsWhole self.now.shadow.notes (at / 16) note)) }
        ensures inside { IfSome result (λ found. IfSome found (λ note. note.base + note.length < length self.now.bytes)) }
        ensures small { length self.now.bytes ≤ longest_segment }
    {
        // A use of a field tells the check how long the segment is.
        let _ = self.bytes.len();
        match note_written(&self.shadow, at)? {
            Some(note) if note.number == number => Some(Some(note)),
            _ => Some(None),
        }
    }

    /// Whether so many bytes at this offset lie within a live block that may be written, aligned.
    #[inline(always)]
    pub fn valid(&self, at: u32, number: u32, offset: i128, size: u128, align: u32) -> bool
        requires align { IsWidth align }
        requires size { size < 2 ^ 127 }
        ensures { result ≡ region_valid self.now at number offset size align }
    {
        match self.live_at(at, number) {
            Some(note) => {
                note.kind != BlockKind::Literal && range_in(note, at, offset, size, align).is_some()
            }
            None => false,
        }
    }

    /// The same of a block that is read.
    #[inline(always)]
    pub fn valid_read(&self, at: u32, number: u32, offset: i128, size: u128, align: u32) -> bool
        requires align { IsWidth align }
        requires size { size < 2 ^ 127 }
        ensures { result ≡ region_valid_read self.now at number offset size align }
    {
        match self.live_at(at, number) {
            Some(note) => range_in(note, at, offset, size, align).is_some(),
            None => false,
        }
    }

    /// Whether so many bytes at this offset lie within a live block, aligned, and all are written.
    pub fn initialized(&self, at: u32, number: u32, offset: i128, size: u128, align: u32) -> bool
        requires align { IsWidth align }
        requires size { size < 2 ^ 127 }
        ensures { result ≡ region_initialized self.now at number offset size align }
    {
        let note = match self.live_at(at, number) {
            Some(note) => note,
            None => return false,
        };
        match range_in(note, at, offset, size, align) {
            Some(from) => all_written(&self.shadow, from, from + size as u32),
            None => false,
        }
    }

    /// Whether the bytes of a number lie at this offset within a live block, aligned, and all are written by numbers.
    #[inline(always)]
    pub fn number(&self, at: u32, number: u32, offset: i128, width: u32) -> bool
        requires { IsWidth width }
        ensures { result ≡ region_number self.now at number offset width }
    {
        match self.number_written(at, number, offset, width) {
            Some(holds) => holds,
            None => self.number_behind(at, number, offset, width),
        }
    }

    // The same where the words that tell it are written. All of it is left to `number_behind` where one isn't, so that nothing comes back
    // from there into what is put in line.
    #[inline(always)]
    fn number_written(&self, at: u32, number: u32, offset: i128, width: u32) -> Option<bool>
        requires { IsWidth width }
        ensures { IfSome result (λ holds. holds ≡ region_number self.now at number offset width) }
    {
        let note = match self.live_written(at, number)? {
            Some(note) => note,
            None => return Some(false),
        };
        match place_in(note, at, offset, width) {
            Some(from) => all_in_unit_written(
                &self.shadow,
                Asked::Number,
                from as usize / 16,
                from % 16,
                from % 16 + width,
            ),
            None => Some(false),
        }
    }

    // The same, also where they aren't.
    #[cold]
    #[inline(never)]
    fn number_behind(&self, at: u32, number: u32, offset: i128, width: u32) -> bool
        requires { IsWidth width }
        ensures { result ≡ region_number self.now at number offset width }
    {
        let note = match self.live_at(at, number) {
            Some(note) => note,
            None => return false,
        };
        match place_in(note, at, offset, width) {
            Some(from) => all_in_unit(
                &self.shadow,
                Asked::Number,
                from as usize / 16,
                from % 16,
                from % 16 + width,
            ),
            None => false,
        }
    }

    /// Whether the eight bytes of a pointer lie at this offset within a live block, aligned; eight numbers that are 0 are a pointer too.
    #[inline(always)]
    pub fn pointer(&self, at: u32, number: u32, offset: i128) -> bool
        ensures { result ≡ region_pointer self.now at number offset }
    {
        let note = match self.live_at(at, number) {
            Some(note) => note,
            None => return false,
        };
        match place_in(note, at, offset, 8) {
            Some(from) => self.is_pointer(from),
            None => false,
        }
    }

    /// The record of the live block that this offset doesn't leave.
    #[inline(always)]
    pub fn inside(&self, at: u32, number: u32, offset: i128) -> Option<BlockNote>
        ensures value { result ≡ region_inside self.now at number offset }
        ensures small { IfSome result (λ note. note.base ≤ longest_segment) }
    {
        let note = self.live_at(at, number)?;
        if range_in(note, at, offset, 0, 1).is_some() {
            Some(note)
        } else {
            None
        }
    }

    /// The offset in its block of the place at this offset, or 0 if it isn't inside.
    #[inline(always)]
    pub fn offset(&self, at: u32, number: u32, offset: i128) -> u32
        ensures { result ≡ region_offset self.now at number offset }
    {
        match self.live_at(at, number) {
            Some(note) => match range_in(note, at, offset, 0, 1) {
                Some(place) => place - note.base,
                None => 0,
            },
            None => 0,
        }
    }
}

impl Region {
    /// Whether the eight bytes from here are a pointer's, or numbers that are 0.
    #[inline(always)]
    fn is_pointer(&self, from: u32) -> bool
        requires aligned { from % 8 ≡ 0 }
        requires inside { from + 8 ≤ length self.now.bytes }
        ensures { result ≡ pointer_at self.now (Some from) }
    {
        let unit = from as usize / 16;
        let at = from % 16;
        all_in_unit(&self.shadow, Asked::Pieces, unit, at, at + 8)
            || all_in_unit(&self.shadow, Asked::Number, unit, at, at + 8)
                && self.bytes.load(from as usize, 8) == 0
    }
}

/// How far an offset goes up, or a size that isn't negative.
#[inline(always)]
pub fn plus(n: i128) -> u128
    ensures value { result ≡ plus n }
    ensures small { result < 2 ^ 127 }
{
    if n > 0 { n as u128 } else { 0 }
}

/// How far an offset goes down.
#[inline(always)]
pub fn minus(n: i128) -> u128
    ensures value { result ≡ minus n }
    ensures small { result ≤ 2 ^ 127 }
{
    if n < 0 { n.unsigned_abs() } else { 0 }
}

/// The place that lies at an offset from another one.
#[inline(always)]
fn moved(from: u32, offset: i128) -> Option<u128>
    ensures value { result ≡ moved from offset }
    ensures small { IfSome result (λ place. place ≤ 2 ^ 127 + 2 ^ 32) }
{
    if offset >= 0 {
        Some(u128::from(from) + offset as u128)
    } else {
        u128::from(from).checked_sub(offset.unsigned_abs())
    }
}

/// Where so many bytes begin in their segment that lie at this offset within a block, at this alignment.
#[inline(always)]
fn range_in(note: BlockNote, at: u32, offset: i128, size: u128, align: u32) -> Option<u32>
    requires begun { note.base ≤ at }
    requires align { IsWidth align }
    requires size { size < 2 ^ 127 }
    requires small { note.base + note.length < 2 ^ 32 }
    ensures { result ≡ range_in note at offset size align }
{
    let from = moved(at - note.base, offset)?;
    // The sum of a great offset and a great size could wrap.
    if from > u128::from(note.length) {
        return None;
    }
    if from + size > u128::from(note.length) || from as u32 % align != 0 {
        return None;
    }
    Some(note.base + from as u32)
}

/// The same of a number's bytes, which are few.
#[inline(always)]
fn place_in(note: BlockNote, at: u32, offset: i128, width: u32) -> Option<u32>
    requires begun { note.base ≤ at }
    requires width { IsWidth width }
    requires small { note.base + note.length < 2 ^ 32 }
    ensures value { result ≡ range_in note at offset width width }
    ensures inside { IfSome result (λ from. from + width ≤ note.base + note.length) }
{
    let from = moved(at - note.base, offset)?;
    if from + u128::from(width) > u128::from(note.length) || from as u32 % width != 0 {
        return None;
    }
    Some(note.base + from as u32)
}
