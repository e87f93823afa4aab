// A segment of memory: its bytes, with a record for each unit and a mark for each byte.

ghost use Rattle.std.specs.Prelude.{◌≡◌, ◌+◌, ◌*◌, ◌/◌, ◌%◌, ◌^◌, ◌<◌, ◌≤◌, length, Some, None, false, true, IfOk, IfSome, MatchBool};
ghost use Rattle.std.specs.Bool.{OnTrue, OnFalse};
ghost use Rattle.raw_seg.specs.Bytes.{IsWidth};
ghost use Rattle.shadow_segments.specs.Shadow.{longest_segment, IsFree, IsLiveBase, cleared_at, marked};
ghost use Rattle.mon_syntax.specs.Regions.{empty_region, filled_with, region_load, region_store, region_copy, with_birth};

use raw_seg::Seg;
use shadow_segments::{BlockNote, Shadow};
use std::alloc::{AllocError, Global};
use std::marker::Model;

/// A segment: its bytes, and its shadow.
#[derive(Drop)]
pub struct Region {
    pub(crate) bytes: Seg,
    pub(crate) shadow: Shadow,
}

impl Model for Region {
    ghost use Rattle.mon_syntax.specs.Regions.{Region, IsRegion};

    ghost Value = { Region };

    ghost view = { λ r. record { bytes = r.bytes; shadow = r.shadow } };

    ghost invariant = { λ r. IsRegion (record { bytes = r.bytes; shadow = r.shadow }) };
}

impl Region {
    /// So many zeros, in which nothing lives.
    pub fn new(alloc: Global, len: u32) -> Result<Region, AllocError>
        requires units { len % 16 ≡ 0 }
        requires small { len ≤ longest_segment }
        ensures { IfOk result (λ region. region ≡ empty_region len) }
    {
        Ok(Region {
            bytes: Seg::new(alloc, len as usize)?,
            shadow: Shadow::new(alloc, len)?,
        })
    }

    pub fn len(&self) -> u32
        ensures value { result ≡ length self.now.bytes }
        ensures small { result ≤ longest_segment }
        ensures notes { result ≡ 16 * length self.now.shadow.notes }
    {
        self.bytes.len() as u32
    }

    /// The birth of a block: no byte of it is written.
    #[inline(always)]
    pub fn birth(&mut self, note: BlockNote)
        requires { IsFree self.old.shadow.notes note }
        ensures { self.new ≡ with_birth self.old note }
    {
        self.shadow.mark(note);
    }

    /// The death of the block that begins here.
    #[inline(always)]
    pub fn death(&mut self, base: u32)
        requires { IsLiveBase self.old.shadow.notes base }
        ensures { self.new ≡ record self.old { shadow = cleared_at self.old.shadow base } }
    {
        self.shadow.clear(base);
    }

    /// The number in so many bytes, where their count is known. `None` if they don't lie inside, aligned.
    #[inline(always)]
    pub fn load_as(&self, at: u32, width: usize) -> Option<u128>
        requires { IsWidth width }
        ensures value { result ≡ region_load self.now at width }
        ensures fits { IfSome result (λ value. value < 256 ^ width) }
    {
        let at = at as usize;
        if at % width == 0 {
            self.bytes.get(at, width)
        } else {
            None
        }
    }

    /// The number in so many bytes. `None` if they don't lie inside, aligned.
    #[inline(always)]
    pub fn load(&self, at: u32, width: usize) -> Option<u128>
        requires { IsWidth width }
        ensures value { result ≡ region_load self.now at width }
        ensures fits { IfSome result (λ value. value < 256 ^ width) }
    {
        // A width that is known makes the test of alignment a mask.
        match width {
            1 => self.load_as(at, 1),
            2 => self.load_as(at, 2),
            4 => self.load_as(at, 4),
            8 => self.load_as(at, 8),
            _ => self.load_as(at, 16),
        }
    }

    /// Stores a number with its mark. `false` if its bytes don't lie inside, aligned. It is short where the width is known to its caller.
    #[inline(always)]
    pub fn store_number(&mut self, at: u32, width: usize, value: u128) -> bool
        requires { IsWidth width }
        ensures { MatchBool result
            (region_store self.old at width value false ≡ Some self.new)
            ((region_store self.old at width value false ≡ None) × (self.new ≡ self.old)) }
    {
        // Most bytes that are stored were written before, and then there is one test more.
        self.store_again(at, width, value) || self.store_first(at, width, value)
    }

    // Stores a number with its mark if its bytes and their marks were written before. If not, all of it is still to be done.
    #[inline(always)]
    fn store_again(&mut self, at: u32, width: usize, value: u128) -> bool
        requires { IsWidth width }
        ensures stored { OnTrue result (region_store self.old at width value false ≡ Some self.new) }
        ensures left { OnFalse result (region_store self.new at width value false ≡ region_store self.old at width value false) }
        ensures none { OnFalse result (region_store self.old at width value false ≡ None → self.new ≡ self.old) }
    {
        let place = at as usize;
        if place % width != 0 {
            return false;
        }
        if !self.bytes.store_again(place, width, value) {
            return false;
        }
        let from = at % 16;
        self.shadow
            .set_number_again(place / 16, from, from + width as u32)
    }

    // Stores a number with its mark, also where its bytes or marks weren't written.
    #[cold]
    #[inline(never)]
    fn store_first(&mut self, at: u32, width: usize, value: u128) -> bool
        requires { IsWidth width }
        ensures { MatchBool result
            (region_store self.old at width value false ≡ Some self.new)
            ((region_store self.old at width value false ≡ None) × (self.new ≡ self.old)) }
    {
        let place = at as usize;
        if place % width == 0 && place + width <= self.bytes.len() {
            self.bytes.store(place, width, value);
            let from = at % 16;
            self.shadow
                .set_number_in(place / 16, from, from + width as u32);
            true
        } else {
            false
        }
    }

    /// Stores a pointer with its mark.
    #[inline(always)]
    pub fn store_pointer(&mut self, at: u32, value: u128) -> bool
        ensures { MatchBool result
            (region_store self.old at 8 value true ≡ Some self.new)
            ((region_store self.old at 8 value true ≡ None) × (self.new ≡ self.old)) }
    {
        let place = at as usize;
        if place % 8 == 0 && place + 8 <= self.bytes.len() {
            self.bytes.store(place, 8, value);
            self.shadow.set_pointer(at);
            true
        } else {
            false
        }
    }

    /// The byte that lies so many bytes after a place, if it is inside.
    pub fn byte_after(&self, at: u32, after: u64) -> Option<u8>
        ensures { result ≡ region_load self.now (at + after) 1 }
    {
        let len = u64::from(self.len());
        if u64::from(at) < len && after < len - u64::from(at) {
            Some(self.bytes.load((u64::from(at) + after) as usize, 1) as u8)
        } else {
            None
        }
    }

    /// So many bytes are these first ones and then zeros, all written by numbers.
    pub fn fill_with(&mut self, at: u32, n: u32, bytes: &[u8])
        requires inside { at + n ≤ length self.old.bytes }
        requires fits { length bytes.now ≤ n }
        ensures value { self.new ≡ filled_with self.old at n bytes.now }
        ensures len { length self.new.bytes ≡ length self.old.bytes }
    {
        // A use of a field tells the check how long the segment is.
        let _ = self.bytes.len();
        self.bytes.fill(at as usize, (at + n) as usize, 0);
        self.bytes.copy_in(at as usize, bytes);
        self.shadow.set_written(at, at + n);
    }

    /// Copies so many bytes with their marks from another place of this region. `false` if they don't lie inside on both sides, aligned.
    pub fn copy_within(&mut self, at: u32, from: u32, width: u32) -> bool
        requires { IsWidth width }
        ensures { MatchBool result
            (region_copy self.old at self.old from width ≡ Some self.new)
            ((region_copy self.old at self.old from width ≡ None) × (self.new ≡ self.old)) }
    {
        let size = width as usize;
        let source = from as usize;
        let target = at as usize;
        let len = self.bytes.len();
        if source % size != 0 || source + size > len || target % size != 0 || target + size > len {
            return false;
        }
        let value = self.bytes.load(source, size);
        self.bytes.store(target, size, value);
        self.shadow.copy_marks(from, at, width);
        true
    }

    /// The same from another region.
    pub fn copy_from(&mut self, at: u32, other: &Region, from: u32, width: u32) -> bool
        requires { IsWidth width }
        ensures { MatchBool result
            (region_copy self.old at other.now from width ≡ Some self.new)
            ((region_copy self.old at other.now from width ≡ None) × (self.new ≡ self.old)) }
    {
        let size = width as usize;
        let source = from as usize;
        let target = at as usize;
        if source % size != 0 || source + size > other.bytes.len() {
            return false;
        }
        if target % size != 0 || target + size > self.bytes.len() {
            return false;
        }
        let value = other.bytes.load(source, size);
        self.bytes.store(target, size, value);
        self.shadow.take_marks(&other.shadow, from, at, width);
        true
    }
}
