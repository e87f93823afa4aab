// Raw bytes in one type.
#![tactic(auto)]

ghost use Rattle.std.specs.Prelude.{◌≡◌, ℕ, ◌+◌, ◌-◌, ◌*◌, ◌%◌, ◌^◌, ◌<◌, ◌≤◌, ◌⊎◌, length, replicate, slice_index, get_or};
ghost use Rattle.std.specs.Prelude.{nat_le, if◌then◌else◌, Some, None, IfOk, IfSome, MatchBool};
ghost use Rattle.std.specs.Bool.{OnTrue};
ghost use Rattle.std.specs.Vec.{vec_capacity, vec_len};
ghost use Rattle.raw_seg.specs.Bytes.{number_of, bytes_of, bytes_at, with_bytes, IsWidth};
ghost use Rattle.raw_seg.specs.Zeros.{zeros_to, IsReach};

use std::alloc::{AllocError, Global};
use std::marker::Model;
use std::sync::ledger::Ledger;

mod bytes;
pub mod steps;

use bytes::{number_in, number_of_8, put, put_number};
use steps::Steps;

// Zeros are written up to a multiple of so many bytes, where a place is reached for the first time.
const PAGE: usize = 4096;

// What was written ends with a unit of so many bytes, or with all.
const UNIT: usize = 16;

/// A region of memory, seen as a list of bytes. Its memory is reserved at once, and written only as far as something was stored.
#[derive(Drop)]
pub struct Seg {
    // The first bytes. Those behind them are zeros, for which there is room.
    bytes: Vec<u8>,
    len: usize,
}

impl Model for Seg {
    ghost use Rattle.std.specs.Prelude.{ℕ, List, ◌≤◌, length};
    ghost use Rattle.std.specs.Vec.{vec_capacity};
    ghost use Rattle.raw_seg.specs.Zeros.{zeros_to, IsReach};

    ghost Value = { List ℕ };

    ghost view = { λ s. zeros_to s.len s.bytes.items };

    ghost invariant = { λ s. (length s.bytes.items ≤ s.len) × (s.len ≤ vec_capacity s.bytes) × IsReach s.len (length s.bytes.items) };
}

impl Seg {
    /// So many zeros.
    pub fn new(alloc: Global, len: usize) -> Result<Seg, AllocError>
        ensures { IfOk result (λ seg. seg ≡ replicate len 0) }
    {
        Ok(Seg {
            bytes: Vec::with_capacity(alloc, len)?,
            len,
        })
    }

    pub fn len(&self) -> usize
        ensures { result ≡ length self.now }
    {
        self.len
    }

    /// The number in `width` bytes, the lowest first.
    #[inline(always)]
    pub fn load(&self, at: usize, width: usize) -> u128
        requires width { IsWidth width }
        requires aligned { at % width ≡ 0 }
        requires inside { at + width ≤ length self.now }
        ensures value { result ≡ number_of (bytes_at self.now at width) }
        ensures bytes { bytes_of width result ≡ bytes_at self.now at width }
        ensures fits { result < 256 ^ width }
    {
        // One test for each place of a unit, so that the compiler sees that it is the same.
        if at / UNIT * UNIT < self.bytes.len() {
            number_in(&self.bytes, at, width)
        } else {
            // What lies behind is 0.
            0
        }
    }

    /// The same if these bytes lie inside.
    #[inline(always)]
    pub fn get(&self, at: usize, width: usize) -> Option<u128>
        requires width { IsWidth width }
        requires aligned { at % width ≡ 0 }
        requires small { at + width < 2 ^ 64 }
        ensures value { result ≡ (if nat_le (at + width) (length self.now) then Some (number_of (bytes_at self.now at width)) else None) }
        ensures fits { IfSome result (λ value. value < 256 ^ width) }
    {
        if at + width <= self.bytes.len() {
            Some(number_in(&self.bytes, at, width))
        } else if at + width <= self.len {
            Some(0)
        } else {
            None
        }
    }

    /// Writes the lowest `width` bytes of a number, the lowest first, and no other byte.
    #[inline(always)]
    pub fn store(&mut self, at: usize, width: usize, value: u128)
        requires width { IsWidth width }
        requires aligned { at % width ≡ 0 }
        requires inside { at + width ≤ length self.old }
        ensures bytes { self.new ≡ with_bytes self.old at (bytes_of width value) }
        ensures stored { number_of (bytes_at self.new at width) ≡ value % 256 ^ width }
        ensures others { (k : ℕ) → (k < at) ⊎ (at + width ≤ k) → slice_index self.new k ≡ slice_index self.old k }
        ensures len { length self.new ≡ length self.old }
    {
        self.set_number(at, width, value);
    }

    /// The same if these bytes were written before. `false` if not, and then nothing changes.
    #[inline(always)]
    pub fn store_again(&mut self, at: usize, width: usize, value: u128) -> bool
        requires width { IsWidth width }
        requires small { at + width < 2 ^ 64 }
        ensures bytes { MatchBool result (self.new ≡ with_bytes self.old at (bytes_of width value)) (self.new ≡ self.old) }
        ensures inside { OnTrue result (at + width ≤ length self.old) }
        ensures len { length self.new ≡ length self.old }
    {
        if at + width <= self.bytes.len() {
            put_number(&mut self.bytes, at, width, value);
            true
        } else {
            false
        }
    }

    /// Writes one byte over those from `from` up to `to`, and no other byte.
    pub fn fill(&mut self, from: usize, to: usize, byte: u8)
        requires order { from ≤ to }
        requires inside { to ≤ length self.old }
        ensures bytes { self.new ≡ with_bytes self.old from (replicate (to - from) byte) }
        ensures len { length self.new ≡ length self.old }
    {
        // The length tells the check that no sum wraps, here and below.
        let _ = self.len();
        reach(&mut self.bytes, to, self.len);
        self.bytes[from..to].fill(byte);
    }

    /// Copies the bytes from `from` on, as many as there is room for.
    pub fn copy_out(&self, from: usize, into: &mut [u8])
        requires { from + length into.old ≤ length self.now }
        ensures { into.new ≡ bytes_at self.now from (length into.old) }
    {
        let _ = self.len();
        for (i, byte) in into.iter_mut().enumerate() {
            *byte = self.byte(from + i);
        }
    }

    /// Writes these bytes from a place on.
    #[inline(always)]
    pub fn copy_in(&mut self, at: usize, bytes: &[u8])
        requires { at + length bytes.now ≤ length self.old }
        ensures bytes { self.new ≡ with_bytes self.old at bytes.now }
        ensures len { length self.new ≡ length self.old }
    {
        let _ = self.len();
        let end = at + bytes.len();
        reach(&mut self.bytes, end, self.len);
        self.bytes[at..end].copy_from_slice(bytes);
    }

    /// The eight bytes from a place on as a number, which is one step of work.
    #[inline(always)]
    pub fn word<L: Ledger>(&self, at: usize, steps: &mut Steps<L>) -> u64
        requires aligned { at % 8 ≡ 0 }
        requires inside { at + 8 ≤ length self.now }
        ensures value { result ≡ number_of (bytes_at self.now at 8) }
        ensures step { steps.new ≡ steps.old + 1 }
    {
        steps.tick();
        self.number_8(at)
    }

    /// Writes a number over the eight bytes from a place on.
    #[inline(always)]
    pub fn set_word(&mut self, at: usize, value: u64)
        requires aligned { at % 8 ≡ 0 }
        requires inside { at + 8 ≤ length self.old }
        ensures bytes { self.new ≡ with_bytes self.old at (bytes_of 8 value) }
        ensures len { length self.new ≡ length self.old }
    {
        if at / UNIT * UNIT < self.bytes.len() {
            put(&mut self.bytes, at, &value.to_le_bytes());
        } else {
            self.set_word_behind(at, value);
        }
    }

    // The same of one number.
    #[cold]
    #[inline(never)]
    fn set_word_behind(&mut self, at: usize, value: u64)
        requires { at + 8 ≤ length self.old }
        ensures bytes { self.new ≡ with_bytes self.old at (bytes_of 8 value) }
        ensures len { length self.new ≡ length self.old }
    {
        self.copy_in(at, &value.to_le_bytes());
    }

    // What `store` does, by its first clause.
    #[inline(always)]
    fn set_number(&mut self, at: usize, width: usize, value: u128)
        requires width { IsWidth width }
        requires inside { at + width ≤ length self.old }
        ensures bytes { self.new ≡ with_bytes self.old at (bytes_of width value) }
        ensures len { length self.new ≡ length self.old }
    {
        let _ = self.len();
        if at + width <= self.bytes.len() {
            put_number(&mut self.bytes, at, width, value);
        } else {
            self.set_number_behind(at, width, value);
        }
    }

    // The same, also where not all of these bytes were written.
    #[cold]
    #[inline(never)]
    fn set_number_behind(&mut self, at: usize, width: usize, value: u128)
        requires width { IsWidth width }
        requires inside { at + width ≤ length self.old }
        ensures bytes { self.new ≡ with_bytes self.old at (bytes_of width value) }
        ensures len { length self.new ≡ length self.old }
    {
        let _ = self.len();
        reach(&mut self.bytes, at + width, self.len);
        put_number(&mut self.bytes, at, width, value);
    }

    #[inline(always)]
    fn byte(&self, at: usize) -> u8
        requires { at < length self.now }
        ensures { result ≡ slice_index self.now at }
    {
        if at < self.bytes.len() {
            self.bytes[at]
        } else {
            0
        }
    }

    #[inline(always)]
    fn number_8(&self, at: usize) -> u64
        requires aligned { at % 8 ≡ 0 }
        requires inside { at + 8 ≤ length self.now }
        ensures { result ≡ number_of (bytes_at self.now at 8) }
    {
        let _ = self.len();
        if at / UNIT * UNIT < self.bytes.len() {
            number_of_8(&self.bytes[at..at + 8])
        } else {
            0
        }
    }
}

// Zeros are written up to a place at least. There is room for so many bytes.
#[inline(always)]
fn reach(bytes: &mut Vec<u8>, to: usize, len: usize)
    requires inside { (vec_len bytes.old ≤ len) × (to ≤ len) }
    requires room { len ≤ vec_capacity bytes.old }
    requires whole { IsReach len (vec_len bytes.old) }
    ensures all { zeros_to len bytes.new.items ≡ zeros_to len bytes.old.items }
    ensures to { to ≤ vec_len bytes.new }
    ensures inside { vec_len bytes.new ≤ len }
    ensures room { len ≤ vec_capacity bytes.new }
    ensures whole { IsReach len (vec_len bytes.new) }
{
    if bytes.len() < to {
        write_zeros(bytes, to, len);
    }
}

// The same, where they aren't written.
#[cold]
#[inline(never)]
fn write_zeros(bytes: &mut Vec<u8>, to: usize, len: usize)
    requires some { vec_len bytes.old < to }
    requires inside { to ≤ len }
    requires room { len ≤ vec_capacity bytes.old }
    ensures all { zeros_to len bytes.new.items ≡ zeros_to len bytes.old.items }
    ensures to { to ≤ vec_len bytes.new }
    ensures inside { vec_len bytes.new ≤ len }
    ensures room { len ≤ vec_capacity bytes.new }
    ensures whole { IsReach len (vec_len bytes.new) }
{
    // There is room, so no memory is taken.
    let _ = bytes.resize(page_end(to, len), 0);
}

// The end of the page in which a place lies, or of all.
fn page_end(to: usize, len: usize) -> usize
    requires inside { to ≤ len }
    requires small { len < 2 ^ 63 }
    ensures to { to ≤ result }
    ensures inside { result ≤ len }
    ensures whole { IsReach len result }
{
    ((to / PAGE + 1) * PAGE).min(len)
}
