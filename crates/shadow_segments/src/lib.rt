//! The shadow of a segment: for each unit of 16 bytes the record of its block, and for each byte a mark.
#![tactic(auto)]

ghost use Rattle.std.specs.Prelude.{◌≡◌, ℕ, ◌+◌, ◌*◌, ◌/◌, ◌%◌, ◌<◌, ◌≤◌, length, get_or, None, IfOk, IfSome, replicate};
ghost use Rattle.shadow_segments.specs.Shadow.{Unwritten, longest_segment, IsFree, IsLiveBase, IsWhole, marked, cleared_at};
ghost use Rattle.shadow_segments.specs.Words.{note_by, kind_of, code_of};

use c_syntax::BlockKind;
use raw_seg::steps::Steps;
use std::alloc::{AllocError, Global};
use std::marker::Model;
use std::sync::ledger::Ledger;

mod bits;
mod copies;
mod ranges;
mod units;
mod words;

use words::Words;

// What 1 counts in the upper half of a word.
const UPPER: u64 = 0x1_0000_0000;

/// A block's record: where it begins in its segment, its length in bytes, its number, and its kind.
#[derive(Clone, Copy, PartialEq, Eq, Debug)]
pub struct BlockNote {
    pub base: u32,
    pub length: u32,
    pub number: u32,
    pub kind: BlockKind,
}

/// What is asked of each of some bytes.
#[derive(Clone, Copy, PartialEq, Eq, Debug)]
pub enum Asked {
    /// It is written: by a number, or as a piece.
    Written,
    /// It is a piece of a pointer, and not loose.
    Pieces,
    /// It is no piece, also no loose one.
    Plain,
    /// It is written, by a number.
    Number,
}

/// The records of a segment's units, and the marks of its bytes.
#[derive(Drop)]
pub struct Shadow {
    words: Words,
}

impl Model for Shadow {
    ghost use Rattle.shadow_segments.specs.Shadow.{Shadowed, AreWhole};
    ghost use Rattle.shadow_segments.specs.Words.{notes_in, shadow_in};

    ghost Value = { Shadowed };

    ghost view = { λ s. shadow_in s.words };

    ghost invariant = { λ s. AreWhole (notes_in s.words) };
}

impl Shadow {
    /// The shadow of a segment of so many bytes, in which nothing lives. All of its memory is reserved here.
    pub fn new(alloc: Global, len: u32) -> Result<Shadow, AllocError>
        requires units { len % 16 ≡ 0 }
        requires small { len ≤ longest_segment }
        ensures { IfOk result (λ shadow. shadow ≡ record { notes = replicate (len / 16) None; marks = replicate len Unwritten }) }
    {
        Ok(Shadow {
            words: Words::new(alloc, len / 16)?,
        })
    }

    /// The length of the segment, in bytes.
    pub fn len(&self) -> u32
        ensures units { result ≡ 16 * length self.now.notes }
        ensures bytes { result ≡ length self.now.marks }
        ensures small { result ≤ longest_segment }
    {
        self.words.len() as u32 * 16
    }

    /// The record of the live block whose units hold this place of the segment.
    #[inline(always)]
    pub fn lookup<L: Ledger>(&self, addr: u32, steps: &mut Steps<L>) -> Option<BlockNote>
        ensures value { result ≡ get_or self.now.notes (addr / 16) None }
        ensures whole { IfSome result (λ note. IsWhole self.now.notes (addr / 16) note) }
        ensures steps { steps.new ≤ steps.old + 2 }
    {
        let unit = addr as usize / 16;
        let words = self.words.both(unit, steps);
        let number = (words.state / UPPER) as u32;
        if number == 0 {
            return None;
        }
        Some(unpacked(number, words.place))
    }

    /// The same where the words of this place's unit are written. `None` where they aren't, and nothing is said then: so a caller that is to be
    /// quick leaves all that it does to a function out of line.
    #[inline(always)]
    pub fn lookup_written<L: Ledger>(
        &self,
        addr: u32,
        steps: &mut Steps<L>,
    ) -> Option<Option<BlockNote>>
        ensures value { IfSome result (λ found. found ≡ get_or self.now.notes (addr / 16) None) }
        ensures whole { IfSome result (λ found. IfSome found (λ note. IsWhole self.now.notes (addr / 16) note)) }
        ensures steps { steps.new ≤ steps.old + 2 }
    {
        let unit = addr as usize / 16;
        let words = self.words.written(unit, steps)?;
        let number = (words.state / UPPER) as u32;
        if number == 0 {
            return Some(None);
        }
        Some(Some(unpacked(number, words.place)))
    }

    /// A block is born: its units have its record, and no byte of them is written.
    #[inline(always)]
    pub fn mark(&mut self, note: BlockNote)
        requires { IsFree self.old.notes note }
        ensures { self.new ≡ marked self.old note }
    {
        // A use of a field tells the check how long the segment is.
        let _ = self.words.len();
        let first = note.base as usize / 16;
        let count = note.length as usize / 16 + 1;
        self.words
            .fill(first, count, u64::from(note.number) * UPPER, packed(note));
    }

    /// The block that begins here dies: its units have no record. Their marks stay until another block is born there.
    #[inline(always)]
    pub fn clear(&mut self, base: u32)
        requires { IsLiveBase self.old.notes base }
        ensures { self.new ≡ cleared_at self.old base }
    {
        let first = base as usize / 16;
        let length = self.words.peek_place(first) % UPPER;
        self.words.release(first, length as usize / 16 + 1);
    }
}

fn kind_of(code: u64) -> BlockKind
    ensures { result ≡ kind_of code }
{
    match code {
        0 => BlockKind::Global,
        1 => BlockKind::Literal,
        2 => BlockKind::Stack,
        _ => BlockKind::Heap,
    }
}

fn code_of(kind: BlockKind) -> u64
    ensures value { result ≡ code_of kind }
    ensures small { result < 4 }
{
    match kind {
        BlockKind::Global => 0,
        BlockKind::Literal => 1,
        BlockKind::Stack => 2,
        BlockKind::Heap => 3,
    }
}

/// The record with this number that a second word keeps.
#[inline(always)]
fn unpacked(number: u32, place: u64) -> BlockNote
    ensures { result ≡ note_by number place }
{
    let high = (place / UPPER) as u32;
    BlockNote {
        base: high / 16 * 16,
        length: (place % UPPER) as u32,
        number,
        kind: kind_of(u64::from(high % 16)),
    }
}

/// The second word of a record.
#[inline(always)]
fn packed(note: BlockNote) -> u64
    requires { note.base % 16 ≡ 0 }
    ensures { note_by note.number result ≡ note }
{
    (u64::from(note.base) + code_of(note.kind)) * UPPER + u64::from(note.length)
}
