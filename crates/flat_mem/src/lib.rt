//! Flat memory: three regions of bytes with their shadow, in which blocks are born and die, and the frames of calls.
#![tactic(auto)]

ghost use Rattle.std.specs.Prelude.{◌≡◌, ◌+◌, IfOk, MatchResult};
ghost use Rattle.flat_mem.specs.Room.{IsSizes};
ghost use Rattle.mon_syntax.specs.Memory.{Gives, IsFull};
ghost use Rattle.mon_syntax.specs.Flat.{flat_empty, flat_enter, flat_leave, region, stack_start};

use c_syntax::Segment;
use mon_syntax::RegionName;
use seg_heap::Placer;
use std::alloc::{AllocError, Global};
use std::marker::Model;

mod access;
pub mod address;
mod births;
mod deaths;
mod heap;
mod looks;
pub mod questions;
pub mod region;

use address::STACK_START;
use region::Region;

/// How much room there is: the segments in bytes, and the calls that may be active at once.
#[derive(Clone, Copy)]
pub struct Sizes {
    pub globals: u32,
    pub stack: u32,
    pub heap: u32,
    pub frames: u32,
}

/// Why a block isn't born.
#[derive(Clone, Copy)]
pub enum BirthFault {
    /// There is no room in the segment, or no number is left.
    Full(Segment),
}

/// Flat memory: three regions, and what is taken of them. All of it is reserved by `new`.
#[derive(Drop)]
pub struct FlatMem {
    globals: Region,
    stack: Region,
    heap: Region,
    // Where blocks lie in the heap.
    places: Placer,
    // Active calls, and how many there may be.
    frames: u32,
    most_frames: u32,
    // Numbers of blocks that were used.
    births: u32,
    // What globals and literals take of their region, and what live stack blocks take of theirs, in bytes.
    placed: u32,
    top: u32,
}

impl Model for FlatMem {
    ghost use Rattle.mon_syntax.specs.Flat.{Flat};
    ghost use Rattle.flat_mem.specs.Placed.{IsPlaced};
    ghost use Rattle.flat_mem.specs.Tidy.{IsTidy};

    ghost Value = { Flat };

    ghost view = { λ m. record {
      frames = m.frames;
      most_frames = m.most_frames;
      births = m.births;
      placed = m.placed;
      top = m.top;
      globals = m.globals;
      stack = m.stack;
      heap = m.heap;
    } };

    ghost invariant = { λ m. IsTidy m.globals m.placed × IsTidy m.stack m.top × IsPlaced m.places m.heap.shadow.notes };
}

impl FlatMem {
    /// Nothing lives and no call is active, but so many numbers of blocks are used.
    pub fn new(alloc: Global, sizes: Sizes, births: u32) -> Result<FlatMem, AllocError>
        requires { IsSizes sizes }
        ensures { IfOk result (λ memory. memory ≡ record (flat_empty sizes.globals sizes.stack sizes.heap sizes.frames) { births = births }) }
    {
        Ok(FlatMem {
            globals: Region::new(alloc, sizes.globals)?,
            stack: Region::new(alloc, sizes.stack)?,
            heap: Region::new(alloc, sizes.heap)?,
            places: Placer::new(alloc, sizes.heap / 16)?,
            frames: 0,
            most_frames: sizes.frames,
            births,
            placed: 0,
            top: 0,
        })
    }

    /// One more call is active, if there is a frame for it.
    pub fn enter_frame(&mut self) -> Result<(), Segment>
        ensures { MatchResult result
            (λ _. flat_enter self.old ≡ Gives 0 self.new)
            (λ full. (flat_enter self.old ≡ IsFull full) × (self.new ≡ self.old)) }
    {
        if self.frames >= self.most_frames {
            return Err(Segment::Frames);
        }
        self.frames += 1;
        Ok(())
    }

    /// The end of an active call, if there is one.
    pub fn leave_frame(&mut self)
        ensures { self.new ≡ flat_leave self.old }
    {
        self.frames = self.frames.saturating_sub(1);
    }

    /// What live stack blocks take, in bytes.
    #[inline(always)]
    pub fn top(&self) -> u32
        ensures { result ≡ self.now.top }
    {
        self.top
    }

    /// The address at which the next stack block would stand.
    pub fn stack_end(&self) -> u32
        ensures { result ≡ stack_start + self.now.top }
    {
        // A use of a field tells the check how long the stack is.
        let _ = self.stack.len();
        STACK_START + self.top
    }

    /// The region of this name.
    #[inline(always)]
    pub fn region(&self, name: RegionName) -> &Region
        ensures { result.now ≡ region self.now name }
    {
        match name {
            RegionName::Globals => &self.globals,
            RegionName::Stack => &self.stack,
            RegionName::Heap => &self.heap,
        }
    }
}
