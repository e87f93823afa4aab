//! The calls of the runtime on the memory of a run: pointers as arguments, and the answers of questions.
#![tactic(auto)]

ghost use Rattle.std.specs.Prelude.{◌≡◌, IfOk};
ghost use Rattle.flat_mem.specs.Room.{IsSizes};
ghost use Rattle.mon_syntax.specs.Flat.{flat_empty, flat_leave};
ghost use Rattle.block_runtime.specs.Replies.{Enters};

use c_syntax::Segment;
use flat_mem::{FlatMem, Sizes};
use std::alloc::{AllocError, Global};
use std::marker::Model;

mod access;
pub mod address;
mod answers;
mod blocks;
mod heap;

/// Why a call of the runtime ends the run.
#[derive(Clone, Copy, PartialEq, Eq, Debug)]
pub enum RunFault {
    /// There is no room.
    Full(Segment),
    /// The call may not be made so.
    Fault,
}

/// The memory of a run. All of it is reserved by `new`.
#[derive(Drop)]
pub struct Runtime {
    memory: FlatMem,
}

impl Model for Runtime {
    ghost use Rattle.mon_syntax.specs.Flat.{Flat};

    ghost Value = { Flat };

    ghost view = { λ m. m.memory };
}

impl Runtime {
    /// No block was born and no call is active.
    pub fn new(alloc: Global, sizes: Sizes) -> Result<Runtime, AllocError>
        requires { IsSizes sizes }
        ensures { IfOk result (λ memory. memory ≡ flat_empty sizes.globals sizes.stack sizes.heap sizes.frames) }
    {
        Ok(Runtime {
            memory: FlatMem::new(alloc, sizes, 0)?,
        })
    }

    /// One more call is active, if there is a frame for it.
    pub fn enter_frame(&mut self) -> Result<(), RunFault>
        ensures { Enters self.old self.new result }
    {
        match self.memory.enter_frame() {
            Ok(()) => Ok(()),
            Err(full) => Err(RunFault::Full(full)),
        }
    }

    /// The end of an active call, if there is one.
    pub fn leave_frame(&mut self)
        ensures { self.new ≡ flat_leave self.old }
    {
        self.memory.leave_frame();
    }
}
