//! Why a run of tokens isn't read.

ghost use Rattle.std.specs.Prelude.{◌≡◌};
ghost use Rattle.c_syntax.specs.declared.fault.ReadFault.TheVariants.{Memory};

use std::alloc::{AllocError, AllocFailed};

/// A limit of texts.
#[derive(Clone, Copy, PartialEq, Eq, Debug)]
pub enum Limit {
    /// Of an expression that stands in no other: its tokens in C, the parentheses that are open at once in monitored C.
    Expression,
    /// Of the depth at which statements stand in one another.
    Nesting,
}

#[derive(Clone, Copy, PartialEq, Eq, Debug, Drop)]
pub enum ReadFault {
    /// The first of so many tokens that are left can't follow, or one was wanting after the last.
    At(usize),
    /// The first of so many tokens that are left passes the limit.
    Over(Limit, usize),
    /// Memory was wanting.
    Memory,
}

impl From<AllocError> for ReadFault {
    ghost from_gives = { λ _ e. e ≡ Memory };

    fn from(_e: AllocError) -> ReadFault {
        ReadFault::Memory
    }
}

impl<T: Drop> From<AllocFailed<T>> for ReadFault {
    ghost from_gives = { λ _ e. e ≡ Memory };

    fn from(_e: AllocFailed<T>) -> ReadFault {
        ReadFault::Memory
    }
}
