//! Why a text is refused.

ghost use Rattle.std.specs.Prelude.{◌≡◌};
ghost use Rattle.c_syntax.specs.declared.refusal.FrontFault.TheVariants.{Memory};

use crate::name::Name;
use crate::place::Place;
use std::alloc::{AllocError, AllocFailed};

/// A refusal of a text: the number of its code, its place, and the word that it names.
#[derive(Drop)]
pub struct Refusal {
    pub code: u8,
    pub place: Place,
    pub construct: Name,
}

/// Why a phase of the front end gives no tree.
#[derive(Drop)]
pub enum FrontFault {
    Refused(Refusal),
    /// Memory was wanting.
    Memory,
}

impl From<AllocError> for FrontFault {
    ghost from_gives = { λ _ e. e ≡ Memory };

    fn from(_e: AllocError) -> FrontFault {
        FrontFault::Memory
    }
}

impl<T: Drop> From<AllocFailed<T>> for FrontFault {
    ghost from_gives = { λ _ e. e ≡ Memory };

    fn from(_e: AllocFailed<T>) -> FrontFault {
        FrontFault::Memory
    }
}
