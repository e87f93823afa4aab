//! Why a tree spells no program.

ghost use Rattle.std.specs.Prelude.{◌≡◌};
ghost use Rattle.mon_typing.specs.declared.fault.CheckFault.TheVariants.{Memory};
ghost use Rattle.mon_typing.specs.declared.fault.ProgramFault.TheVariants.{InPart};

use c_syntax::Place;
use mon_parser::parsed::NameUse;
use std::alloc::{AllocError, AllocFailed};

#[derive(Clone, Copy, PartialEq, Eq, Debug, Drop)]
pub enum CheckFault {
    /// A name that isn't known, isn't free or is declared twice.
    BadName(Place),
    /// A type, a value, or a number of arguments.
    BadType(Place),
    /// Memory was wanting.
    Memory,
}

impl From<AllocError> for CheckFault {
    ghost from_gives = { λ _ e. e ≡ Memory };

    fn from(_e: AllocError) -> CheckFault {
        CheckFault::Memory
    }
}

impl<T: Drop> From<AllocFailed<T>> for CheckFault {
    ghost from_gives = { λ _ e. e ≡ Memory };

    fn from(_e: AllocFailed<T>) -> CheckFault {
        CheckFault::Memory
    }
}

/// Why a whole text is no program, or one without room.
#[derive(Clone, Copy, PartialEq, Eq, Debug, Drop)]
pub enum ProgramFault {
    /// A fault of names or types.
    InPart(CheckFault),
    /// No other fault, but the globals up to this one take more than their segment.
    TooLarge(NameUse),
}

impl From<CheckFault> for ProgramFault {
    ghost from_gives = { λ fault e. e ≡ InPart fault };

    fn from(fault: CheckFault) -> ProgramFault {
        ProgramFault::InPart(fault)
    }
}

impl From<AllocError> for ProgramFault {
    ghost from_gives = { λ _ e. e ≡ InPart Memory };

    fn from(_e: AllocError) -> ProgramFault {
        ProgramFault::InPart(CheckFault::Memory)
    }
}
