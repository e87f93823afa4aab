//! Why a tree isn't typed.

ghost use Rattle.std.specs.Prelude.{◌≡◌, IfErr};
ghost use Rattle.c_syntax.specs.RefusalCodes.{guard_code, label_code, limit_code, name_code, type_code};
ghost use Rattle.c_model.specs.Checked.{rank};
ghost use Rattle.c_scopes.specs.declared.fault.TypeFault.TheVariants.{Refused, Memory};
ghost use Rattle.c_scopes.specs.Answers.{IsRefusal, both, lesser_of, plain_fault};

use c_syntax::{Place, code};
use std::alloc::{AllocError, AllocFailed};

/// A fault: the number of its code, and its place.
#[derive(Clone, Copy, PartialEq, Eq, Debug, Drop)]
pub struct Fault {
    pub code: u8,
    pub place: Place,
}

/// Why a phase of typing gives no tree.
#[derive(Clone, Copy, PartialEq, Eq, Debug, Drop)]
pub enum TypeFault {
    Refused(Fault),
    /// Memory was wanting.
    Memory,
}

impl From<AllocError> for TypeFault {
    ghost from_gives = { λ _ e. e ≡ Memory };

    fn from(_e: AllocError) -> TypeFault {
        TypeFault::Memory
    }
}

impl<T: Drop> From<AllocFailed<T>> for TypeFault {
    ghost from_gives = { λ _ e. e ≡ Memory };

    fn from(_e: AllocFailed<T>) -> TypeFault {
        TypeFault::Memory
    }
}

/// A name without a fitting declaration (E5).
pub fn no_name(place: Place) -> TypeFault
    ensures { result ≡ Refused (record { code = name_code; place = place }) }
{
    TypeFault::Refused(Fault {
        code: code::NAME,
        place,
    })
}

/// A demand on types that isn't met (E6).
pub fn no_type(place: Place) -> TypeFault
    ensures { result ≡ Refused (record { code = type_code; place = place }) }
{
    TypeFault::Refused(Fault {
        code: code::TYPE,
        place,
    })
}

/// A quantifier without a guard.
pub fn no_guard(place: Place) -> TypeFault
    ensures { result ≡ Refused (record { code = guard_code; place = place }) }
{
    TypeFault::Refused(Fault {
        code: code::GUARD,
        place,
    })
}

/// A label that isn't known, or what may not stand under one (E9).
pub fn no_label(place: Place) -> TypeFault
    ensures { result ≡ Refused (record { code = label_code; place = place }) }
{
    TypeFault::Refused(Fault {
        code: code::LABEL,
        place,
    })
}

/// A limit that is passed (E11).
pub fn too_large(place: Place) -> TypeFault
    ensures { result ≡ Refused (record { code = limit_code; place = place }) }
{
    TypeFault::Refused(Fault {
        code: code::LIMIT,
        place,
    })
}

fn rank(f: Fault) -> u64
    ensures { result ≡ rank (plain_fault f) }
{
    16 * f.place.offset as u64 + f.code as u64
}

/// The first of two faults in the text.
fn first_of(f: TypeFault, g: TypeFault) -> TypeFault
    ensures is { result ≡ lesser_of f g }
    ensures sure { IsRefusal f → IsRefusal g → IsRefusal result }
{
    match f {
        TypeFault::Memory => TypeFault::Memory,
        TypeFault::Refused(a) => match g {
            TypeFault::Memory => TypeFault::Memory,
            TypeFault::Refused(b) => {
                if rank(b) < rank(a) {
                    TypeFault::Refused(b)
                } else {
                    TypeFault::Refused(a)
                }
            }
        },
    }
}

/// An answer and that of another part, which tells no more than its fault, as one.
pub fn both<T: Drop>(a: Result<T, TypeFault>, b: Result<(), TypeFault>) -> Result<T, TypeFault>
    ensures is { result ≡ both a b }
    ensures sure { IfErr a IsRefusal → IfErr b IsRefusal → IfErr result IsRefusal }
{
    match b {
        Ok(()) => a,
        Err(g) => match a {
            Ok(_x) => Err(g),
            Err(f) => Err(first_of(f, g)),
        },
    }
}
