//! Objects by the numbers of their declarations (C99 6.2.1): a table of the first object with each, so that it is found without a look at
//! all before it.

ghost use Rattle.std.specs.Prelude.{◌≡◌, OnErr, OnOk};
ghost use Rattle.c_scopes.specs.Objects.{ForgetsObject, NotesObject};

use crate::first::note;
use indexmap::IndexMap;
use std::alloc::AllocError;

/// Notes the number of a further object or enumerator, if it is the first object with its declaration.
pub fn note_object(
    firsts: &mut IndexMap<u32, usize>,
    decl: Option<u32>,
    number: usize,
) -> Result<(), AllocError>
    ensures noted { OnOk result (NotesObject firsts.old.entries decl number firsts.new.entries) }
    ensures unchanged { OnErr result (firsts.new.entries ≡ firsts.old.entries) }
{
    match decl {
        Some(decl) => note(firsts, decl, number),
        None => Ok(()),
    }
}

/// Forgets the last object or enumerator, which has this number.
pub fn forget_object(firsts: &mut IndexMap<u32, usize>, decl: Option<u32>, number: usize)
    ensures { ForgetsObject firsts.old.entries decl number firsts.new.entries }
{
    match decl {
        Some(decl) => match firsts.get(&decl) {
            Some(first) => {
                if *first == number {
                    firsts.swap_remove(&decl);
                }
            }
            None => (),
        },
        None => (),
    }
}
