//! What is known of structs in a function: one that is defined behind it has no size there (C99 6.2.5 p22).

ghost use Rattle.std.specs.Prelude.{◌≡◌, ◌∷◌, IfOk, List, OnOk, map};
ghost use Rattle.c_syntax.specs.Programs.{StructType, plain_layout};
ghost use Rattle.c_model.specs.AnnotationTyping.{known_before};
ghost use Rattle.c_typing.specs.KnownStructs.{sizes_of, with_sizes};

use c_syntax::{Layout, Place};
use std::alloc::{AllocError, Global};

/// Takes its size from a struct that is defined behind a place. Gives the size of any.
fn hide(s: &mut Layout, at: Place) -> u32
    ensures hidden { plain_layout s.new ≡ known_before at (plain_layout s.old) }
    ensures size { result ≡ s.old.size }
{
    let size = s.size;
    if s.place.offset < at.offset {
        size
    } else {
        s.size = 0;
        size
    }
}

/// Takes their sizes from structs that are defined behind a place. Gives the sizes of all.
pub fn hide_later(
    alloc: Global,
    structs: &mut Vec<Layout>,
    at: Place,
) -> Result<Vec<u32>, AllocError>
    ensures hidden { OnOk result (map plain_layout structs.new.items ≡ map (known_before at) (map plain_layout structs.old.items)) }
    ensures sizes { IfOk result (λ v. v.items ≡ sizes_of structs.old.items) }
{
    let mut sizes = Vec::new(alloc);
    for k in 0..structs.len() {
        let size = hide(&mut structs[k], at);
        sizes.push(size)?;
    }
    Ok(sizes)
}

/// Gives a struct the first of these sizes. Gives the others.
fn show<'a>(s: &mut Layout, sizes: &'a [u32]) -> &'a [u32]
    ensures { (ss : List StructType) → with_sizes sizes.now (plain_layout s.old ∷ ss) ≡ plain_layout s.new ∷ with_sizes result.now ss }
{
    match sizes {
        [] => sizes,
        [size, rest @ ..] => {
            s.size = *size;
            rest
        }
    }
}

/// Gives structs these sizes.
pub fn show_all(structs: &mut Vec<Layout>, sizes: &[u32])
    ensures { map plain_layout structs.new.items ≡ with_sizes sizes.now (map plain_layout structs.old.items) }
{
    let mut rest = sizes;
    for k in 0..structs.len() {
        rest = show(&mut structs[k], rest);
    }
}
