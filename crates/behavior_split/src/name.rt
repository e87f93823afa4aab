//! The behaviors of a contract by their names.

ghost use Rattle.std.specs.Prelude.{◌≡◌, ℕ, IfOk, OnOk, map, nat_eq};
ghost use Rattle.indexmap.specs.IndexMap.{get};
ghost use Rattle.c_syntax.specs.Programs.{plain_behavior};
ghost use Rattle.behavior_split.specs.Names.{index_named, with_name};

use crate::order::index_of;
use c_syntax::Behavior;
use indexmap::IndexMap;
use std::alloc::{AllocError, Global};

// Keeps the index of a behavior, where none before it has its name.
fn note(indices: &mut IndexMap<u32, u32>, name: u32, index: u32) -> Result<(), AllocError>
    ensures { OnOk result ((x : ℕ) → get nat_eq indices.new x ≡ with_name (get nat_eq indices.old) name index x) }
{
    if !indices.contains_key(&name) {
        indices.insert(name, index)?;
    }
    Ok(())
}

/// The index of the first behavior of each name.
pub fn indices_by_name(
    alloc: Global,
    behaviors: &[Behavior],
) -> Result<IndexMap<u32, u32>, AllocError>
    ensures { IfOk result (λ indices. (x : ℕ) → get nat_eq indices x ≡ index_named x (map plain_behavior behaviors.now)) }
{
    let mut indices = IndexMap::new(alloc);
    for (index, behavior) in behaviors.iter().enumerate() {
        note(&mut indices, behavior.name, index_of(index)?)?;
    }
    Ok(indices)
}
