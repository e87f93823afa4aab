//! Tables by which the first of a key in a list is found without a look at all before it.

ghost use Rattle.std.specs.Prelude.{◌≡◌, OnErr, OnOk};
ghost use Rattle.c_scopes.specs.Firsts.{IsNoted, Notes};

use indexmap::IndexMap;
use std::alloc::AllocError;

/// Notes the number of a further key, if the key is new.
pub fn note(firsts: &mut IndexMap<u32, usize>, key: u32, number: usize) -> Result<(), AllocError>
    ensures each { OnOk result (IsNoted firsts.old.entries key number firsts.new.entries) }
    ensures noted { OnOk result (Notes firsts.old.entries key number firsts.new.entries) }
    ensures unchanged { OnErr result (firsts.new.entries ≡ firsts.old.entries) }
{
    if firsts.contains_key(&key) {
        return Ok(());
    }
    firsts.insert(key, number)?;
    Ok(())
}
