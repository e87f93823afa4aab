//! The numbers of names.

ghost use Rattle.std.specs.Prelude.{◌≡◌, ◌<◌, ◌≤◌, ◌+◌, length, IfOk, OnOk};
ghost use Rattle.c_model.specs.Names.{with_name, name_number};
ghost use Rattle.c_lexer.specs.Reading.{seen};

use c_syntax::Name;
use indexmap::IndexSet;
use std::alloc::{AllocError, Global};

/// The number of a name; a new one goes last.
#[tactic(auto, using(crate::proofs::NameSteps::with_name_length))]
pub fn number_name(
    alloc: Global,
    names: &mut IndexSet<Vec<u8>>,
    bytes: &[u8],
) -> Result<usize, AllocError>
    ensures number { IfOk result (λ n. n ≡ name_number (seen names.old) bytes.now) }
    ensures names { OnOk result (seen names.new ≡ with_name (seen names.old) bytes.now) }
    ensures one { OnOk result (length (seen names.new) ≤ length (seen names.old) + 1) }
    ensures within { IfOk result (λ n. n < length (seen names.new)) }
{
    if let Some(n) = names.get_index_of(bytes) {
        return Ok(n);
    }
    let (n, _) = names.insert_full(Vec::from_slice(alloc, bytes)?)?;
    Ok(n)
}

/// The names, in order.
pub fn all_names(alloc: Global, names: IndexSet<Vec<u8>>) -> Result<Vec<Name>, AllocError>
    ensures { IfOk result (λ v. v.items ≡ seen names) }
{
    let mut all = Vec::new(alloc);
    for name in names {
        all.push(Name::new(name))?;
    }
    Ok(all)
}
