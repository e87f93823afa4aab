//! Copies of the names of a text: its tree has its own, and its tokens keep theirs for the words of later refusals.

ghost use Rattle.std.specs.Prelude.{◌≡◌, IfOk};

use c_syntax::Name;
use c_syntax::copy::copy_name;
use std::alloc::{AllocError, Global};

/// Copies of names, in their order.
pub fn copy_names(alloc: Global, names: &[Name]) -> Result<Vec<Name>, AllocError>
    ensures { IfOk result (λ copies. copies.items ≡ names.now) }
{
    let mut copies = Vec::new(alloc);
    for name in names {
        copies.push(copy_name(alloc, name)?)?;
    }
    Ok(copies)
}
