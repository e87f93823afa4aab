//! Parts that are typed beside one another.

ghost use Rattle.std.specs.Prelude.{◌≡◌};
ghost use Rattle.annot_typing.specs.Joined.{both_answered};

use c_scopes::fault::{TypeFault, both};

/// Two answers as one: of two faults the first in the text.
pub fn joined<A: Drop, B: Drop>(
    a: Result<A, TypeFault>,
    b: Result<B, TypeFault>,
) -> Result<(A, B), TypeFault>
    ensures { result ≡ both_answered a b }
{
    match a {
        Ok(x) => match b {
            Ok(y) => Ok((x, y)),
            Err(g) => Err(g),
        },
        Err(f) => match b {
            Ok(_y) => Err(f),
            Err(g) => both(Err(f), Err(g)),
        },
    }
}
