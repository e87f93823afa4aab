//! Types whose size and alignment are kept in trees of annotations: those of objects of C (C99 3.2, 6.2.6.1).

ghost use Rattle.std.specs.Prelude.{◌≡◌};
ghost use Rattle.c_syntax.specs.Ctypes.{plain_type};
ghost use Rattle.c_model.specs.Checked.{Good};
ghost use Rattle.c_model.specs.PredicateTyping.{is_alignment, is_measured, where_measured};
ghost use Rattle.c_scopes.specs.Answers.{Answers};
ghost use Rattle.c_scopes.specs.Sights.{plain_sight};

use c_expression_rules::operator::has_size;
use c_scopes::fault::{TypeFault, too_large};
use c_scopes::limits::{align_of, small_size};
use c_scopes::sight::Sight;
use c_syntax::{CType, Place};

/// Whether a number is an alignment of a type of C.
fn is_alignment(n: u32) -> bool
    ensures { result ≡ is_alignment n }
{
    n == 1 || n == 2 || n == 4 || n == 8
}

/// Whether a type has bytes, no more than the limit, and an alignment of C.
fn is_measured(sight: &Sight, u: &CType) -> bool
    ensures { result ≡ is_measured (plain_sight sight.now) (plain_type u.now) }
{
    match small_size(&sight.structs, u) {
        None => false,
        Some(size) => 1 <= size && is_alignment(align_of(&sight.structs, u)),
    }
}

/// A type whose size and alignment are kept.
pub fn where_measured(sight: &Sight, place: Place, u: &CType) -> Result<(), TypeFault>
    ensures { Answers (λ u. u) (where_measured (plain_sight sight.now) place (plain_type u.now) (Good tt)) result }
{
    has_size(sight, place, u)?;
    if is_measured(sight, u) {
        Ok(())
    } else {
        Err(too_large(place))
    }
}
