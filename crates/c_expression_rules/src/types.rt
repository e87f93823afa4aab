//! Types as they are written (C99 6.7.5, 6.7.6), and string literals (C99 6.4.5).

ghost use Rattle.std.specs.Prelude.{◌≡◌, IfErr, IfOk};
ghost use Rattle.c_syntax.specs.Ctypes.{plain_length, plain_type};
ghost use Rattle.c_model.specs.ExpressionTyping.{counted, known_struct};
ghost use Rattle.c_scopes.specs.Answers.{Answers, IsRefusal, both};
ghost use Rattle.c_scopes.specs.Sights.{plain_sight};
ghost use Rattle.c_expression_rules.specs.Structs.{limit_answer, within_limits};

use c_scopes::fault::{TypeFault, both, no_type, too_large};
use c_scopes::limits::{MOST_ELEMENTS, is_within_limits, number};
use c_scopes::sight::{Sight, tagged};
use c_syntax::{CType, Length, Place};
use std::alloc::AllocError;

/// The count of an array: from 1 to 2^31 - 1 (C99 6.7.5.2 p1).
pub fn counted(place: Place, value: Option<i128>) -> Result<Length, TypeFault>
    ensures typed { Answers plain_length (counted place value) result }
    ensures sure { IfErr result IsRefusal }
{
    match value {
        Some(n) if 0 < n && n <= i128::from(MOST_ELEMENTS) => Ok(Length::Count(n as u32)),
        _ => Err(no_type(place)),
    }
}

/// The struct with a tag (C99 6.7.2.3). One that the file defines nowhere has an index that no struct has; a number past those that
/// there are wants memory.
pub fn known_struct(sight: &Sight, tag: u32) -> Result<CType, AllocError>
    ensures { IfOk result (λ t. plain_type t ≡ known_struct (plain_sight sight.now) tag) }
{
    let index = match tagged(&sight.structs, tag) {
        Some(n) => n as u64,
        None => sight.structs.len() as u64 + u64::from(tag),
    };
    let n = number(index)?;
    Ok(CType::Struct(n))
}

/// A type that passes no limit (C99 5.2.4.1).
pub fn within_limits(sight: &Sight, place: Place, t: &CType) -> Result<(), TypeFault>
    ensures checked { Answers (λ u. u) (within_limits (plain_sight sight.now) place (plain_type t.now)) result }
    ensures is { result ≡ limit_answer (plain_sight sight.now) place (plain_type t.now) }
    ensures sure { IfErr result IsRefusal }
{
    if is_within_limits(sight, t) {
        Ok(())
    } else {
        Err(too_large(place))
    }
}

/// An answer, and whether a type passes a limit, which is a fault besides those that are there, as one.
pub fn limited<T: Drop>(
    sight: &Sight,
    place: Place,
    t: &CType,
    answer: Result<T, TypeFault>,
) -> Result<T, TypeFault>
    ensures { result ≡ both answer (limit_answer (plain_sight sight.now) place (plain_type t.now)) }
{
    both(answer, within_limits(sight, place, t))
}
