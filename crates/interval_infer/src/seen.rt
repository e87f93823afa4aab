//! The names that annotations give a meaning, with the ranges that they keep: `\result` (ACSL 2.3.1), with the values of its type, and the
//! binders of quantifiers.

ghost use Rattle.std.specs.Prelude.{◌≡◌, true};
ghost use Rattle.c_syntax.specs.Ctypes.{plain_type};
ghost use Rattle.c_syntax.specs.Logic.{plain_guards};
ghost use Rattle.c_model.specs.AnnotationRanges.{seen_result};
ghost use Rattle.c_model.specs.TermRanges as plain;
ghost use Rattle.c_model.specs.TermRanges.{range_seen};
ghost use Rattle.interval_infer.specs.Seen.{AreBounded, are_guarded, or_seen, plain_result, plain_seen, seen_guards};

use crate::binder::range_behind;
use crate::pointer::result_range;
use c_scopes::entity::RESULT;
use c_syntax::logic::{Guard, Guards};
use c_syntax::{CType, Range};

/// The names in sight, the innermost first: a chain on the stack.
#[derive(Clone, Copy)]
pub enum Seen<'a> {
    Nothing,
    /// The result of a function of this type.
    Returned(&'a CType),
    /// The binders of a chain, in front of others.
    Behind(&'a Guard, &'a Seen<'a>),
    /// The binders of all chains of a quantifier, in front of others.
    Within(&'a Guards, &'a Seen<'a>),
}

/// Where the result of a function of this type is in sight, or no name.
pub fn returned(returns: Option<&CType>) -> Seen<'_>
    ensures is { plain_seen result ≡ plain_result returns.entry }
    ensures bounded { AreBounded result }
{
    match returns {
        Some(ctype) => Seen::Returned(ctype),
        None => Seen::Nothing,
    }
}

// The range of the name with this number, where a result of this type is in sight.
#[tactic(auto, using(crate::proofs::SeenNames::result_seen))]
fn range_of_result(ctype: &CType, number: u32) -> Option<Range>
    ensures { result ≡ range_seen number (seen_result (plain_type ctype.now)) }
{
    if number == RESULT {
        result_range(ctype)
    } else {
        None
    }
}

// The range of a binder with this number of these chains.
fn range_within(guards: &Guards, number: u32) -> Option<Range>
    requires bounded { are_guarded (plain_guards guards.now) ≡ true }
    ensures { (seen : plain.Seen) → range_seen number (seen_guards (plain_guards guards.now) seen) ≡ or_seen result (range_seen number seen) }
{
    match guards {
        Guards::End => None,
        Guards::More(guard, rest) => match range_within(rest, number) {
            Some(range) => Some(range),
            None => range_behind(guard, number),
        },
    }
}

/// The range of the name with this number.
pub fn named_range(seen: &Seen<'_>, number: u32) -> Option<Range>
    requires bounded { AreBounded seen.now }
    ensures { result ≡ range_seen number (plain_seen seen.now) }
{
    match seen {
        Seen::Nothing => None,
        Seen::Returned(ctype) => range_of_result(ctype, number),
        Seen::Behind(guard, others) => match range_behind(guard, number) {
            Some(range) => Some(range),
            None => named_range(others, number),
        },
        Seen::Within(guards, others) => match range_within(guards, number) {
            Some(range) => Some(range),
            None => named_range(others, number),
        },
    }
}
