//! The ranges of binders (ACSL 2.2.4), by the bounds of their chains.

ghost use Rattle.std.specs.Prelude.{◌≡◌, true, cond, if◌then◌else◌, nat_eq, Option, Some, None, map, option_map};
ghost use Rattle.std.specs.Int.{int_max};
ghost use Rattle.c_syntax.specs.Formulas.{Integers, plain_cast_type};
ghost use Rattle.c_syntax.specs.declared.annotation.Range as plain;
ghost use Rattle.c_syntax.specs.Logic.{plain_binder};
ghost use Rattle.c_model.specs.Ranges.{bounded, from_to, is_in_bits};
ghost use Rattle.c_model.specs.TermRanges.{Seen, are_bounded, lowered, raised, range_seen, seen_binders, tried_range};
ghost use Rattle.interval_infer.specs.Seen.{is_guarded, or_seen, seen_guard};

use c_conversions::conversion::integer_type;
use c_syntax::Range;
use c_syntax::logic::{Binder, Guard, LogicType};
use ea_num::type_range;

// The end of a chain: the greatest number of its upper bound, and whether `<` stands before that.
#[derive(Clone, Copy)]
struct End {
    upper: i128,
    below: bool,
}

// The greatest number that a binder may have, which is at least this one.
fn last_from(first: i128, upper: i128, below: bool) -> i128
    ensures { result ≡ int_max first (lowered below upper) }
{
    if upper <= first {
        first
    } else if below {
        upper - 1
    } else {
        upper
    }
}

// From a first number to the greatest last one; there is none where the first one is above all numbers of 128 bits.
fn counted(first: Option<i128>, upper: i128, below: bool) -> Option<Range>
    ensures { result ≡ option_map (λ l. from_to l (int_max l (lowered below upper))) first }
{
    let lo = first?;
    Some(Range {
        lo,
        hi: last_from(lo, upper, below),
    })
}

// The least number behind a lower bound, by the sign between them.
fn raised(above: bool, from: i128) -> Option<i128>
    ensures { result ≡ if is_in_bits 127 (raised above from) then Some (raised above from) else None }
{
    if above {
        from.checked_add(1)
    } else {
        Some(from)
    }
}

// From the least number behind a lower bound to the greatest one before the upper bound.
fn counted_from(end: End, above: bool, from: i128) -> Option<Range>
    ensures { result ≡ bounded (tried_range Integers (raised above from) (lowered end.below end.upper)) }
{
    counted(raised(above, from), end.upper, end.below)
}

// The range of a binder of a chain with this end that starts from a number: that of its type, where it has an integer type of C.
#[tactic(auto, using(crate::proofs::Tried::tried_of))]
fn tried(end: End, binder: &Binder, from: i128) -> Option<Range>
    ensures { result ≡ bounded (tried_range (plain_cast_type binder.now.kind) (raised binder.now.above from) (lowered end.below end.upper)) }
{
    match &binder.kind {
        LogicType::Integer => counted_from(end, binder.above, from),
        LogicType::Of(t) => match integer_type(t) {
            Some(kind) => Some(type_range(kind)),
            None => counted_from(end, binder.above, from),
        },
    }
}

// Whether binders of a chain with this end, of which the first one starts from a number, have ranges within 128 bits.
#[tactic(auto, using(crate::proofs::Tried::bounds_next, crate::proofs::Tried::none_within))]
fn bounds(end: End, from: i128, binders: &[Binder]) -> bool
    ensures { result ≡ are_bounded from (map plain_binder binders.now) (lowered end.below end.upper) }
{
    match binders {
        [] => true,
        [first, rest @ ..] => match tried(end, first, from) {
            None => false,
            Some(range) => bounds(end, range.lo, rest),
        },
    }
}

// The range of a binder with this number, that of one inside before its own.
fn own_range(binder: &Binder, range: Range, number: u32, inside: Option<Range>) -> Option<Range>
    ensures { (o : Option plain.Range) → or_seen result o ≡ or_seen inside (cond (nat_eq binder.now.place.offset number) (Some range) o) }
{
    match inside {
        Some(other) => Some(other),
        None => {
            if binder.place.offset == number {
                Some(range)
            } else {
                None
            }
        }
    }
}

// The range of a binder with this number among them: that of the last one.
fn named(end: End, from: i128, binders: &[Binder], number: u32) -> Option<Range>
    requires bounded { are_bounded from (map plain_binder binders.now) (lowered end.below end.upper) ≡ true }
    ensures { (seen : Seen) → range_seen number (seen_binders from (map plain_binder binders.now) (lowered end.below end.upper) seen)
        ≡ or_seen result (range_seen number seen) }
{
    match binders {
        [] => None,
        [first, rest @ ..] => {
            let range = tried(end, first, from)?;
            let inside = named(end, range.lo, rest, number);
            own_range(first, range, number, inside)
        }
    }
}

// The end of a chain whose bounds have their ranges.
fn end_of(guard: &Guard) -> End
    ensures upper { result.upper ≡ guard.now.upper.range.hi }
    ensures below { result.below ≡ guard.now.below }
{
    End {
        upper: guard.upper.range.hi,
        below: guard.below,
    }
}

/// Whether the binders of a chain, whose bounds have their ranges, have ranges within 128 bits.
pub fn is_bounded(guard: &Guard) -> bool
    ensures { result ≡ is_guarded guard.now }
{
    let end = end_of(guard);
    match tried(end, &guard.first, guard.lower.range.lo) {
        None => false,
        Some(range) => bounds(end, range.lo, &guard.others),
    }
}

/// The range of a binder with this number of a chain.
pub fn range_behind(guard: &Guard, number: u32) -> Option<Range>
    requires bounded { is_guarded guard.now ≡ true }
    ensures { (seen : Seen) → range_seen number (seen_guard guard.now seen) ≡ or_seen result (range_seen number seen) }
{
    let end = end_of(guard);
    let range = tried(end, &guard.first, guard.lower.range.lo)?;
    let inside = named(end, range.lo, &guard.others, number);
    own_range(&guard.first, range, number, inside)
}
