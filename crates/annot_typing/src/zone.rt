//! What is told of blocks, and the zones of which memory is asked (ACSL 2.7).

ghost use Rattle.std.specs.Prelude.{◌≡◌, IfOk, option_map};
ghost use Rattle.c_syntax.specs.Ctypes.{plain_type};
ghost use Rattle.c_syntax.specs.Logic.{Another, plain_term, plain_zone_kind, plain_zones};
ghost use Rattle.c_syntax.specs.Layouts.{align_of, size_of};
ghost use Rattle.c_model.specs.Checked.{Good};
ghost use Rattle.c_model.specs.PredicateTyping.{elements_zone, object_zone, told, told_type, where_asked};
ghost use Rattle.c_scopes.specs.Answers.{Answers};
ghost use Rattle.c_scopes.specs.Sights.{plain_sight};
ghost use Rattle.annot_typing.specs.Sorts.{plain_sorted};
ghost use Rattle.annot_typing.specs.Zones.{elements_between, plain_zone};

use crate::demand::{as_integer, as_pointer};
use crate::measure::where_measured;
use crate::sorted::{Sorted, term_of};
use c_conversions::conversion::is_scalar;
use c_expression_rules::format::pointer_to_char;
use c_scopes::fault::{TypeFault, no_type};
use c_scopes::limits::{align_of, size_of};
use c_scopes::sight::Sight;
use c_syntax::logic::{BlockFact, MemoryQuestion, Term, TermKind, Zone, ZoneKind, Zones};
use c_syntax::{CType, Place};
use std::alloc::{AllocError, Global};

/// The type of what is told: of the block's begin it is `char *`.
fn told_type(alloc: Global, fact: BlockFact) -> Result<Option<CType>, AllocError>
    ensures { IfOk result (λ t. option_map plain_type t ≡ told_type fact) }
{
    match fact {
        BlockFact::BaseAddr => {
            let t = pointer_to_char(alloc)?;
            Ok(Some(t))
        }
        BlockFact::BlockLength | BlockFact::Offset => Ok(None),
    }
}

/// `\base_addr`, `\block_length` and `\offset` of any pointer.
pub fn told(alloc: Global, place: Place, fact: BlockFact, a: Sorted) -> Result<Sorted, TypeFault>
    ensures { Answers plain_sorted (told place fact (plain_sorted a)) result }
{
    let (_u, p) = as_pointer(alloc, place, a)?;
    let ctype = told_type(alloc, fact)?;
    let t = term_of(alloc, place, TermKind::Told(fact, p), ctype)?;
    Ok(Sorted::Term(t))
}

/// Whether the question may be asked of what a pointer points to: of bytes of a known size, and `\initialized` of a scalar.
fn where_asked(
    sight: &Sight,
    place: Place,
    question: MemoryQuestion,
    u: &CType,
) -> Result<(), TypeFault>
    ensures { Answers (λ u. u) (where_asked (plain_sight sight.now) place question (plain_type u.now) (Good tt)) result }
{
    match question {
        MemoryQuestion::Valid | MemoryQuestion::ValidRead => where_measured(sight, place, u),
        MemoryQuestion::Initialized => {
            if is_scalar(u) {
                where_measured(sight, place, u)
            } else {
                Err(no_type(place))
            }
        }
    }
}

/// A zone behind a pointer to this type.
fn zone_of(
    alloc: Global,
    sight: &Sight,
    place: Place,
    u: &CType,
    kind: ZoneKind,
) -> Result<Zone, TypeFault>
    ensures { let structs = (plain_sight sight.now).structs in let t = plain_type u.now in
        Answers plain_zone (Good (plain_zone_kind place (size_of structs t) (align_of structs t) kind)) result }
{
    let size = size_of(&sight.structs, u)?;
    let align = align_of(&sight.structs, u);
    let kind = Box::new(alloc, kind)?;
    Ok(Zone {
        place,
        size,
        align,
        kind,
    })
}

/// The zone of what a pointer points to, for a question whose word stands at this place.
#[tactic(auto, using(crate::proofs::Kept::place_kept))]
pub fn object_zone(
    alloc: Global,
    sight: &Sight,
    question: MemoryQuestion,
    place: Place,
    a: Sorted,
) -> Result<Zone, TypeFault>
    ensures { Answers plain_zone (object_zone (plain_sight sight.now) question place (plain_sorted a)) result }
{
    let (u, p) = as_pointer(alloc, place, a)?;
    where_asked(sight, place, question, &u)?;
    let at = p.place;
    zone_of(alloc, sight, at, &u, ZoneKind::Object(p))
}

/// The zone from one element of this type behind a pointer to another.
fn elements_between(
    alloc: Global,
    sight: &Sight,
    place: Place,
    u: &CType,
    p: Term,
    lo: Sorted,
    hi: Sorted,
) -> Result<Zone, TypeFault>
    ensures { Answers plain_zone
        (elements_between (plain_sight sight.now) place (plain_type u.now) (plain_term p) (plain_sorted lo) (plain_sorted hi)) result }
{
    let lo = as_integer(place, lo)?;
    let hi = as_integer(place, hi)?;
    zone_of(alloc, sight, place, u, ZoneKind::Elements(p, lo, hi))
}

/// `a + (lo .. hi)`, for a question, at the place of the `+`.
pub fn elements_zone(
    alloc: Global,
    sight: &Sight,
    question: MemoryQuestion,
    place: Place,
    a: Sorted,
    lo: Sorted,
    hi: Sorted,
) -> Result<Zone, TypeFault>
    ensures { Answers plain_zone
        (elements_zone (plain_sight sight.now) question place (plain_sorted a) (plain_sorted lo) (plain_sorted hi)) result }
{
    let (u, p) = as_pointer(alloc, place, a)?;
    where_asked(sight, place, question, &u)?;
    elements_between(alloc, sight, place, &u, p, lo, hi)
}

/// A zone in front of others.
pub fn another(alloc: Global, zone: Zone, rest: Zones) -> Result<Zones, TypeFault>
    ensures { Answers plain_zones (Good (Another (plain_zone zone) (plain_zones rest))) result }
{
    let rest = Box::new(alloc, rest)?;
    Ok(Zones::More(zone, rest))
}
