//! Places through pointers and in structs, and their addresses (C99 6.5.2.3, 6.5.3.2).

ghost use Rattle.c_syntax.specs.Ctypes.{plain_type};
ghost use Rattle.c_syntax.specs.Logic.{plain_term};
ghost use Rattle.c_model.specs.PredicateTyping.{address, arrow, deref, dot, member_of};
ghost use Rattle.c_scopes.specs.Answers.{Answers};
ghost use Rattle.c_scopes.specs.Sights.{plain_sight};
ghost use Rattle.annot_typing.specs.Sorts.{plain_sorted};

use crate::demand::as_pointer;
use crate::sorted::{Sorted, place_of, pointer, term_of};
use c_conversions::conversion::{is_struct, is_void};
use c_expression_rules::operator::has_size;
use c_scopes::fault::{TypeFault, no_name, no_type, too_large};
use c_scopes::limits::MOST_BYTES;
use c_scopes::sight::Sight;
use c_syntax::copy::copy_type;
use c_syntax::layout::{member_among, members_of};
use c_syntax::logic::{Term, TermKind};
use c_syntax::{CType, Place};
use std::alloc::Global;

/// `*a`: what a pointer points to, unless that is void.
pub fn deref(alloc: Global, place: Place, a: Sorted) -> Result<Sorted, TypeFault>
    ensures { Answers plain_sorted (deref place (plain_sorted a)) result }
{
    let (u, p) = as_pointer(alloc, place, a)?;
    if is_void(&u) {
        return Err(no_type(place));
    }
    place_of(alloc, place, TermKind::Deref(p), u)
}

/// `&a`: a pointer to a place.
#[tactic(auto, using(crate::proofs::Kept::type_kept))]
pub fn address(alloc: Global, place: Place, a: Sorted) -> Result<Sorted, TypeFault>
    ensures { Answers plain_sorted (address place (plain_sorted a)) result }
{
    match a {
        Sorted::Term(_t) => Err(no_type(place)),
        Sorted::Predicate(_p) => Err(no_type(place)),
        Sorted::Place(t) => match &t.ctype {
            None => Err(no_type(place)),
            Some(u) => {
                let to = copy_type(alloc, u)?;
                pointer(alloc, place, TermKind::Address(t), to)
            }
        },
    }
}

/// The member of this name in the place of a struct of this type, whose members are known.
fn member_of(
    alloc: Global,
    sight: &Sight,
    place: Place,
    name: u32,
    t: Term,
    u: &CType,
) -> Result<Sorted, TypeFault>
    ensures { Answers plain_sorted (member_of (plain_sight sight.now) place name (plain_term t) (plain_type u.now)) result }
{
    if !is_struct(u) {
        return Err(no_type(place));
    }
    has_size(sight, place, u)?;
    match member_among(members_of(&sight.structs, u), name) {
        None => Err(no_name(place)),
        Some(m) => {
            if m.offset > MOST_BYTES {
                return Err(too_large(place));
            }
            let ctype = copy_type(alloc, &m.ctype)?;
            place_of(alloc, place, TermKind::Member(m.offset, t), ctype)
        }
    }
}

/// `a.m`
#[tactic(auto, using(crate::proofs::Kept::type_kept))]
pub fn dot(
    alloc: Global,
    sight: &Sight,
    place: Place,
    name: u32,
    a: Sorted,
) -> Result<Sorted, TypeFault>
    ensures { Answers plain_sorted (dot (plain_sight sight.now) place name (plain_sorted a)) result }
{
    match a {
        Sorted::Term(_t) => Err(no_type(place)),
        Sorted::Predicate(_p) => Err(no_type(place)),
        Sorted::Place(t) => match &t.ctype {
            None => Err(no_type(place)),
            Some(u) => {
                let u = copy_type(alloc, u)?;
                member_of(alloc, sight, place, name, t, &u)
            }
        },
    }
}

/// `a->m`, which is `(*a).m`.
pub fn arrow(
    alloc: Global,
    sight: &Sight,
    place: Place,
    name: u32,
    a: Sorted,
) -> Result<Sorted, TypeFault>
    ensures { Answers plain_sorted (arrow (plain_sight sight.now) place name (plain_sorted a)) result }
{
    let (u, p) = as_pointer(alloc, place, a)?;
    let ctype = copy_type(alloc, &u)?;
    let t = term_of(alloc, place, TermKind::Deref(p), Some(ctype))?;
    member_of(alloc, sight, place, name, t, &u)
}
