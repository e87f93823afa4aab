//! What a form of annotations is by its sort (ACSL 2.2): a term, of unbounded integers or of pointers, a predicate, or a place.

ghost use Rattle.std.specs.Prelude.{◌≡◌, IfOk, None, Some, option_map};
ghost use Rattle.c_syntax.specs.Ctypes.{Ptr, plain_type};
ghost use Rattle.c_syntax.specs.Logic.{plain_pred_kind, plain_term, plain_term_kind};
ghost use Rattle.c_model.specs.Checked.{Good};
ghost use Rattle.c_model.specs.PredicateTyping.{APlace, APredicate, ATerm, range_to_infer, sort_of_term, sort_of_type};
ghost use Rattle.c_scopes.specs.Answers.{Answers};
ghost use Rattle.annot_typing.specs.Sorts.{plain_sort, plain_sorted};

use c_scopes::fault::TypeFault;
use c_syntax::logic::{Pred, PredKind, Term, TermKind};
use c_syntax::{CType, Place, Range};
use std::alloc::{AllocError, Global};

/// A form by its sort.
#[derive(Drop)]
pub enum Sorted {
    Term(Term),
    Predicate(Pred),
    /// A place of any type, which a term reads.
    Place(Term),
}

/// What a value is. A struct is none.
#[derive(Clone, Copy)]
pub enum ValueSort<'a> {
    Integer,
    /// A pointer to this type.
    Pointer(&'a CType),
    NoValue,
}

/// The sort of what a place of this type holds: an array is the pointer to its first element (C99 6.3.2.1 p3).
fn sort_of_type(t: &CType) -> ValueSort<'_>
    ensures { plain_sort result ≡ sort_of_type (plain_type t.now) }
{
    match t {
        CType::Int(_) => ValueSort::Integer,
        CType::Ptr(u) => ValueSort::Pointer(u),
        CType::Array(u, _) => ValueSort::Pointer(u),
        _ => ValueSort::NoValue,
    }
}

/// The sort of a term, by the type that it keeps.
#[tactic(auto, using(crate::proofs::Kept::type_kept))]
pub fn sort_of(t: &Term) -> ValueSort<'_>
    ensures { plain_sort result ≡ sort_of_term (plain_term t.now) }
{
    match &t.ctype {
        None => ValueSort::Integer,
        Some(u) => sort_of_type(u),
    }
}

/// The range of a term, until ranges are inferred.
pub const NO_RANGE: Range = Range { lo: 0, hi: 0 };

/// A term that keeps this type.
pub fn term_of(
    alloc: Global,
    place: Place,
    kind: TermKind,
    ctype: Option<CType>,
) -> Result<Term, AllocError>
    ensures { IfOk result (λ t. plain_term t ≡ plain_term_kind place kind (option_map plain_type ctype) range_to_infer) }
{
    let kind = Box::new(alloc, kind)?;
    Ok(Term {
        place,
        kind,
        ctype,
        range: NO_RANGE,
    })
}

/// An integer that reads no place.
pub fn integer(alloc: Global, place: Place, kind: TermKind) -> Result<Sorted, TypeFault>
    ensures { Answers plain_sorted (Good (ATerm (plain_term_kind place kind None range_to_infer))) result }
{
    let t = term_of(alloc, place, kind, None)?;
    Ok(Sorted::Term(t))
}

/// A pointer to this type, which reads no place.
pub fn pointer(alloc: Global, place: Place, kind: TermKind, to: CType) -> Result<Sorted, TypeFault>
    ensures { Answers plain_sorted (Good (ATerm (plain_term_kind place kind (Some (Ptr (plain_type to))) range_to_infer))) result }
{
    let ctype = CType::Ptr(Box::new(alloc, to)?);
    let t = term_of(alloc, place, kind, Some(ctype))?;
    Ok(Sorted::Term(t))
}

/// A place of this type.
pub fn place_of(
    alloc: Global,
    place: Place,
    kind: TermKind,
    ctype: CType,
) -> Result<Sorted, TypeFault>
    ensures { Answers plain_sorted (Good (APlace (plain_term_kind place kind (Some (plain_type ctype)) range_to_infer))) result }
{
    let t = term_of(alloc, place, kind, Some(ctype))?;
    Ok(Sorted::Place(t))
}

pub fn predicate(alloc: Global, place: Place, kind: PredKind) -> Result<Sorted, TypeFault>
    ensures { Answers plain_sorted (Good (APredicate (plain_pred_kind place kind))) result }
{
    let kind = Box::new(alloc, kind)?;
    Ok(Sorted::Predicate(Pred { place, kind }))
}
