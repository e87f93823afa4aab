//! Contracts of functions (ACSL 2.3.1, 2.3.3): each clause with what its kind may name, behaviors with names of their own, and `complete` and
//! `disjoint`, which name them. A name is found without a look at all behaviors.

ghost use Rattle.std.specs.Prelude.{◌≡◌, [], ◌∷◌, ◌++◌, IfOk, OnOk, map, not};
ghost use Rattle.c_syntax.specs.Ctypes.{plain_type};
ghost use Rattle.c_syntax.specs.Logic.{plain_annot, plain_body};
ghost use Rattle.c_syntax.specs.Programs.{plain_behavior, plain_contract};
ghost use Rattle.c_model.specs.Checked.{where_so};
ghost use Rattle.c_model.specs.ContractTyping.{known_behaviors, named_behaviors, names_of_behaviors, sight_of_clause, typed_behaviors, typed_clauses};
ghost use Rattle.c_model.specs.ContractTyping.{typed_contract, typed_covers};
ghost use Rattle.c_model.specs.ExpressionTyping as plain;
ghost use Rattle.c_model.specs.ExpressionTyping.{is_among, no_name};
ghost use Rattle.c_scopes.specs.Answers.{Answers};
ghost use Rattle.c_scopes.specs.Sights.{plain_sight};
ghost use Rattle.annot_typing.specs.Sights.{annotation_sight};

use crate::clause::type_clause;
use crate::clause_sight::ClauseSight;
use c_scopes::fault::{TypeFault, no_name};
use c_scopes::sight::Sight;
use c_scopes::tag::Tags;
use c_syntax::logic::{Annot, Body};
use c_syntax::{Behavior, CType, Contract, Kind, Place};
use std::alloc::Global;

/// What a clause of this kind may name, of a function with parameters of these numbers and a result of this type.
fn sight_of_kind<'a>(formals: &'a Tags, ctype: &'a CType, kind: Kind) -> ClauseSight<'a>
    ensures { (s : plain.Sight) → annotation_sight s result ≡ sight_of_clause s formals.now.list.items (plain_type ctype.now) kind }
{
    match kind {
        Kind::Ensures => ClauseSight::AtEnd(formals, ctype),
        _ => ClauseSight::AtEntry,
    }
}

/// Types clauses in turn.
fn type_kinds(
    alloc: Global,
    sight: &mut Sight,
    formals: &Tags,
    ctype: &CType,
    annots: &mut Vec<Annot>,
) -> Result<(), TypeFault>
    ensures typed { let seen = sight_of_clause (plain_sight sight.old) formals.now.list.items (plain_type ctype.now) in
        Answers (λ _. map plain_annot annots.new.items) (typed_clauses seen (map plain_annot annots.old.items)) result }
    ensures same { sight.new ≡ sight.old }
{
    for i in 0..annots.len() {
        let annot = &mut annots[i];
        let clause = sight_of_kind(formals, ctype, annot.kind);
        type_clause(alloc, sight, clause, annot.kind, &mut annot.body)?;
    }
    Ok(())
}

/// Types the clauses of a behavior behind those of these names, and adds its name to them.
fn type_behavior(
    alloc: Global,
    sight: &mut Sight,
    formals: &Tags,
    ctype: &CType,
    names: &mut Tags,
    behavior: &mut Behavior,
) -> Result<(), TypeFault>
    ensures typed { let seen = sight_of_clause (plain_sight sight.old) formals.now.list.items (plain_type ctype.now) in
        Answers (λ _. map plain_annot behavior.new.clauses.items)
        (where_so (not (is_among behavior.old.name names.old.list.items)) (no_name behavior.old.place)
        (typed_clauses seen (map plain_annot behavior.old.clauses.items))) result }
    ensures names { OnOk result (names.new.list.items ≡ names.old.list.items ++ behavior.old.name ∷ []) }
    ensures name { behavior.new.name ≡ behavior.old.name }
    ensures place { behavior.new.place ≡ behavior.old.place }
    ensures same { sight.new ≡ sight.old }
{
    if names.has(behavior.name) {
        return Err(no_name(behavior.place));
    }
    type_kinds(alloc, sight, formals, ctype, &mut behavior.clauses)?;
    names.push(behavior.name)?;
    Ok(())
}

/// Types behaviors in turn, and gives their names.
fn type_behaviors(
    alloc: Global,
    sight: &mut Sight,
    formals: &Tags,
    ctype: &CType,
    behaviors: &mut Vec<Behavior>,
) -> Result<Tags, TypeFault>
    ensures typed { let seen = sight_of_clause (plain_sight sight.old) formals.now.list.items (plain_type ctype.now) in
        Answers (λ _. map plain_behavior behaviors.new.items) (typed_behaviors seen [] (map plain_behavior behaviors.old.items)) result }
    ensures names { IfOk result (λ names. names.list.items ≡ names_of_behaviors (map plain_behavior behaviors.old.items)) }
    ensures same { sight.new ≡ sight.old }
{
    let mut names = Tags::new(alloc);
    for i in 0..behaviors.len() {
        let behavior = &mut behaviors[i];
        type_behavior(alloc, sight, formals, ctype, &mut names, behavior)?;
    }
    Ok(names)
}

/// Names that a clause has, each of which is among these.
fn known_behaviors(names: &Tags, used: &[(Place, u32)]) -> Result<(), TypeFault>
    ensures { Answers (λ u. u) (known_behaviors names.now.list.items used.now) result }
{
    let mut rest = used;
    'turn: while let [x, after @ ..] = rest {
        if !names.has(x.1) {
            return Err(no_name(x.0));
        }
        rest = after;
    }
    Ok(())
}

/// `complete` or `disjoint`, of behaviors of these names.
fn check_cover(names: &Tags, body: &Body) -> Result<(), TypeFault>
    ensures { Answers (λ u. u) (known_behaviors names.now.list.items (named_behaviors (plain_body body.now))) result }
{
    match body {
        Body::Names(used) => known_behaviors(names, used),
        Body::Raw(_) | Body::Truth(_) | Body::Value(_) => Ok(()),
    }
}

/// The clauses `complete` and `disjoint` in turn.
fn check_covers(names: &Tags, covers: &[Annot]) -> Result<(), TypeFault>
    ensures { Answers (λ u. u) (typed_covers names.now.list.items (map plain_annot covers.now)) result }
{
    let mut rest = covers;
    'turn: while let [cover, after @ ..] = rest {
        check_cover(names, &cover.body)?;
        rest = after;
    }
    Ok(())
}

/// Types a contract of a function with parameters of these numbers, which are in sight, and a result of this type. What was in sight before is
/// in sight after it.
pub fn type_contract(
    alloc: Global,
    sight: &mut Sight,
    formals: &Tags,
    ctype: &CType,
    contract: &mut Contract,
) -> Result<(), TypeFault>
    ensures typed { let seen = sight_of_clause (plain_sight sight.old) formals.now.list.items (plain_type ctype.now) in
        Answers (λ _. plain_contract contract.new) (typed_contract seen (plain_contract contract.old)) result }
    ensures same { sight.new ≡ sight.old }
{
    type_kinds(alloc, sight, formals, ctype, &mut contract.clauses)?;
    let names = type_behaviors(alloc, sight, formals, ctype, &mut contract.behaviors)?;
    check_covers(&names, &contract.covers)
}
