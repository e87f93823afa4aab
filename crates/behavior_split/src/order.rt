//! The order of checks.

ghost use Rattle.std.specs.Prelude.{◌≡◌, ◌++◌, IfOk, None, OnOk, Some, map};
ghost use Rattle.c_syntax.specs.Logic.{plain_annot};
ghost use Rattle.c_syntax.specs.Programs.{plain_behavior, plain_contract};
ghost use Rattle.c_model.specs.ContractChecks.{entry_checks, leave_checks, of_behaviors, of_kind};
ghost use Rattle.behavior_split.specs.Checks.{is_kind, numbered, plain_check, plain_clause};

use crate::check::{Check, Checks, Clause, Clauses};
use c_syntax::{Annot, Behavior, Contract, Kind};
use std::alloc::{AllocError, Global};

/// An index in 32 bits: no memory holds more behaviors.
pub fn index_of(index: usize) -> Result<u32, AllocError>
    ensures { IfOk result (λ n. n ≡ index) }
{
    match u32::try_from(index) {
        Ok(n) => Ok(n),
        Err(_) => Err(AllocError),
    }
}

// Whether a clause is of this kind of contracts.
fn is_of(kind: Kind, annot: &Annot) -> bool
    ensures { result ≡ is_kind kind annot.now.kind }
{
    match kind {
        Kind::Requires => matches!(annot.kind, Kind::Requires),
        Kind::Assumes => matches!(annot.kind, Kind::Assumes),
        Kind::Ensures => matches!(annot.kind, Kind::Ensures),
        Kind::Complete => matches!(annot.kind, Kind::Complete),
        Kind::Disjoint => matches!(annot.kind, Kind::Disjoint),
        Kind::Assert | Kind::Invariant | Kind::Variant | Kind::Rte => false,
    }
}

// Adds the clauses of a kind among these, which are of this behavior.
fn add<'a>(
    annots: &'a [Annot],
    kind: Kind,
    behavior: Option<u32>,
    into: &mut Vec<Clause<'a>>,
) -> Result<(), AllocError>
    ensures { OnOk result (map plain_clause into.new.items ≡ map plain_clause into.old.items ++ of_kind (is_kind kind) behavior (map plain_annot annots.now)) }
{
    for annot in annots {
        if is_of(kind, annot) {
            into.push(Clause { annot, behavior })?;
        }
    }
    Ok(())
}

// Adds those of all behaviors.
fn add_behaviors<'a>(
    behaviors: &'a [Behavior],
    kind: Kind,
    into: &mut Vec<Clause<'a>>,
) -> Result<(), AllocError>
    ensures { OnOk result
        (map plain_clause into.new.items ≡ map plain_clause into.old.items ++ of_behaviors (is_kind kind) 0 (map plain_behavior behaviors.now)) }
{
    for (index, behavior) in behaviors.iter().enumerate() {
        let number = index_of(index)?;
        add(&behavior.clauses, kind, Some(number), into)?;
    }
    Ok(())
}

// What is checked where the body begins.
fn entry(alloc: Global, c: &Contract) -> Result<Vec<Clause<'_>>, AllocError>
    ensures { IfOk result (λ v. map plain_clause v.items ≡ entry_checks (plain_contract c.now)) }
{
    let mut found = Vec::new(alloc);
    add(&c.clauses, Kind::Requires, None, &mut found)?;
    add_behaviors(&c.behaviors, Kind::Assumes, &mut found)?;
    add_behaviors(&c.behaviors, Kind::Requires, &mut found)?;
    add(&c.covers, Kind::Complete, None, &mut found)?;
    add(&c.covers, Kind::Disjoint, None, &mut found)?;
    Ok(found)
}

// What is checked where the body ends.
fn leave(alloc: Global, c: &Contract) -> Result<Vec<Clause<'_>>, AllocError>
    ensures { IfOk result (λ v. map plain_clause v.items ≡ leave_checks (plain_contract c.now)) }
{
    let mut found = Vec::new(alloc);
    add(&c.clauses, Kind::Ensures, None, &mut found)?;
    add_behaviors(&c.behaviors, Kind::Ensures, &mut found)?;
    Ok(found)
}

/// The clauses of a contract in the order of their checks.
pub fn clauses(alloc: Global, c: &Contract) -> Result<Clauses<'_>, AllocError>
    ensures entry { IfOk result (λ checks. map plain_clause checks.entry.items ≡ entry_checks (plain_contract c.now)) }
    ensures leave { IfOk result (λ checks. map plain_clause checks.leave.items ≡ leave_checks (plain_contract c.now)) }
{
    let entry = entry(alloc, c)?;
    let leave = leave(alloc, c)?;
    Ok(Clauses { entry, leave })
}

// The check of a clause.
fn check(clause: &Clause<'_>) -> Check
    ensures { plain_check result ≡ numbered (plain_clause clause.now) }
{
    Check {
        annot: clause.annot.number,
        behavior: clause.behavior,
    }
}

// The checks of clauses.
fn checks(alloc: Global, clauses: &[Clause<'_>]) -> Result<Vec<Check>, AllocError>
    ensures { IfOk result (λ v. map plain_check v.items ≡ map numbered (map plain_clause clauses.now)) }
{
    let mut found = Vec::with_capacity(alloc, clauses.len())?;
    for clause in clauses {
        found.push(check(clause))?;
    }
    Ok(found)
}

/// The checks of a contract, in order, by the numbers of their annotations.
pub fn split(alloc: Global, c: &Contract) -> Result<Checks, AllocError>
    ensures entry { IfOk result (λ r. map plain_check r.entry.items ≡ map numbered (entry_checks (plain_contract c.now))) }
    ensures leave { IfOk result (λ r. map plain_check r.leave.items ≡ map numbered (leave_checks (plain_contract c.now))) }
{
    let ordered = clauses(alloc, c)?;
    let entry = checks(alloc, &ordered.entry)?;
    let leave = checks(alloc, &ordered.leave)?;
    Ok(Checks { entry, leave })
}
