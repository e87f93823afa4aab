//! The registers of the terms that a function keeps.

ghost use Rattle.std.specs.Prelude.{◌≡◌, IfOk};
ghost use Rattle.c_syntax.specs.Logic.{plain_term};
ghost use Rattle.c_syntax.specs.Programs.{plain_func};
ghost use Rattle.c_simulation.specs.Keeping.{is_pointer_term, registers_of};
ghost use Rattle.annot_simulation.specs.Plan.{kept_from, planned};
ghost use Rattle.label_snapshots.specs.Plain.{plain_entries, plain_plan};

use crate::entry::Entry;
use crate::function::planned;
use annot_pieces::kept::Kept;
use c_syntax::logic::Term;
use c_syntax::{CType, Func};
use std::alloc::{AllocError, Global};

/// Whether a term is a pointer, or an array, which is one to its first element.
#[tactic(auto, using(annot_pieces::proofs::Arms::is_pointer_is))]
pub fn is_pointer(t: &Term) -> bool
    ensures { result ≡ is_pointer_term (plain_term t.now) }
{
    matches!(&t.ctype, Some(CType::Ptr(_) | CType::Array(..)))
}

// How many registers a term takes.
fn registers_of(t: &Term) -> u32
    ensures { result ≡ registers_of (plain_term t.now) }
{
    if is_pointer(t) { 3 } else { 2 }
}

// Gives each term registers, from this number on.
fn numbered<'a>(
    alloc: Global,
    entries: &[Entry<'a>],
    first: u32,
) -> Result<Vec<Kept<'a>>, AllocError>
    ensures { IfOk result (λ plan. plain_plan plan.items ≡ kept_from first (plain_entries entries.now)) }
{
    let mut plan = Vec::with_capacity(alloc, entries.len())?;
    let mut register = first;
    'turn: for entry in entries {
        plan.push(Kept {
            label: entry.label,
            term: entry.term,
            register,
        })?;
        register = register
            .checked_add(registers_of(entry.term))
            .ok_or(AllocError)?;
    }
    Ok(plan)
}

/// The terms that a function keeps at its labels, in the order of the text, with registers from this number on.
pub fn plan(alloc: Global, f: &Func, first: u32) -> Result<Vec<Kept<'_>>, AllocError>
    ensures { IfOk result (λ plan. plain_plan plan.items ≡ kept_from first (planned (plain_func f.now))) }
{
    let entries = planned(alloc, f)?;
    numbered(alloc, &entries, first)
}
