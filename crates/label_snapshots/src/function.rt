//! The terms that a function keeps.

ghost use Rattle.std.specs.Prelude.{◌≡◌, ◌++◌, IfOk, OnOk, map, option_map};
ghost use Rattle.c_syntax.specs.Programs.{plain_behavior, plain_contract, plain_func};
ghost use Rattle.annot_simulation.specs.Plan.{in_behaviors, in_contract, planned};
ghost use Rattle.label_snapshots.specs.Plain.{plain_entries};

use crate::entry::Entry;
use crate::statement::add_body;
use crate::term::add_annotations;
use c_syntax::{Behavior, Contract, Func};
use std::alloc::{AllocError, Global};

// Adds those in the clauses of behaviors.
fn add_behaviors<'a>(behaviors: &'a [Behavior], to: &mut Vec<Entry<'a>>) -> Result<(), AllocError>
    ensures { OnOk result (plain_entries to.new.items ≡ plain_entries to.old.items ++ in_behaviors (map plain_behavior behaviors.now)) }
{
    'turn: for behavior in behaviors {
        add_annotations(&behavior.clauses, to)?;
    }
    Ok(())
}

// Adds those in a contract, where there is one.
fn add_contract<'a>(
    contract: &'a Option<Contract>,
    to: &mut Vec<Entry<'a>>,
) -> Result<(), AllocError>
    ensures { OnOk result (plain_entries to.new.items ≡ plain_entries to.old.items ++ in_contract (option_map plain_contract contract.now)) }
{
    match contract {
        None => Ok(()),
        Some(it) => {
            add_annotations(&it.clauses, to)?;
            add_behaviors(&it.behaviors, to)
        }
    }
}

/// The terms that a function keeps at its labels, in the order of the text.
pub fn planned(alloc: Global, f: &Func) -> Result<Vec<Entry<'_>>, AllocError>
    ensures { IfOk result (λ entries. plain_entries entries.items ≡ planned (plain_func f.now)) }
{
    let mut entries = Vec::new(alloc);
    add_contract(&f.contract, &mut entries)?;
    add_body(&f.body, &mut entries)?;
    Ok(entries)
}
