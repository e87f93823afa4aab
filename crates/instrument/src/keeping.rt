//! What a function keeps beside its variables, in registers behind its arguments: terms at its labels, what it gives, and a flag for each
//! behavior of its contract.

ghost use Rattle.std.specs.Prelude.{◌≡◌, ◌+◌, IfOk, OnOk, length, map};
ghost use Rattle.c_syntax.specs.Logic.{plain_term};
ghost use Rattle.c_syntax.specs.Programs.{plain_behavior, plain_func};
ghost use Rattle.c_simulation.specs.Keeping.{is_pointer_term};
ghost use Rattle.mon_syntax.specs.Registers.{next_register};
ghost use Rattle.c_effects.specs.Named.{with_registers};
ghost use Rattle.annot_simulation.specs.Plan.{kept_from, kept_types, planned, value_types};
ghost use Rattle.annot_pieces.specs.Tables.{plain_kept, plain_plan};
ghost use Rattle.instrument.specs.Options.{flag_types, types_of_kept, types_of_term};
ghost use Rattle.instrument.specs.Translation.{contract_types, own_types};

use annot_pieces::kept::Kept;
use annot_pieces::width::type_of;
use c_effects::conversion::value_type;
use c_syntax::logic::Term;
use c_syntax::{Behavior, Func};
use label_snapshots::table::{is_pointer, plan};
use mon_syntax::{MonType, Registers};
use std::alloc::{AllocError, Global};

/// The terms that a function keeps at its labels, and the register of what it gives, behind which stand the flags of behaviors.
#[derive(Drop)]
pub struct Own<'a> {
    pub kept: Vec<Kept<'a>>,
    pub given: u32,
}

// The registers of a number, or of a base and an offset.
fn keep_value(t: &Term, names: &mut Registers<'_>) -> Result<(), AllocError>
    ensures { OnOk result (names.new ≡ with_registers (value_types (is_pointer_term (plain_term t.now)) (plain_term t.now)) names.old) }
{
    if is_pointer(t) {
        let _ = names.fresh(MonType::Ptr)?;
        let _ = names.fresh(MonType::I128)?;
        Ok(())
    } else {
        let _ = names.fresh(type_of(t))?;
        Ok(())
    }
}

// The registers of a term: its flag, and its value.
fn keep_term(entry: &Kept<'_>, names: &mut Registers<'_>) -> Result<(), AllocError>
    ensures { OnOk result (names.new ≡ with_registers (types_of_term (plain_kept entry.now)) names.old) }
{
    let _ = names.fresh(MonType::I32)?;
    keep_value(entry.term, names)
}

// The registers of terms.
fn keep_terms(kept: &[Kept<'_>], names: &mut Registers<'_>) -> Result<(), AllocError>
    ensures { OnOk result (names.new ≡ with_registers (types_of_kept (plain_plan kept.now)) names.old) }
{
    'terms: for entry in kept {
        keep_term(entry, names)?;
    }
    Ok(())
}

// A flag for each behavior.
fn keep_flags(behaviors: &[Behavior], names: &mut Registers<'_>) -> Result<(), AllocError>
    ensures { OnOk result (names.new ≡ with_registers (flag_types (map plain_behavior behaviors.now)) names.old) }
{
    'behaviors: for _ in behaviors {
        let _ = names.fresh(MonType::I32)?;
    }
    Ok(())
}

// What a function with a contract gives, and the flags of the contract's behaviors.
fn keep_contract(f: &Func, names: &mut Registers<'_>) -> Result<(), AllocError>
    ensures { OnOk result (names.new ≡ with_registers (contract_types (plain_func f.now).result (plain_func f.now).contract) names.old) }
{
    match &f.contract {
        None => Ok(()),
        Some(c) => {
            let _ = names.fresh(value_type(&f.result))?;
            keep_flags(&c.behaviors, names)
        }
    }
}

/// Makes the registers of what a function keeps.
pub fn keep<'a>(
    alloc: Global,
    f: &'a Func,
    names: &mut Registers<'_>,
) -> Result<Own<'a>, AllocError>
    ensures kept { IfOk result (λ own. plain_plan own.kept.items ≡ kept_from (next_register names.old.table) (planned (plain_func f.now))) }
    ensures given { IfOk result (λ own. own.given ≡ next_register names.old.table + length (kept_types (planned (plain_func f.now)))) }
    ensures names { OnOk result (names.new ≡ with_registers (own_types (plain_func f.now)) names.old) }
{
    let first = names.next()?;
    let kept = plan(alloc, f, first)?;
    keep_terms(&kept, names)?;
    let given = names.next()?;
    keep_contract(f, names)?;
    Ok(Own { kept, given })
}
