//! Ranges over contracts, in which `\result` has the values of its type.

ghost use Rattle.std.specs.Prelude.{◌≡◌, IfErr, map, option_map};
ghost use Rattle.c_syntax.specs.Ctypes.{plain_type};
ghost use Rattle.c_syntax.specs.Programs.{plain_behavior, plain_contract};
ghost use Rattle.c_model.specs.AnnotationRanges.{ranged_behaviors, ranged_contract, ranged_maybe, seen_result};
ghost use Rattle.c_scopes.specs.Answers.{Answers, IsRefusal};

use crate::annotation::annotation_ranges;
use c_scopes::fault::TypeFault;
use c_syntax::{Behavior, CType, Contract};

/// Sets the ranges of the terms in behaviors of a function with a result of this type.
fn range_behaviors(ctype: &CType, behaviors: &mut Vec<Behavior>) -> Result<(), TypeFault>
    ensures ranged { Answers (λ _. map plain_behavior behaviors.new.items)
        (ranged_behaviors (seen_result (plain_type ctype.now)) (map plain_behavior behaviors.old.items)) result }
    ensures sure { IfErr result IsRefusal }
{
    for i in 0..behaviors.len() {
        let behavior = &mut behaviors[i];
        annotation_ranges(Some(ctype), &mut behavior.clauses)?;
    }
    Ok(())
}

/// Sets the ranges of the terms in a contract.
fn range_contract(ctype: &CType, contract: &mut Contract) -> Result<(), TypeFault>
    ensures ranged { Answers (λ _. plain_contract contract.new) (ranged_contract (seen_result (plain_type ctype.now)) (plain_contract contract.old)) result }
    ensures sure { IfErr result IsRefusal }
{
    annotation_ranges(Some(ctype), &mut contract.clauses)?;
    range_behaviors(ctype, &mut contract.behaviors)
}

/// Sets the ranges of the terms in the contract of a function with a result of this type, where it has one.
pub fn range_maybe(ctype: &CType, contract: &mut Option<Contract>) -> Result<(), TypeFault>
    ensures ranged { Answers (λ _. option_map plain_contract contract.new)
        (ranged_maybe (seen_result (plain_type ctype.now)) (option_map plain_contract contract.old)) result }
    ensures sure { IfErr result IsRefusal }
{
    match contract {
        None => Ok(()),
        Some(contract) => range_contract(ctype, contract),
    }
}
