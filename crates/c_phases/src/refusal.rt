//! The refusals of a text that has a tree.

ghost use Rattle.c_syntax.specs.Tokens.{plain_tokens};
ghost use Rattle.c_model.specs.Phases.{checked_refusal, main_refusal, type_refusal};
ghost use Rattle.token_reader.specs.Answers.{RefusesWith};
ghost use Rattle.c_scopes.specs.Answers.{plain_fault};
ghost use Rattle.c_phases.specs.Answers.{RefusesFault};

use c_scopes::fault::{Fault, TypeFault};
use c_syntax::{FrontFault, Tokens, code};
use std::alloc::Global;
use token_reader::refusal::{refused, refused_at_place};

/// The refusal for a type past a limit.
fn refused_type(alloc: Global, fault: Fault) -> FrontFault
    ensures { RefusesWith (type_refusal (plain_fault fault)) result }
{
    refused(fault.code, fault.place, Vec::from_slice(alloc, b"type"))
}

/// The refusal for a fault in names and types or for want of room, with the word of the token at its place.
pub fn refused_in(alloc: Global, tokens: &Tokens, fault: Fault) -> FrontFault
    ensures { RefusesWith (checked_refusal (plain_tokens tokens.now) (plain_fault fault)) result }
{
    if fault.code == code::LIMIT {
        refused_type(alloc, fault)
    } else {
        refused_at_place(alloc, tokens, fault.code, fault.place)
    }
}

/// The refusal for want of `main`.
pub fn refused_main(alloc: Global, fault: Fault) -> FrontFault
    ensures { RefusesWith (main_refusal (plain_fault fault)) result }
{
    refused(fault.code, fault.place, Vec::from_slice(alloc, b"main"))
}

/// The refusal for a fault in names and types.
pub fn refuse(alloc: Global, tokens: &Tokens, fault: TypeFault) -> FrontFault
    ensures { RefusesFault (plain_tokens tokens.now) fault result }
{
    match fault {
        TypeFault::Refused(fault) => refused_in(alloc, tokens, fault),
        TypeFault::Memory => FrontFault::Memory,
    }
}
