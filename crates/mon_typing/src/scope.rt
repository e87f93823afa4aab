//! What is known of a text's names.

ghost use Rattle.std.specs.Prelude.{◌≡◌, IfOk, IfErr, bytes_eq, codes};
ghost use Rattle.mon_syntax.specs.Checking.{word_bytes, target_of, register_or_fault, function_called, is_free};
ghost use Rattle.mon_parser.specs.ParsedTrees.{plain_name};
ghost use Rattle.mon_typing.specs.Answers.{Gives, TakesNoMemory};
ghost use Rattle.mon_typing.specs.Headers.{plain_header};
ghost use Rattle.mon_typing.specs.Scopes.{plain_scope};

use crate::fault::CheckFault;
use crate::global::Globals;
use crate::header::{Functions, Header};
use crate::register::Registers;
use c_syntax::{Name, Place};
use mon_parser::parsed::NameUse;
use mon_syntax::{MonType, Word};
use std::alloc::{AllocError, Global};

/// The names of the text and what they are, the functions, the globals and the registers.
#[derive(Clone, Copy, Drop)]
pub struct Scope<'a> {
    pub names: &'a [Name],
    pub words: &'a [Word],
    pub functions: &'a Functions,
    pub globals: &'a Globals,
    pub registers: &'a Registers,
}

/// Whether the name of a number is `main`.
pub fn is_main(names: &[Name], number: u32) -> bool
    ensures { result ≡ bytes_eq (word_bytes names.now number) (codes "main") }
{
    match names.get(number as usize) {
        Some(name) => name.bytes() == b"main".as_slice(),
        None => false,
    }
}

/// Whether a global, a register, a label or a function may be called so.
pub fn is_free(word: Word) -> bool
    ensures { result ≡ is_free word }
{
    matches!(word, Word::Name)
}

pub fn copy(alloc: Global, name: &Name) -> Result<Name, AllocError>
    ensures { IfOk result (λ x. x ≡ name.now) }
{
    Ok(Name::new(Vec::from_slice(alloc, name.bytes())?))
}

/// A copy of the name of a number, or an empty one where there is none.
pub fn name_at(alloc: Global, names: &[Name], number: u32) -> Result<Name, AllocError>
    ensures { IfOk result (λ name. name ≡ word_bytes names.now number) }
{
    match names.get(number as usize) {
        Some(name) => copy(alloc, name),
        None => Ok(Name::new(Vec::new(alloc))),
    }
}

/// A name that is set or stored through: a register by its number in the function, with its type, or none where it is a
/// global.
pub fn target_of(scope: &Scope, name: NameUse) -> Result<Option<(u32, MonType)>, CheckFault>
    ensures typed { Gives (λ target. target) result (target_of (plain_scope scope.now) (plain_name name)) }
    ensures sure { IfErr result TakesNoMemory }
{
    if let Some(register) = scope.registers.find(name.number) {
        return Ok(Some(register));
    }
    match scope.globals.find(name.number) {
        Some(_) => Ok(None),
        None => Err(CheckFault::BadName(name.place)),
    }
}

/// It is to be a register.
pub fn register_or_fault(
    target: Option<(u32, MonType)>,
    place: Place,
) -> Result<(u32, MonType), CheckFault>
    ensures register { Gives (λ r. r) result (register_or_fault target place) }
    ensures sure { IfErr result TakesNoMemory }
{
    match target {
        Some(register) => Ok(register),
        None => Err(CheckFault::BadType(place)),
    }
}

/// A function by its number in the program, with what it is to its callers.
pub fn function_called<'a>(
    scope: &Scope<'a>,
    name: NameUse,
) -> Result<(u32, &'a Header), CheckFault>
    ensures typed { Gives (λ x. (x.0, plain_header x.1.now)) result (function_called (plain_scope scope.now) (plain_name name)) }
    ensures sure { IfErr result TakesNoMemory }
{
    match scope.functions.find(name.number) {
        Some(found) => Ok(found),
        None => Err(CheckFault::BadName(name.place)),
    }
}
