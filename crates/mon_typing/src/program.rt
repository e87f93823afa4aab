//! Whole texts.

ghost use Rattle.std.specs.Prelude.{◌≡◌, map};
ghost use Rattle.mon_syntax.specs.Trees.{plain_func, plain_program};
ghost use Rattle.mon_syntax.specs.Checking.{checked_program};
ghost use Rattle.mon_parser.specs.ParsedTrees as read;
ghost use Rattle.mon_typing.specs.Answers.{Gives, GivesProgram};
ghost use Rattle.mon_typing.specs.Globals.{functions_of, globals_of, named_program};

use crate::fault::{CheckFault, ProgramFault};
use crate::function::checked_functions;
use crate::global::{Globals, checked_globals, first_too_large, named_globals};
use crate::header::Functions;
use c_syntax::Name;
use indexmap::IndexSet;
use mon_parser::parsed::ParsedProgram;
use mon_syntax::{MonFunc, MonProgram, Word};
use std::alloc::Global;

/// The globals of a text, each with a free name of its own.
fn globals_of(alloc: Global, words: &[Word], program: &ParsedProgram) -> Result<Globals, CheckFault>
    ensures { Gives (λ globals. globals.numbers.keys) result (globals_of words.now (read.plain_program program.now)) }
{
    let mut numbers = IndexSet::new(alloc);
    checked_globals(words, &mut numbers, &program.globals)?;
    Ok(Globals::new(numbers)?)
}

/// The functions of a text with these globals.
fn functions_of(
    alloc: Global,
    names: &[Name],
    words: &[Word],
    globals: &Globals,
    program: &ParsedProgram,
) -> Result<Vec<MonFunc>, CheckFault>
    ensures { Gives (λ v. map plain_func v.items) result (functions_of names.now words.now globals.now.numbers.keys (read.plain_program program.now)) }
{
    let headers = Functions::new(alloc, &program.functions)?;
    checked_functions(alloc, names, words, &headers, globals, &program.functions)
}

/// The functions of a text, whose globals have no fault.
fn checked_parts(
    alloc: Global,
    names: &[Name],
    words: &[Word],
    program: &ParsedProgram,
) -> Result<Vec<MonFunc>, CheckFault>
    ensures { Gives (λ v. named_program names.now (read.plain_program program.now) (map plain_func v.items)) result
        (checked_program names.now words.now (read.plain_program program.now)) }
{
    let globals = globals_of(alloc, words, program)?;
    functions_of(alloc, names, words, &globals, program)
}

/// The program that a tree spells, by the text's names and what each of them is, or its first fault. Where it has no other
/// fault, its globals have room in their segment.
pub fn checked_program(
    alloc: Global,
    names: &[Name],
    words: &[Word],
    program: &ParsedProgram,
) -> Result<MonProgram, ProgramFault>
    ensures { GivesProgram names.now words.now (read.plain_program program.now) result }
{
    let functions = checked_parts(alloc, names, words, program)?;
    if let Some(name) = first_too_large(&program.globals) {
        return Err(ProgramFault::TooLarge(name));
    }
    let globals = named_globals(alloc, names, &program.globals)?;
    Ok(MonProgram { globals, functions })
}
