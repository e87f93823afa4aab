//! Functions.

ghost use Rattle.std.specs.Prelude.{◌≡◌, ◌&&◌, [], map, IfOk};
ghost use Rattle.mon_syntax.specs.Trees.{plain_stmts, plain_register, plain_func};
ghost use Rattle.mon_syntax.specs.Checking.{is_free, find_function, header_of, scope_of, checked_registers, named_register, checked_statements};
ghost use Rattle.mon_syntax.specs.Checking.{checked_function, checked_functions};
ghost use Rattle.mon_syntax.specs.Grammar.{word_at};
ghost use Rattle.mon_parser.specs.ParsedTrees as read;
ghost use Rattle.mon_typing.specs.Answers.{Gives};
ghost use Rattle.mon_typing.specs.Headers.{plain_header, is_at};
ghost use Rattle.mon_typing.specs.Functions.{registers_behind, body_of, named_function, next_function};
ghost use Rattle.mon_typing.specs.Scopes.{numbered, is_new_register};

use crate::fault::CheckFault;
use crate::global::{Globals, is_new as is_new_global};
use crate::header::Functions;
use crate::register::Registers;
use crate::scope::{Scope, is_free, name_at};
use crate::statement::{Labels, checked_statements};
use c_syntax::Name;
use indexmap::IndexMap;
use mon_parser::parsed::{ParsedFunc, ParsedRegister};
use mon_parser::word_at;
use mon_syntax::{MonFunc, MonStmt, MonType, Register, Word};
use std::alloc::{AllocError, Global};

/// Whether a register may be called so, besides globals and after those that are known.
fn is_new(words: &[Word], globals: &Globals, known: &IndexMap<u32, MonType>, number: u32) -> bool
    ensures { result ≡ is_new_register words.now globals.now.numbers.keys known.now.entries number }
{
    is_new_global(words, &globals.numbers, number) && !known.contains_key(&number)
}

/// The registers after those that are known, by their names' numbers. Each has a free name of its own.
fn checked_registers(
    words: &[Word],
    globals: &Globals,
    known: &mut IndexMap<u32, MonType>,
    registers: &[ParsedRegister],
) -> Result<(), CheckFault>
    ensures { Gives (λ u. known.new.entries) result (checked_registers words.now globals.now.numbers.keys known.old.entries
        (map read.plain_register registers.now)) }
{
    'each: for register in registers {
        let name = register.name;
        if !is_new(words, globals, known, name.number) {
            return Err(CheckFault::BadName(name.place));
        }
        known.insert(name.number, register.kind)?;
    }
    Ok(())
}

/// All registers of a function after those that are known, the parameters first.
fn registers_of(
    words: &[Word],
    globals: &Globals,
    known: &mut IndexMap<u32, MonType>,
    f: &ParsedFunc,
) -> Result<(), CheckFault>
    ensures { Gives (λ u. known.new.entries) result (registers_behind words.now globals.now.numbers.keys known.old.entries (read.plain_func f.now)) }
{
    checked_registers(words, globals, known, &f.parameters)?;
    checked_registers(words, globals, known, &f.registers)
}

fn named_register(
    alloc: Global,
    names: &[Name],
    register: ParsedRegister,
) -> Result<Register, AllocError>
    ensures { IfOk result (λ r. plain_register r ≡ named_register names.now (register.name.number, register.kind)) }
{
    Ok(Register {
        kind: register.kind,
        name: name_at(alloc, names, register.name.number)?,
    })
}

/// The registers with their names.
fn named_registers(
    alloc: Global,
    names: &[Name],
    registers: &[ParsedRegister],
) -> Result<Vec<Register>, AllocError>
    ensures { IfOk result (λ all. map plain_register all.items ≡ map (named_register names.now) (numbered (map read.plain_register registers.now))) }
{
    let mut all = Vec::new(alloc);
    'each: for register in registers {
        all.push(named_register(alloc, names, *register)?)?;
    }
    Ok(all)
}

/// The statements of a function with these registers, among others.
fn statements_with(
    alloc: Global,
    names: &[Name],
    words: &[Word],
    functions: &Functions,
    globals: &Globals,
    registers: &Registers,
    f: &ParsedFunc,
) -> Result<Vec<MonStmt>, CheckFault>
    ensures { Gives (λ v. plain_stmts v.items) result (checked_statements
        (scope_of names.now words.now (map plain_header functions.now.headers.items) globals.now.numbers.keys registers.now.kinds.entries) f.now.result []
        (read.plain_stmts f.now.body.items)) }
{
    let scope = Scope {
        names,
        words,
        functions,
        globals,
        registers,
    };
    let mut labels = Labels {
        around: Vec::new(alloc),
        closed: Vec::new(alloc),
    };
    checked_statements(alloc, &scope, f.result, &mut labels, &f.body)
}

/// The statements of a function among others. Its parameters may be used like registers.
fn body_of(
    alloc: Global,
    names: &[Name],
    words: &[Word],
    functions: &Functions,
    globals: &Globals,
    f: &ParsedFunc,
) -> Result<Vec<MonStmt>, CheckFault>
    ensures { Gives (λ v. plain_stmts v.items) result (body_of names.now words.now (map plain_header functions.now.headers.items) globals.now.numbers.keys
        (read.plain_func f.now)) }
{
    let mut kinds = IndexMap::new(alloc);
    registers_of(words, globals, &mut kinds, f)?;
    let registers = Registers::new(kinds)?;
    statements_with(alloc, names, words, functions, globals, &registers, f)
}

/// A function with this body, and its names.
fn named_function(
    alloc: Global,
    names: &[Name],
    f: &ParsedFunc,
    body: Vec<MonStmt>,
) -> Result<MonFunc, AllocError>
    ensures { IfOk result (λ g. plain_func g ≡ named_function names.now (read.plain_func f.now) (plain_stmts body.items)) }
{
    let name = name_at(alloc, names, f.name.number)?;
    let parameters = named_registers(alloc, names, &f.parameters)?;
    let registers = named_registers(alloc, names, &f.registers)?;
    Ok(MonFunc {
        result: f.result,
        name,
        parameters,
        registers,
        body,
    })
}

/// A function among others.
fn checked_function(
    alloc: Global,
    names: &[Name],
    words: &[Word],
    functions: &Functions,
    globals: &Globals,
    f: &ParsedFunc,
) -> Result<MonFunc, CheckFault>
    ensures { Gives plain_func result (checked_function names.now words.now (map plain_header functions.now.headers.items) globals.now.numbers.keys
        (read.plain_func f.now)) }
{
    let body = body_of(alloc, names, words, functions, globals, f)?;
    Ok(named_function(alloc, names, f, body)?)
}

/// Whether the function with this number has a free name, and is the first of its name.
fn is_new_function(words: &[Word], functions: &Functions, name: u32, index: usize) -> bool
    ensures { result ≡ (is_free (word_at words.now name) && is_at index (find_function 0 (map plain_header functions.now.headers.items) name)) }
{
    match functions.find(name) {
        Some((first, _)) => is_free(word_at(words, name)) && first as usize == index,
        None => false,
    }
}

/// The function with this number, whose name is new.
fn next_function(
    alloc: Global,
    names: &[Name],
    words: &[Word],
    functions: &Functions,
    globals: &Globals,
    index: usize,
    f: &ParsedFunc,
) -> Result<MonFunc, CheckFault>
    ensures { Gives plain_func result (next_function names.now words.now (map plain_header functions.now.headers.items) globals.now.numbers.keys index
        (read.plain_func f.now)) }
{
    if is_new_function(words, functions, f.name.number, index) {
        checked_function(alloc, names, words, functions, globals, f)
    } else {
        Err(CheckFault::BadName(f.name.place))
    }
}

/// The functions of a text, by what they are to their callers.
pub fn checked_functions(
    alloc: Global,
    names: &[Name],
    words: &[Word],
    functions: &Functions,
    globals: &Globals,
    list: &[ParsedFunc],
) -> Result<Vec<MonFunc>, CheckFault>
    requires { map plain_header functions.now.headers.items ≡ map header_of (map read.plain_func list.now) }
    ensures { Gives (λ v. map plain_func v.items) result (checked_functions names.now words.now (map plain_header functions.now.headers.items)
        globals.now.numbers.keys [] (map read.plain_func list.now)) }
{
    let mut all = Vec::new(alloc);
    'each: for (index, f) in list.iter().enumerate() {
        all.push(next_function(alloc, names, words, functions, globals, index, f)?)?;
    }
    Ok(all)
}
