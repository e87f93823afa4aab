//! Whole programs.

ghost use Rattle.std.specs.Prelude.{◌≡◌, ℕ, ◌+◌, ◌≤◌, [], ◌++◌, length, map, reverse, codes, IfOk, OnOk};
ghost use Rattle.c_model.specs.Limits.{globals_bytes};
ghost use Rattle.mon_syntax.specs.FlatMemory.{over_flat};
ghost use Rattle.mon_syntax.specs.Globals.{globals_taken};
ghost use Rattle.mon_syntax.specs.Trees.{plain_func, plain_program};
ghost use Rattle.c_lower.specs.Code.{entries_from, entry_at, entry_named, function_code, functions_code};
ghost use Rattle.c_lower.specs.Entries.{entries_left, from_start};
ghost use Rattle.c_lower.specs.Lowered.{RunsAs, globals_of};

use crate::backward::Backward;
use crate::code::{Code, Entry, Instr};
use crate::globals::copy_globals;
use crate::labels::Labels;
use crate::statements::emit_statements;
use mon_syntax::{MonFunc, MonProgram};
use std::alloc::{AllocError, Global};

// The code of a function, before that of the functions after it. A body that comes to its end returns 0.
fn emit_function(code: &mut Backward, f: &MonFunc) -> Result<(), AllocError>
    ensures { OnOk result (code.new ≡ function_code (plain_func f.now) (length code.old) ++ code.old) }
{
    code.put(Instr::Return)?;
    code.put(Instr::Push(0))?;
    emit_statements(code, &f.body, &Labels::Outside)
}

// The entry of a function that begins there.
fn entry_of(f: &MonFunc, start: usize) -> Entry
    ensures { result ≡ entry_at start (plain_func f.now) }
{
    Entry {
        start,
        registers: f.parameters.len() + f.registers.len(),
    }
}

// The code of functions, and the entries, the last one first, by how many instructions are left where each begins.
fn emit_functions(
    code: &mut Backward,
    entries: &mut Vec<Entry>,
    functions: &[MonFunc],
) -> Result<(), AllocError>
    requires { (code.old ≡ []) × (entries.old.items ≡ []) }
    ensures code { OnOk result (code.new ≡ functions_code (map plain_func functions.now)) }
    ensures entries { OnOk result (entries.new.items ≡ reverse (entries_left (map plain_func functions.now))) }
{
    let mut left = functions.len();
    while left > 0 {
        left -= 1;
        let f = &functions[left];
        emit_function(code, f)?;
        entries.push(entry_of(f, code.len()))?;
    }
    Ok(())
}

// Entries that were written from the end of so many instructions, in order and counted from their start.
fn turned_round(alloc: Global, written: Vec<Entry>, total: usize) -> Result<Vec<Entry>, AllocError>
    ensures { IfOk result (λ entries. entries.items ≡ map (from_start total) (reverse written.items)) }
{
    let mut entries = Vec::new(alloc);
    let mut written = written;
    while let Some(e) = written.pop() {
        entries.push(Entry {
            start: total.saturating_sub(e.start),
            registers: e.registers,
        })?;
    }
    Ok(entries)
}

// The entry of the first function that is `main`, from the entries of all.
fn main_entry(functions: &[MonFunc], entries: &[Entry]) -> Option<Entry>
    ensures { (start : ℕ) → entries.now ≡ entries_from start (map plain_func functions.now)
        → result ≡ entry_named (codes "main") start (map plain_func functions.now) }
{
    for (i, f) in functions.iter().enumerate() {
        if f.name.bytes() == b"main".as_slice() {
            return entries.get(i).copied();
        }
    }
    None
}

// The instructions of a program, its entries, and that of `main`.
fn written(
    alloc: Global,
    m: &MonProgram,
) -> Result<(Vec<Instr>, Vec<Entry>, Option<Entry>), AllocError>
    ensures code { IfOk result (λ parts. parts.0.items ≡ functions_code (plain_program m.now).functions) }
    ensures entries { IfOk result (λ parts. parts.1.items ≡ entries_from 0 (plain_program m.now).functions) }
    ensures main { IfOk result (λ parts. parts.2 ≡ entry_named (codes "main") 0 (plain_program m.now).functions) }
{
    let mut code = Backward::new(alloc);
    let mut entries = Vec::new(alloc);
    emit_functions(&mut code, &mut entries, &m.functions)?;
    let entries = turned_round(alloc, entries, code.len())?;
    let main = main_entry(&m.functions, &entries);
    Ok((code.into_code(), entries, main))
}

/// The stack code of a program, which does what the program does. Which code that is, is free. It keeps the program's globals.
pub fn lower(alloc: Global, m: &MonProgram) -> Result<Code, AllocError>
    requires room { globals_taken (plain_program m.now).globals ≤ globals_bytes }
    ensures globals { IfOk result (λ code. globals_of code ≡ (plain_program m.now).globals) }
    ensures runs { IfOk result (λ code. RunsAs over_flat (plain_program m.now) code.entries.items code.main code.instrs.items) }
{
    let (instrs, entries, main) = written(alloc, m)?;
    let globals = copy_globals(alloc, &m.globals)?;
    Ok(Code {
        instrs,
        entries,
        main,
        globals,
    })
}
