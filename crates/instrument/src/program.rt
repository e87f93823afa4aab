//! Functions and programs (C99 6.9).

ghost use Rattle.std.specs.Prelude.{◌≡◌, ◌<◌, ◌++◌, ◌∷◌, [], ◌^◌, ℕ, true, IfOk, OnOk, codes, drop, if◌then◌else◌, length, map, nat_eq, option_map};
ghost use Rattle.c_syntax.specs.Ctypes.{plain_type};
ghost use Rattle.c_syntax.specs.Programs.{plain_func, plain_program};
ghost use Rattle.c_syntax.specs.Statements.{plain_decl, plain_stmt};
ghost use Rattle.c_model.specs.ExpressionTyping.{name_at};
ghost use Rattle.c_model.specs.AcceptedPrograms.{IsProgram};
ghost use Rattle.c_model.specs.UnrangedPrograms.{FunctionsRanged};
ghost use Rattle.c_model.specs.Meaning.{is_definition, run};
ghost use Rattle.c_model.specs.Reports.{Agrees};
ghost use Rattle.c_model.specs.State.{Input};
ghost use Rattle.mon_syntax.specs.BlockMemory.{block_run};
ghost use Rattle.mon_syntax.specs.Registers.{with_table};
ghost use Rattle.mon_syntax.specs.Trees.{NoStatement, plain_func as plain_monitored_func, plain_program as plain_monitored, plain_register, plain_stmts};
ghost use Rattle.mon_syntax.specs.Valid.{IsValid};
ghost use Rattle.c_initialisers.specs.Letters.{InitialsHaveLetters};
ghost use Rattle.c_effects.specs.Expressions.{before};
ghost use Rattle.c_effects.specs.Named.{unit_of, with_registers};
ghost use Rattle.instrument.specs.Limits.{BodyHasNumbers, FunctionHasNumbers, FunctionsHaveNumbers};
ghost use Rattle.instrument.specs.Options.{behind_body, body_by, globals_initialised, plain_spot, whole_code};
ghost use Rattle.instrument.specs.Translation.{after_body, front_temporaries, function_name, function_of, functions_from, index_of_main, name_of_register};
ghost use Rattle.instrument.specs.Translation.{registers_from, registers_of_body, result_of, translated};

use crate::contract::result_of;
use crate::function::code_of;
use crate::global::monitored_globals;
use crate::name::{function_name, pointer_name, temporary_name};
use crate::parameter::arguments;
use c_scopes::sight::name_at;
use c_syntax::{Func, Name, Program};
use mon_syntax::{MonFunc, MonProgram, MonType, Register, Registers};
use std::alloc::{AllocError, Global};

// The name of a register that is no argument: pointers are told apart.
fn name_of_register(alloc: Global, number: usize, kind: MonType) -> Result<Name, AllocError>
    ensures { IfOk result (λ bytes. bytes ≡ name_of_register number kind) }
{
    match kind {
        MonType::Ptr => pointer_name(alloc, number),
        MonType::I8 | MonType::U8 | MonType::I16 | MonType::U16 => temporary_name(alloc, number),
        MonType::I32 | MonType::U32 | MonType::I64 | MonType::U64 => temporary_name(alloc, number),
        MonType::I128 => temporary_name(alloc, number),
    }
}

// The registers of these types, from the number that the first one has on.
fn registers(alloc: Global, kinds: &[MonType], first: usize) -> Result<Vec<Register>, AllocError>
    ensures registers { IfOk result (λ rs. map plain_register rs.items ≡ registers_from first (drop first kinds.now)) }
{
    let mut all = Vec::new(alloc);
    'kinds: for k in first..kinds.len() {
        let kind = kinds[k];
        let name = name_of_register(alloc, k, kind)?;
        all.push(Register { kind, name })?;
    }
    Ok(all)
}

// The index, among the definitions, of the first one of `main`.
fn index_of_main(texts: &[Name], funcs: &[Func]) -> usize
    ensures { result ≡ index_of_main texts.now (map plain_func funcs.now) }
{
    let mut index = 0;
    'funcs: for f in funcs {
        if f.body.is_some() {
            if name_at(texts, f.name) == b"main".as_slice() {
                return index;
            }
            index += 1;
        }
    }
    index
}

// The name of the definition with an index, where `main` has this index.
fn name_of(
    alloc: Global,
    texts: &[Name],
    main: usize,
    index: usize,
    f: &Func,
) -> Result<Name, AllocError>
    ensures { IfOk result (λ bytes. bytes ≡ (if nat_eq index main then codes "main" else function_name index (name_at texts.now f.now.name))) }
{
    if index == main {
        Ok(Name::new(Vec::from_slice(alloc, b"main")?))
    } else {
        function_name(alloc, index, name_at(texts, f.name))
    }
}

// Translates the definition with an index, where `main` has this index.
fn function_of(
    alloc: Global,
    main: usize,
    index: usize,
    f: &Func,
    names: &mut Registers<'_>,
) -> Result<MonFunc, AllocError>
    ensures code { IfOk result (λ m. plain_monitored_func m ≡ function_of (unit_of names.old) main index (plain_func f.now)) }
    ensures program { OnOk result (names.new.program ≡ names.old.program) }
    ensures numbers { IfOk result (λ _. FunctionHasNumbers (unit_of names.old) (front_temporaries (unit_of names.old) (nat_eq index main))
        (plain_func f.now)) }
    ensures letters { IfOk result (λ _. index ≡ main → InitialsHaveLetters (unit_of names.old).globals) }
{
    let texts = names.names();
    let name = name_of(alloc, texts, main, index, f)?;
    let parameters = arguments(alloc, texts, &f.params)?;
    let body = code_of(alloc, index == main, f, names)?;
    let _ = names.next()?;
    let registers = registers(alloc, names.kinds(), f.params.len())?;
    Ok(MonFunc {
        result: result_of(&f.result),
        name,
        parameters,
        registers,
        body,
    })
}

// Translates a function where it is a definition, after those that are there.
fn add(
    alloc: Global,
    main: usize,
    f: &Func,
    names: &mut Registers<'_>,
    to: &mut Vec<MonFunc>,
) -> Result<(), AllocError>
    ensures code { OnOk result (map plain_monitored_func to.new.items ≡ map plain_monitored_func to.old.items ++ functions_from
        (unit_of names.old) main (length to.old.items) (plain_func f.now ∷ [])) }
    ensures program { OnOk result (names.new.program ≡ names.old.program) }
    ensures numbers { OnOk result (is_definition (plain_func f.now) ≡ true → FunctionHasNumbers (unit_of names.old)
        (front_temporaries (unit_of names.old) (nat_eq (length to.old.items) main)) (plain_func f.now)) }
    ensures letters { OnOk result ((main < length to.old.items → InitialsHaveLetters (unit_of names.old).globals)
        → main < length to.new.items → InitialsHaveLetters (unit_of names.old).globals) }
{
    match &f.body {
        Some(_) => {
            let index = to.len();
            to.push(function_of(alloc, main, index, f, names)?)?;
            Ok(())
        }
        None => Ok(()),
    }
}

// Translates the definitions, of which `main` has this index.
fn functions(alloc: Global, main: usize, p: &Program) -> Result<Vec<MonFunc>, AllocError>
    ensures code { IfOk result (λ fs. map plain_monitored_func fs.items ≡ functions_from (plain_program p.now) main 0 (plain_program p.now).funcs) }
    ensures numbers { IfOk result (λ _. FunctionsHaveNumbers (plain_program p.now) main 0 (plain_program p.now).funcs) }
    ensures letters { IfOk result (λ fs. main < length fs.items → InitialsHaveLetters (plain_program p.now).globals) }
    ensures few { length (plain_program p.now).funcs < 2 ^ 64 }
{
    let mut functions = Vec::with_capacity(alloc, p.funcs.len())?;
    let mut names = Registers::new(alloc, p)?;
    'funcs: for f in &p.funcs {
        add(alloc, main, f, &mut names, &mut functions)?;
    }
    Ok(functions)
}

// Translates the globals and the definitions of a program.
fn translate(alloc: Global, p: &Program) -> Result<MonProgram, AllocError>
    ensures translated { IfOk result (λ m. plain_monitored m ≡ translated (plain_program p.now)) }
    ensures numbers { IfOk result (λ _. FunctionsHaveNumbers (plain_program p.now) (index_of_main (plain_program p.now).names (plain_program p.now).funcs) 0
        (plain_program p.now).funcs) }
    ensures letters { IfOk result (λ m. index_of_main (plain_program p.now).names (plain_program p.now).funcs < length (plain_monitored m).functions
        → InitialsHaveLetters (plain_program p.now).globals) }
    ensures few { length (plain_program p.now).funcs < 2 ^ 64 }
{
    let main = index_of_main(&p.names, &p.funcs);
    let functions = functions(alloc, main, p)?;
    let globals = monitored_globals(alloc, p)?;
    Ok(MonProgram { globals, functions })
}

/// Translates a program into monitored C. Only running out of memory can keep it from that.
///
/// The translation is valid. Over numbered blocks it does what the program does, on every input and with every number of
/// steps, up to the program's first undefined operation.
pub fn instrument(alloc: Global, p: &Program) -> Result<MonProgram, AllocError>
    requires program { IsProgram (plain_program p.now) }
    requires ranged { FunctionsRanged (plain_program p.now).funcs }
    ensures valid { IfOk result (λ m. IsValid (plain_monitored m)) }
    ensures agrees { IfOk result (λ m. (input : Input) (n : ℕ) → Agrees (run (plain_program p.now) input n) (block_run (plain_monitored m) input n)) }
{
    let m = translate(alloc, p)?;
    Ok(m)
}
