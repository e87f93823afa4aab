//! Globals and string literals (C99 6.4.5, 6.9.2), which are bytes of monitored C, and the initialisation of globals.

ghost use Rattle.std.specs.Prelude.{◌≡◌, IfOk, OnOk, map};
ghost use Rattle.c_syntax.specs.Programs.{plain_program};
ghost use Rattle.c_syntax.specs.Statements.{plain_decl};
ghost use Rattle.c_model.specs.ObjectsLeft.{plain_object};
ghost use Rattle.mon_syntax.specs.Trees.{plain_global, plain_stmts};
ghost use Rattle.c_initialisers.specs.Letters.{InitialHasLetters, InitialsHaveLetters};
ghost use Rattle.c_effects.specs.Expressions.{before};
ghost use Rattle.c_effects.specs.Named.{unit_of, with_registers};
ghost use Rattle.instrument.specs.Options.{global_initialised, globals_initialised};
ghost use Rattle.instrument.specs.Translation.{all_global_temporaries, global_temporaries, globals_with, literals_with, monitored_global, monitored_globals};

use crate::block::one_more;
use crate::name::{global_name, text_name};
use c_effects::part::then;
use c_initialisers::initialiser::initialise;
use c_model::objects::{Object, Objects, next};
use c_scopes::sight::name_at;
use c_syntax::{Decl, Name, Program};
use mon_syntax::{
    GlobalContent, MonExpr, MonExprKind, MonGlobal, MonStmt, MonStmtKind, MonType, Registers,
};
use std::alloc::{AllocError, Global};
use track_scopes::size::size_of;

// A number of bytes, as a global has them. No memory holds an object of more than 32 bits count.
fn zeros(size: u64) -> Result<GlobalContent, AllocError>
    ensures { IfOk result (λ content. content ≡ GlobalContent.Zeros size) }
{
    match u32::try_from(size) {
        Ok(count) => Ok(GlobalContent::Zeros(count)),
        Err(_) => Err(AllocError),
    }
}

// The global of an object, which so many globals and so many literals stand before.
fn monitored_global(
    alloc: Global,
    p: &Program,
    globals: u32,
    literals: u32,
    object: Object<'_>,
) -> Result<MonGlobal, AllocError>
    ensures { IfOk result (λ g. plain_global g ≡ monitored_global (plain_program p.now) globals literals (plain_object object.entry)) }
{
    match object {
        Object::Global(d) => {
            let name = global_name(alloc, globals as usize, name_at(&p.names, d.name))?;
            let content = zeros(size_of(&p.structs, &d.ctype)?)?;
            Ok(MonGlobal { name, content })
        }
        Object::Literal(l) => {
            let name = text_name(alloc, literals as usize)?;
            let bytes = Vec::from_slice(alloc, l.bytes.bytes())?;
            let content = GlobalContent::Literal(Name::new(bytes));
            Ok(MonGlobal { name, content })
        }
    }
}

fn globals_with(globals: u32, object: Object<'_>) -> Result<u32, AllocError>
    ensures { IfOk result (λ with. with ≡ globals_with globals (plain_object object.entry)) }
{
    match object {
        Object::Global(_) => one_more(globals),
        Object::Literal(_) => Ok(globals),
    }
}

fn literals_with(literals: u32, object: Object<'_>) -> Result<u32, AllocError>
    ensures { IfOk result (λ with. with ≡ literals_with literals (plain_object object.entry)) }
{
    match object {
        Object::Global(_) => Ok(literals),
        Object::Literal(_) => one_more(literals),
    }
}

/// The globals of a program and its string literals, in the order of the text.
pub fn monitored_globals(alloc: Global, p: &Program) -> Result<Vec<MonGlobal>, AllocError>
    ensures { IfOk result (λ all. map plain_global all.items ≡ monitored_globals (plain_program p.now)) }
{
    let mut all = Vec::new(alloc);
    let mut globals = 0;
    let mut literals = 0;
    let mut left = Objects {
        globals: &p.globals,
        literals: &p.texts,
    };
    'turn: while let Some((object, rest)) = next(left) {
        all.push(monitored_global(alloc, p, globals, literals, object)?)?;
        globals = globals_with(globals, object)?;
        literals = literals_with(literals, object)?;
        left = rest;
    }
    Ok(all)
}

// Initialises a global, where it has an initialiser: through a further register that points to it.
fn initialise_global(
    alloc: Global,
    d: &Decl,
    names: &mut Registers<'_>,
    to: &mut Vec<MonStmt>,
) -> Result<(), AllocError>
    ensures code { OnOk result (plain_stmts to.new.items ≡ before (plain_stmts to.old.items) (global_initialised names.old (plain_decl d.now))) }
    ensures names { OnOk result (names.new ≡ with_registers (global_temporaries (unit_of names.old) (plain_decl d.now).init) names.old) }
    ensures letters { OnOk result (InitialHasLetters (plain_decl d.now).init) }
{
    match &d.init {
        None => Ok(()),
        Some(_) => {
            let index = names.object_of_global(d.place.offset);
            let pointer = names.fresh(MonType::Ptr)?;
            let start = MonExpr::new(alloc, MonExprKind::Global(index))?;
            then(alloc, to, MonStmtKind::Set(pointer, start))?;
            initialise(alloc, pointer, d, names, to)
        }
    }
}

/// Initialises the globals in text order.
pub fn initialise_globals(
    alloc: Global,
    names: &mut Registers<'_>,
    to: &mut Vec<MonStmt>,
) -> Result<(), AllocError>
    ensures code { OnOk result (plain_stmts to.new.items ≡ before (plain_stmts to.old.items)
        (globals_initialised names.old (unit_of names.old).globals)) }
    ensures names { OnOk result (names.new ≡ with_registers (all_global_temporaries (unit_of names.old) (unit_of names.old).globals) names.old) }
    ensures letters { OnOk result (InitialsHaveLetters (unit_of names.old).globals) }
{
    let decls = names.globals();
    'decls: for d in decls {
        initialise_global(alloc, d, names, to)?;
    }
    Ok(())
}
