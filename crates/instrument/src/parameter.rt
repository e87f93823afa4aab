//! The parameters of a function (C99 6.9.1): arguments stand in the first registers, and are stored in the blocks of the parameters.

ghost use Rattle.std.specs.Prelude.{◌≡◌, ◌∷◌, [], IfOk, OnOk, map, reverse};
ghost use Rattle.c_syntax.specs.Statements.{plain_decl};
ghost use Rattle.mon_syntax.specs.Registers.{next_register, no_registers, with_kinds, with_table};
ghost use Rattle.mon_syntax.specs.Trees.{plain_register, plain_stmts};
ghost use Rattle.track_scopes.specs.Blocks.{with_born};
ghost use Rattle.c_effects.specs.Expressions.{before};
ghost use Rattle.c_effects.specs.Named.{unit_of};
ghost use Rattle.instrument.specs.Options.{entering};
ghost use Rattle.instrument.specs.Translation.{arguments_from, own_name, parameters, value_types};

use crate::block::{between, enter, one_more};
use crate::name::register_name;
use c_effects::conversion::value_type;
use c_effects::operator::register;
use c_effects::part::then;
use c_scopes::sight::name_at;
use c_syntax::{Decl, Name};
use mon_syntax::{MonStmt, MonStmtKind, Register, Registers};
use std::alloc::{AllocError, Global};

// The name of a declaration, where it has one.
fn own_name<'a>(texts: &'a [Name], d: &Decl) -> &'a [u8]
    ensures { result.now ≡ own_name texts.now (plain_decl d.now) }
{
    if d.named { name_at(texts, d.name) } else { &[] }
}

/// The registers of arguments.
pub fn arguments(
    alloc: Global,
    texts: &[Name],
    params: &[Decl],
) -> Result<Vec<Register>, AllocError>
    ensures { IfOk result (λ rs. map plain_register rs.items ≡ arguments_from texts.now 0 (map plain_decl params.now)) }
{
    let mut all = Vec::new(alloc);
    'params: for d in params {
        let name = register_name(alloc, all.len(), own_name(texts, d))?;
        let kind = value_type(&d.ctype);
        all.push(Register { kind, name })?;
    }
    Ok(all)
}

/// A register for each argument, and none before them.
pub fn make_arguments(
    alloc: Global,
    params: &[Decl],
    names: &mut Registers<'_>,
) -> Result<(), AllocError>
    ensures { OnOk result (names.new ≡ with_table (with_kinds (value_types (map plain_decl params.now)) no_registers) names.old) }
{
    names.forget(alloc);
    'params: for d in params {
        let _ = names.fresh(value_type(&d.ctype))?;
    }
    Ok(())
}

// The birth of a parameter's block, in which the argument is stored that a register holds.
fn enter_parameter(
    alloc: Global,
    d: &Decl,
    argument: u32,
    names: &mut Registers<'_>,
    to: &mut Vec<MonStmt>,
) -> Result<(), AllocError>
    ensures code { OnOk result (plain_stmts to.new.items ≡ before (plain_stmts to.old.items)
        (parameters (unit_of names.old) (next_register names.old.table) argument (plain_decl d.now ∷ []))) }
    ensures names { OnOk result (names.new ≡ entering (plain_decl d.now ∷ []) names.old) }
{
    let block = names.next()?;
    enter(alloc, std::slice::from_ref(d), names, to)?;
    let value = register(alloc, argument)?;
    then(
        alloc,
        to,
        MonStmtKind::Store(block, value_type(&d.ctype), value),
    )
}

// The births of all parameters' blocks, with their arguments.
fn enter_all(
    alloc: Global,
    params: &[Decl],
    names: &mut Registers<'_>,
    to: &mut Vec<MonStmt>,
) -> Result<(), AllocError>
    ensures code { OnOk result (plain_stmts to.new.items ≡ before (plain_stmts to.old.items)
        (parameters (unit_of names.old) (next_register names.old.table) 0 (map plain_decl params.now))) }
    ensures names { OnOk result (names.new ≡ entering (map plain_decl params.now) names.old) }
{
    let mut argument = 0;
    'params: for d in params {
        enter_parameter(alloc, d, argument, names, to)?;
        argument = one_more(argument)?;
    }
    Ok(())
}

/// The births of the blocks of a function's parameters, with their arguments, which are its first registers. It gives the blocks by the
/// registers that point to them, in order of birth.
pub fn enter_parameters(
    alloc: Global,
    params: &[Decl],
    names: &mut Registers<'_>,
    to: &mut Vec<MonStmt>,
) -> Result<Vec<u32>, AllocError>
    ensures code { OnOk result (plain_stmts to.new.items ≡ before (plain_stmts to.old.items)
        (parameters (unit_of names.old) (next_register names.old.table) 0 (map plain_decl params.now))) }
    ensures names { OnOk result (names.new ≡ entering (map plain_decl params.now) names.old) }
    ensures own { IfOk result (λ own. reverse own.items ≡ with_born (next_register names.old.table) (map plain_decl params.now) []) }
{
    let first = names.next()?;
    enter_all(alloc, params, names, to)?;
    let end = names.next()?;
    between(alloc, first, end)
}
