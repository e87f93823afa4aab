//! The blocks of variables' memory: their births where a scope is entered, and their deaths where scopes are left.

ghost use Rattle.std.specs.Prelude.{◌≡◌, ◌+◌, ◌-◌, ◌++◌, [], IfOk, OnOk, map, reverse};
ghost use Rattle.c_syntax.specs.Statements.{plain_decl, plain_item, plain_items};
ghost use Rattle.c_model.specs.Meaning.{declared_in};
ghost use Rattle.mon_syntax.specs.Registers.{next_register};
ghost use Rattle.mon_syntax.specs.Trees.{plain_stmts};
ghost use Rattle.track_scopes.specs.Blocks.{deaths, with_born};
ghost use Rattle.c_effects.specs.Expressions.{before};
ghost use Rattle.instrument.specs.Options.{births_by, declared_by, entering, items_of_first, plain_first_part, youngest};

use c_effects::part::then_all;
use c_syntax::{Decl, Item};
use mon_syntax::{MonStmt, Registers};
use std::alloc::{AllocError, Global};

// What an item declares itself.
fn declared_by(item: &Item) -> &[Decl]
    ensures { map plain_decl result.now ≡ declared_by (plain_item item.now) }
{
    match item {
        Item::Declare(decls) => decls,
        Item::Specify(..) => &[],
        Item::Run(_) => &[],
        Item::Asserts(_) => &[],
    }
}

/// The number after this one. No memory holds a tree of more loops inside one another, or of more parameters.
pub fn one_more(number: u32) -> Result<u32, AllocError>
    ensures { IfOk result (λ next. next ≡ number + 1) }
{
    number.checked_add(1).ok_or(AllocError)
}

/// Enters the scope of these variables.
pub fn enter(
    alloc: Global,
    decls: &[Decl],
    names: &mut Registers<'_>,
    to: &mut Vec<MonStmt>,
) -> Result<(), AllocError>
    ensures born { OnOk result (plain_stmts to.new.items ≡ before (plain_stmts to.old.items) (births_by names.old (map plain_decl decls.now))) }
    ensures names { OnOk result (names.new ≡ entering (map plain_decl decls.now) names.old) }
{
    then_all(to, track_scopes::enter(alloc, decls, names)?)
}

// Enters the scope of the variables that items of a block declare.
fn enter_items(
    alloc: Global,
    block: &[Item],
    names: &mut Registers<'_>,
    to: &mut Vec<MonStmt>,
) -> Result<(), AllocError>
    ensures born { OnOk result (plain_stmts to.new.items ≡ before (plain_stmts to.old.items) (births_by names.old (declared_in (plain_items block.now)))) }
    ensures names { OnOk result (names.new ≡ entering (declared_in (plain_items block.now)) names.old) }
{
    'items: for item in block {
        enter(alloc, declared_by(item), names, to)?;
    }
    Ok(())
}

/// The registers from one up to another.
pub fn between(alloc: Global, first: u32, end: u32) -> Result<Vec<u32>, AllocError>
    ensures { IfOk result (λ all. reverse all.items ≡ youngest first (end - first)) }
{
    let mut all = Vec::new(alloc);
    let mut next = first;
    'registers: while next < end {
        all.push(next)?;
        next += 1;
    }
    Ok(all)
}

/// Enters a block, and gives the blocks of its variables, by the registers that point to them, in order of birth.
pub fn enter_block(
    alloc: Global,
    block: &[Item],
    names: &mut Registers<'_>,
    to: &mut Vec<MonStmt>,
) -> Result<Vec<u32>, AllocError>
    ensures born { OnOk result (plain_stmts to.new.items ≡ before (plain_stmts to.old.items) (births_by names.old (declared_in (plain_items block.now)))) }
    ensures names { OnOk result (names.new ≡ entering (declared_in (plain_items block.now)) names.old) }
    ensures own { IfOk result (λ own. reverse own.items ≡ with_born (next_register names.old.table) (declared_in (plain_items block.now)) []) }
{
    let first = names.next()?;
    enter_items(alloc, block, names, to)?;
    let end = names.next()?;
    between(alloc, first, end)
}

/// Leaves scopes: these blocks, in order of birth, die.
pub fn leave(alloc: Global, blocks: &[u32], to: &mut Vec<MonStmt>) -> Result<(), AllocError>
    ensures { OnOk result (plain_stmts to.new.items ≡ before (plain_stmts to.old.items) (deaths (reverse blocks.now))) }
{
    then_all(to, track_scopes::leave(alloc, blocks)?)
}

/// The blocks that live inside scopes, in order of birth: those that lived around them, and their own.
pub fn inside(alloc: Global, around: &[u32], own: &[u32]) -> Result<Vec<u32>, AllocError>
    ensures { IfOk result (λ all. all.items ≡ around.now ++ own.now) }
{
    let mut all = Vec::from_slice(alloc, around)?;
    all.extend_from_slice(own)?;
    Ok(all)
}

/// What stands first in a `for`, as items of a block.
pub fn items_of(first: &Option<Item>) -> &[Item]
    ensures { plain_items result.now ≡ items_of_first (plain_first_part first.now) }
{
    match first {
        Some(item) => std::slice::from_ref(item),
        None => &[],
    }
}
