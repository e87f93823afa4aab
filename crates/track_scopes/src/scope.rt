//! Scopes (C99 6.2.4, 6.8): their entry, and the ways out.

ghost use Rattle.std.specs.Prelude.{◌≡◌, ◌<◌, ◌^◌, IfOk, OnOk, map, reverse};
ghost use Rattle.c_syntax.specs.Programs.{plain_layout};
ghost use Rattle.c_syntax.specs.Statements.{plain_decl};
ghost use Rattle.c_syntax.specs.Layouts.{size_of};
ghost use Rattle.mon_syntax.specs.Registers.{next_register, with_table};
ghost use Rattle.mon_syntax.specs.Trees.{plain_stmt, plain_stmts};
ghost use Rattle.track_scopes.specs.Blocks.{AreSmall, birth, births, death, deaths, entered, with_pointer};
ghost use Rattle.track_scopes.specs.Lives.{Enters, Leaves};

use crate::size::size_constant;
use c_syntax::{Decl, Layout};
use mon_syntax::{MemoryCall, MonExpr, MonExprKind, MonStmt, MonStmtKind, MonType, Registers};
use std::alloc::{AllocError, Global};

// A further register that points to a variable's block.
fn pointer(names: &mut Registers<'_>, d: &Decl) -> Result<u32, AllocError>
    ensures number { IfOk result (λ r. r ≡ next_register names.old.table) }
    ensures names { OnOk result (names.new ≡ with_table (with_pointer (plain_decl d.now) names.old.table) names.old) }
{
    let register = names.fresh(MonType::Ptr)?;
    names.bind(d.place.offset, register)?;
    Ok(register)
}

// The birth of a variable's block, to which the register points.
fn birth(alloc: Global, structs: &[Layout], register: u32, d: &Decl) -> Result<MonStmt, AllocError>
    ensures code { IfOk result (λ s. plain_stmt s ≡ birth (map plain_layout structs.now) register (plain_decl d.now)) }
    ensures small { IfOk result (λ _. size_of (map plain_layout structs.now) (plain_decl d.now).ctype < 2 ^ 64) }
{
    let mut size = Vec::new(alloc);
    size.push(size_constant(alloc, structs, &d.ctype)?)?;
    MonStmt::new(
        alloc,
        MonStmtKind::Act(Some(register), MemoryCall::StoreBlock, size),
    )
}

// The births of variables' blocks, in order, to which further registers point.
fn births(
    alloc: Global,
    decls: &[Decl],
    names: &mut Registers<'_>,
) -> Result<Vec<MonStmt>, AllocError>
    ensures code { IfOk result (λ code. plain_stmts code.items ≡ births (map plain_layout names.old.program.structs.items)
        (next_register names.old.table) (map plain_decl decls.now)) }
    ensures names { OnOk result (names.new ≡ with_table (entered (map plain_decl decls.now) names.old.table) names.old) }
    ensures small { IfOk result (λ _. AreSmall (map plain_layout names.old.program.structs.items) (map plain_decl decls.now)) }
{
    let structs = names.layouts();
    let mut code = Vec::with_capacity(alloc, decls.len())?;
    'decls: for d in decls {
        let register = pointer(names, d)?;
        code.push(birth(alloc, structs, register, d)?)?;
    }
    Ok(code)
}

/// The statements that enter the scope of these variables: the births of their blocks, in order, to which further registers point.
/// These are bound to the variables.
pub fn enter(
    alloc: Global,
    decls: &[Decl],
    names: &mut Registers<'_>,
) -> Result<Vec<MonStmt>, AllocError>
    ensures births { IfOk result (λ code. plain_stmts code.items ≡ births (map plain_layout names.old.program.structs.items)
        (next_register names.old.table) (map plain_decl decls.now)) }
    ensures names { OnOk result (names.new ≡ with_table (entered (map plain_decl decls.now) names.old.table) names.old) }
    ensures enters { IfOk result (λ code. Enters (map plain_layout names.old.program.structs.items) (next_register names.old.table)
        (map plain_decl decls.now) (plain_stmts code.items)) }
{
    births(alloc, decls, names)
}

// The death of the block to which a register points.
fn death(alloc: Global, block: u32) -> Result<MonStmt, AllocError>
    ensures { IfOk result (λ s. plain_stmt s ≡ death block) }
{
    let mut pointer = Vec::new(alloc);
    pointer.push(MonExpr::new(alloc, MonExprKind::Register(block))?)?;
    MonStmt::new(
        alloc,
        MonStmtKind::Act(None, MemoryCall::DeleteBlock, pointer),
    )
}

/// The statements that leave scopes, of one block, of a loop's body or of the whole function: the deaths of the blocks that live in
/// them, by the registers that point to them, in order of birth. The youngest dies first.
pub fn leave(alloc: Global, blocks: &[u32]) -> Result<Vec<MonStmt>, AllocError>
    ensures deaths { IfOk result (λ code. plain_stmts code.items ≡ deaths (reverse blocks.now)) }
    ensures leaves { IfOk result (λ code. Leaves blocks.now (plain_stmts code.items)) }
{
    let mut code = Vec::with_capacity(alloc, blocks.len())?;
    let mut left = blocks.len();
    'each: while 0 < left {
        left -= 1;
        code.push(death(alloc, blocks[left])?)?;
    }
    Ok(code)
}
