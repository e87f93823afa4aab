//! The flags of a contract's behaviors (ACSL 2.3.3): each says whether its behavior holds, and they stand in registers one after the other.

ghost use Rattle.std.specs.Prelude.{◌≡◌, ◌+◌, ◌∷◌, [], ℕ, IfOk, OnOk, map, nat_eq};
ghost use Rattle.indexmap.specs.IndexMap.{get};
ghost use Rattle.c_syntax.specs.declared.place.Place.{Place};
ghost use Rattle.c_syntax.specs.Programs.{plain_behavior};
ghost use Rattle.mon_syntax.specs.Trees.{plain_stmts};
ghost use Rattle.c_effects.specs.Expressions.{before};
ghost use Rattle.annot_simulation.specs.ContractCode.{all_flagged, count, flag_named, flags_from, summed, where_flagged};
ghost use Rattle.annot_pieces.specs.Tables.{AreIndices};

use annot_pieces::piece::next;
use behavior_split::indices_by_name;
use c_effects::operator::{constant, operation, register};
use c_effects::part::then;
use c_syntax::{Behavior, Place};
use indexmap::IndexMap;
use mon_syntax::{MonOp, MonStmt, MonStmtKind, MonType, numbered};
use std::alloc::{AllocError, Global};

/// The behaviors of a contract, with flags in the registers from one on.
#[derive(Drop)]
pub struct Flags<'a> {
    pub behaviors: &'a [Behavior],
    /// The index of the first behavior of each name.
    pub indices: IndexMap<u32, u32>,
    /// The flag of the first behavior.
    pub first: u32,
    ghost found: { AreIndices (get nat_eq indices) (map plain_behavior behaviors.now) },
}

/// The flag of the behavior with an index. No memory holds more registers than 32 bits count.
pub fn flag_at(first: u32, index: u32) -> Result<u32, AllocError>
    ensures { IfOk result (λ r. r ≡ first + index) }
{
    first.checked_add(index).ok_or(AllocError)
}

impl<'a> Flags<'a> {
    /// Flags from this register on.
    pub fn new(alloc: Global, behaviors: &'a [Behavior], first: u32) -> Result<Self, AllocError>
        ensures behaviors { IfOk result (λ flags. flags.behaviors.now ≡ behaviors.now) }
        ensures first { IfOk result (λ flags. flags.first ≡ first) }
    {
        let indices = indices_by_name(alloc, behaviors)?;
        Ok(Flags {
            behaviors,
            indices,
            first,
        })
    }

    // The index of the first behavior of a name, or else their number.
    fn index_of(&self, name: u32) -> Result<u32, AllocError>
        ensures { IfOk result (λ i. self.now.first + i ≡ flag_named name self.now.first (map plain_behavior self.now.behaviors.now)) }
    {
        match self.indices.get(&name) {
            Some(index) => Ok(*index),
            None => numbered(self.behaviors.len()),
        }
    }

    // The flag of the first behavior of a name.
    fn named(&self, name: u32) -> Result<u32, AllocError>
        ensures { IfOk result (λ r. r ≡ flag_named name self.now.first (map plain_behavior self.now.behaviors.now)) }
    {
        let index = self.index_of(name)?;
        flag_at(self.first, index)
    }

    /// The flags of all behaviors.
    pub fn all(&self, alloc: Global) -> Result<Vec<u32>, AllocError>
        ensures { IfOk result (λ v. v.items ≡ flags_from self.now.first (map plain_behavior self.now.behaviors.now)) }
    {
        let mut flags = Vec::new(alloc);
        let mut flag = self.first;
        'turn: for _ in self.behaviors {
            flags.push(flag)?;
            flag = next(flag)?;
        }
        Ok(flags)
    }

    /// Those of the behaviors that have these names.
    pub fn each(&self, alloc: Global, names: &[(Place, u32)]) -> Result<Vec<u32>, AllocError>
        ensures { IfOk result (λ v. v.items
            ≡ map (λ (n : Place × ℕ). flag_named n.1 self.now.first (map plain_behavior self.now.behaviors.now)) names.now) }
    {
        let mut flags = Vec::with_capacity(alloc, names.len())?;
        'turn: for name in names {
            flags.push(self.named(name.1)?)?;
        }
        Ok(flags)
    }
}

// ---- their code

/// No behavior was denied yet.
pub fn raise_all(
    alloc: Global,
    first: u32,
    behaviors: &[Behavior],
    to: &mut Vec<MonStmt>,
) -> Result<(), AllocError>
    ensures { OnOk result (plain_stmts to.new.items ≡ before (plain_stmts to.old.items) (all_flagged first (map plain_behavior behaviors.now))) }
{
    let mut flag = first;
    'turn: for _ in behaviors {
        let one = constant(alloc, MonType::I32, 1)?;
        then(alloc, to, MonStmtKind::Set(flag, one))?;
        flag = next(flag)?;
    }
    Ok(())
}

/// Statements that run where a flag is 1.
#[tactic(auto, using(mon_syntax::proofs::Rows::if_is))]
pub fn where_flagged(
    alloc: Global,
    flag: u32,
    code: Vec<MonStmt>,
    to: &mut Vec<MonStmt>,
) -> Result<(), AllocError>
    ensures { OnOk result (plain_stmts to.new.items ≡ before (plain_stmts to.old.items) (where_flagged flag (plain_stmts code.items))) }
{
    let test = register(alloc, flag)?;
    then(alloc, to, MonStmtKind::If(test, code, Vec::new(alloc)))
}

// A flag is added to a register.
fn add_flag(alloc: Global, sum: u32, flag: u32, to: &mut Vec<MonStmt>) -> Result<(), AllocError>
    ensures { OnOk result (plain_stmts to.new.items ≡ before (plain_stmts to.old.items) (summed sum (flag ∷ []))) }
{
    let old = register(alloc, sum)?;
    let one = register(alloc, flag)?;
    let more = operation(alloc, MonOp::Add, MonType::I32, old, one)?;
    then(alloc, to, MonStmtKind::Set(sum, more))
}

// Flags are added to a register.
fn summed(alloc: Global, sum: u32, flags: &[u32], to: &mut Vec<MonStmt>) -> Result<(), AllocError>
    ensures { OnOk result (plain_stmts to.new.items ≡ before (plain_stmts to.old.items) (summed sum flags.now)) }
{
    'turn: for flag in flags {
        add_flag(alloc, sum, *flag, to)?;
    }
    Ok(())
}

/// A register becomes the number of flags that are 1.
#[tactic(auto, using(c_effects::proofs::Sequences::before_assoc))]
pub fn count(
    alloc: Global,
    sum: u32,
    flags: &[u32],
    to: &mut Vec<MonStmt>,
) -> Result<(), AllocError>
    ensures { OnOk result (plain_stmts to.new.items ≡ before (plain_stmts to.old.items) (count sum flags.now)) }
{
    let zero = constant(alloc, MonType::I32, 0)?;
    then(alloc, to, MonStmtKind::Set(sum, zero))?;
    summed(alloc, sum, flags, to)
}
