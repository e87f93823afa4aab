//! The terms that a function keeps, and all that stands in registers where annotations are asked.

ghost use Rattle.std.specs.Prelude.{◌≡◌, ℕ, IfOk, OnOk, nat_eq};
ghost use Rattle.indexmap.specs.IndexMap.{get};
ghost use Rattle.c_syntax.specs.Logic.{plain_term};
ghost use Rattle.c_model.specs.PredicateTyping.{place_of_term};
ghost use Rattle.annot_simulation.specs.Held.{kept_at};
ghost use Rattle.annot_pieces.specs.Tables.{AreRegisters, plain_plan, register_in, with_register};

use crate::kept::{Held, Kept};
use c_syntax::logic::Term;
use indexmap::IndexMap;
use std::alloc::{AllocError, Global};

/// The terms that a function keeps, each found by where it begins in the text.
#[derive(Drop)]
pub struct Plan<'a> {
    pub kept: &'a [Kept<'a>],
    /// The register of the first term with each offset.
    pub registers: IndexMap<u32, u32>,
    ghost found: { AreRegisters (get nat_eq registers) (plain_plan kept.now) },
}

/// What stands in registers where annotations are asked.
#[derive(Clone, Copy)]
pub struct Stored<'a> {
    pub plan: &'a Plan<'a>,
    /// The names, the innermost first.
    pub held: &'a [Held],
}

// Keeps the register of a term, where none before it has its offset.
fn note(registers: &mut IndexMap<u32, u32>, offset: u32, register: u32) -> Result<(), AllocError>
    ensures { OnOk result ((x : ℕ) → get nat_eq registers.new x ≡ with_register (get nat_eq registers.old) offset register x) }
{
    if !registers.contains_key(&offset) {
        registers.insert(offset, register)?;
    }
    Ok(())
}

impl<'a> Plan<'a> {
    /// A plan of these terms.
    pub fn new(alloc: Global, kept: &'a [Kept<'a>]) -> Result<Self, AllocError>
        ensures { IfOk result (λ plan. plain_plan plan.kept.now ≡ plain_plan kept.now) }
    {
        let mut registers = IndexMap::new(alloc);
        'turn: for entry in kept {
            note(&mut registers, entry.term.place.offset, entry.register)?;
        }
        Ok(Plan { kept, registers })
    }

    /// The register of a term that is kept.
    pub fn register_of(&self, t: &Term) -> Option<u32>
        ensures { result ≡ register_in (kept_at (place_of_term (plain_term t.now)).offset (plain_plan self.now.kept.now)) }
    {
        self.registers.get(&t.place.offset).copied()
    }
}
