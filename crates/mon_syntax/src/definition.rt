//! What a program declares, by its numbers.

ghost use Rattle.std.specs.Prelude.{◌≡◌, [], ℕ, IfOk, OnOk, length, map, nat_eq, nat_lt, slice_get};
ghost use Rattle.indexmap.specs.IndexMap.{get};
ghost use Rattle.c_syntax.specs.Programs.{plain_func, plain_program};
ghost use Rattle.c_model.specs.StaticObjects.{static_objects};
ghost use Rattle.mon_syntax.specs.Indices.{index_of};
ghost use Rattle.mon_syntax.specs.Indices.{AreIndices, with_index};
ghost use Rattle.mon_syntax.specs.ObjectIndices.{TellGlobals, TellLiterals, TellWhich, global_index, object_of_global, object_of_literal};

use crate::object_indices::{ObjectIndices, indices_of};
use c_syntax::Program;
use indexmap::IndexMap;
use std::alloc::{AllocError, Global};

/// A program, with the index of each definition among them, and of each global and literal.
#[derive(Drop)]
pub struct Definitions<'a> {
    pub program: &'a Program,
    pub indices: IndexMap<u32, usize>,
    /// How many definitions there are.
    pub count: usize,
    pub objects: ObjectIndices,
    ghost indexed: { AreIndices (get nat_eq indices) count (map plain_func program.now.funcs.items) },
    ghost globals: { TellGlobals (get nat_eq objects.globals) objects.count [] (static_objects (plain_program program.now)) },
    ghost which: { TellWhich (get nat_eq objects.globals) [] (static_objects (plain_program program.now)) },
    ghost literals: { TellLiterals objects.literals.items objects.count [] (static_objects (plain_program program.now)) },
}

impl<'a> Definitions<'a> {
    /// The definitions of a program.
    pub fn new(alloc: Global, program: &'a Program) -> Result<Self, AllocError>
        ensures { IfOk result (λ definitions. definitions.program.now ≡ program.now) }
    {
        let objects = indices_of(alloc, program)?;
        let mut indices = IndexMap::new(alloc);
        let mut count = 0;
        'funcs: for f in &program.funcs {
            if f.body.is_some() {
                note(&mut indices, f.place.offset, count)?;
                count += 1;
            }
        }
        Ok(Definitions {
            program,
            indices,
            count,
            objects,
        })
    }

    /// The index, among the definitions, of the one with this number.
    pub fn index_of(&self, number: u32) -> usize
        ensures { result ≡ index_of number (map plain_func self.now.program.now.funcs.items) }
    {
        match self.indices.get(&number) {
            Some(index) => *index,
            None => self.count,
        }
    }

    /// The index of the global with this number, among globals and literals in the order of the text.
    pub fn object_of_global(&self, number: u32) -> u32
        ensures { result ≡ object_of_global number (static_objects (plain_program self.now.program.now)) }
    {
        match self.objects.globals.get(&number) {
            Some(index) => *index,
            None => self.objects.count,
        }
    }

    /// Whether a global has this number.
    pub fn is_global(&self, number: u32) -> bool
        ensures { result ≡ nat_lt (global_index number (plain_program self.now.program.now).globals) (length (plain_program self.now.program.now).globals) }
    {
        self.objects.globals.contains_key(&number)
    }

    /// The index of a literal.
    pub fn object_of_literal(&self, n: u32) -> u32
        ensures { result ≡ object_of_literal n (static_objects (plain_program self.now.program.now)) }
    {
        match self.literal(n) {
            Some(index) => index,
            None => self.objects.count,
        }
    }

    fn literal(&self, n: u32) -> Option<u32>
        ensures { result ≡ slice_get self.now.objects.literals.items n }
    {
        self.objects.literals.get(n as usize).copied()
    }
}

// The index of a definition, where none of its number was noted before.
fn note(indices: &mut IndexMap<u32, usize>, number: u32, index: usize) -> Result<(), AllocError>
    ensures { OnOk result ((n : ℕ) → get nat_eq indices.new n ≡ with_index (get nat_eq indices.old) number index n) }
{
    if !indices.contains_key(&number) {
        indices.insert(number, index)?;
    }
    Ok(())
}
