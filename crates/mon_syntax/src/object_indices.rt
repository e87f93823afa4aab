//! The indices of globals and string literals by their numbers, each found without a look at all objects before it.

ghost use Rattle.std.specs.Prelude.{◌≡◌, ◌+◌, [], ℕ, IfOk, OnOk, nat_eq};
ghost use Rattle.indexmap.specs.IndexMap.{get};
ghost use Rattle.c_syntax.specs.Programs.{plain_program};
ghost use Rattle.c_model.specs.ObjectsLeft.{plain_object};
ghost use Rattle.c_model.specs.StaticObjects.{static_objects};
ghost use Rattle.mon_syntax.specs.Indices.{with_index};
ghost use Rattle.mon_syntax.specs.ObjectIndices.{TellGlobals, TellLiterals, TellWhich, with_literal, with_object};

use c_model::objects::{Object, Objects, next};
use c_syntax::Program;
use indexmap::IndexMap;
use std::alloc::{AllocError, Global};

/// The indices of objects in the order of the text.
#[derive(Drop)]
pub struct ObjectIndices {
    /// That of the first global of each number.
    pub globals: IndexMap<u32, u32>,
    pub literals: Vec<u32>,
    /// How many objects there are.
    pub count: u32,
}

// The index of a global, where none of its number was noted before.
fn note_global(globals: &mut IndexMap<u32, u32>, number: u32, index: u32) -> Result<(), AllocError>
    ensures { OnOk result ((n : ℕ) → get nat_eq globals.new n ≡ with_index (get nat_eq globals.old) number index n) }
{
    if !globals.contains_key(&number) {
        globals.insert(number, index)?;
    }
    Ok(())
}

// No memory holds more than 32 bits count.
fn one_more(index: u32) -> Result<u32, AllocError>
    ensures { IfOk result (λ more. more ≡ index + 1) }
{
    index.checked_add(1).ok_or(AllocError)
}

// The index of one more object, behind all that were noted.
fn note_object(indices: &mut ObjectIndices, object: Object<'_>) -> Result<(), AllocError>
    ensures globals { OnOk result ((n : ℕ) → get nat_eq indices.new.globals n
        ≡ with_object (get nat_eq indices.old.globals) (plain_object object.entry) indices.old.count n) }
    ensures literals { OnOk result (indices.new.literals.items ≡ with_literal indices.old.literals.items (plain_object object.entry) indices.old.count) }
    ensures count { OnOk result (indices.new.count ≡ indices.old.count + 1) }
{
    let index = indices.count;
    indices.count = one_more(index)?;
    match object {
        Object::Global(d) => note_global(&mut indices.globals, d.place.offset, index),
        Object::Literal(_) => {
            indices.literals.push(index)?;
            Ok(())
        }
    }
}

/// The indices of a program's globals and literals.
pub fn indices_of(alloc: Global, program: &Program) -> Result<ObjectIndices, AllocError>
    ensures globals { IfOk result (λ indices. TellGlobals (get nat_eq indices.globals) indices.count [] (static_objects (plain_program program.now))) }
    ensures which { IfOk result (λ indices. TellWhich (get nat_eq indices.globals) [] (static_objects (plain_program program.now))) }
    ensures literals { IfOk result (λ indices. TellLiterals indices.literals.items indices.count [] (static_objects (plain_program program.now))) }
{
    let mut indices = ObjectIndices {
        globals: IndexMap::new(alloc),
        literals: Vec::new(alloc),
        count: 0,
    };
    let mut left = Objects {
        globals: &program.globals,
        literals: &program.texts,
    };
    'turn: while let Some((object, rest)) = next(left) {
        note_object(&mut indices, object)?;
        left = rest;
    }
    Ok(indices)
}
