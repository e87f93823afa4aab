//! The registers of a function in monitored C while it is made.

ghost use Rattle.std.specs.Prelude.{◌≡◌, ◌<◌, ◌∷◌, [], IfOk, IsOk, OnOk, length, map, nat_lt, slice_get};
ghost use Rattle.c_syntax.specs.Programs.{plain_func, plain_program};
ghost use Rattle.c_model.specs.StaticObjects.{static_objects};
ghost use Rattle.mon_syntax.specs.Indices.{index_of};
ghost use Rattle.mon_syntax.specs.ObjectIndices.{global_index, object_of_global, object_of_literal};
ghost use Rattle.mon_syntax.specs.Registers.{next_register, no_registers, register_of, with_binding, with_kinds, with_table};

use crate::definition::Definitions;
use crate::tree::MonType;
use c_syntax::{Decl, Layout, Name, Program, Text};
use indexmap::IndexMap;
use std::alloc::{AllocError, Global};
use std::marker::Model;

/// The number of a register or of a function. No memory holds more of them.
pub fn numbered(index: usize) -> Result<u32, AllocError>
    ensures number { IfOk result (λ r. r ≡ index) }
    ensures fits { index < 4294967295 → IsOk result }
{
    match u32::try_from(index) {
        Ok(number) => Ok(number),
        Err(_) => Err(AllocError),
    }
}

/// The types of a function's registers, in the order of their numbers, and the register that is bound to each declaration; with the
/// program whose function it is.
#[derive(Drop)]
pub struct Registers<'a> {
    definitions: Definitions<'a>,
    kinds: Vec<MonType>,
    bound: IndexMap<u32, u32>,
}

impl<'a> Model for Registers<'a> {
    ghost use Rattle.std.specs.Coded.{codes};
    ghost use Rattle.c_syntax.specs.contracts.program.Program as program;
    ghost use Rattle.mon_syntax.specs.Registers.{Names};

    ghost Value = { Names };

    ghost coded = { Prim.hlevel (codes, program.the_row.coded) };

    ghost view = { λ a. record { program = a.definitions.program.now; table = record { kinds = a.kinds.items; bound = a.bound.entries } } };
}

impl<'a> Registers<'a> {
    /// Before any register is made in a program.
    pub fn new(alloc: Global, program: &'a Program) -> Result<Self, AllocError>
        ensures { IfOk result (λ names. names ≡ record { program = program.now; table = no_registers }) }
    {
        let definitions = Definitions::new(alloc, program)?;
        Ok(Registers {
            definitions,
            kinds: Vec::new(alloc),
            bound: IndexMap::new(alloc),
        })
    }

    /// Forgets the registers of one function before another.
    pub fn forget(&mut self, alloc: Global)
        ensures { self.new ≡ with_table no_registers self.old }
    {
        self.kinds = Vec::new(alloc);
        self.bound = IndexMap::new(alloc);
    }

    /// The number of the next register.
    pub fn next(&self) -> Result<u32, AllocError>
        ensures number { IfOk result (λ r. r ≡ next_register self.now.table) }
        ensures fits { next_register self.now.table < 4294967295 → IsOk result }
    {
        numbered(self.kinds.len())
    }

    /// A further register of the type.
    pub fn fresh(&mut self, kind: MonType) -> Result<u32, AllocError>
        ensures number { IfOk result (λ r. r ≡ next_register self.old.table) }
        ensures names { OnOk result (self.new ≡ with_table (with_kinds (kind ∷ []) self.old.table) self.old) }
    {
        let number = self.next()?;
        self.kinds.push(kind)?;
        Ok(number)
    }

    /// The type of a register.
    pub fn kind_of(&self, register: u32) -> Option<MonType>
        ensures { result ≡ slice_get self.now.table.kinds register }
    {
        self.kinds.get(register as usize).copied()
    }

    /// The types of all registers, in order.
    pub fn kinds(&self) -> &[MonType]
        ensures { result.now ≡ self.now.table.kinds }
    {
        &self.kinds
    }

    /// Binds a register to a declaration, by the declaration's number.
    pub fn bind(&mut self, decl: u32, register: u32) -> Result<(), AllocError>
        requires { register < next_register self.old.table }
        ensures { OnOk result (self.new ≡ with_table (with_binding decl register self.old.table) self.old) }
    {
        self.bound.insert(decl, register)?;
        Ok(())
    }

    /// The register that is bound to a declaration.
    pub fn register_of(&self, decl: u32) -> Option<u32>
        ensures { result ≡ register_of self.now.table.bound decl }
    {
        self.bound.get(&decl).copied()
    }

    /// The index of a definition among those of the program, by its number.
    pub fn index_of(&self, number: u32) -> usize
        ensures { result ≡ index_of number (map plain_func self.now.program.funcs.items) }
    {
        self.definitions.index_of(number)
    }

    /// The index of the global with this number, among globals and literals in the order of the text.
    pub fn object_of_global(&self, number: u32) -> u32
        ensures { result ≡ object_of_global number (static_objects (plain_program self.now.program)) }
    {
        self.definitions.object_of_global(number)
    }

    /// Whether a global has this number.
    pub fn is_global(&self, number: u32) -> bool
        ensures { result ≡ nat_lt (global_index number (plain_program self.now.program).globals) (length (plain_program self.now.program).globals) }
    {
        self.definitions.is_global(number)
    }

    /// The index of a literal.
    pub fn object_of_literal(&self, n: u32) -> u32
        ensures { result ≡ object_of_literal n (static_objects (plain_program self.now.program)) }
    {
        self.definitions.object_of_literal(n)
    }

    /// The names of the program's text.
    pub fn names(&self) -> &'a [Name]
        ensures { result.now ≡ self.now.program.names.items }
    {
        &self.definitions.program.names
    }

    /// Its structs.
    pub fn layouts(&self) -> &'a [Layout]
        ensures { result.now ≡ self.now.program.structs.items }
    {
        &self.definitions.program.structs
    }

    /// Its globals.
    pub fn globals(&self) -> &'a [Decl]
        ensures { result.now ≡ self.now.program.globals.items }
    {
        &self.definitions.program.globals
    }

    /// Its string literals.
    pub fn texts(&self) -> &'a [Text]
        ensures { result.now ≡ self.now.program.texts.items }
    {
        &self.definitions.program.texts
    }
}
