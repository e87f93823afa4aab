//! The functions of a text, as far as they are read, with which names have a contract by now (ACSL 2.3).

ghost use Rattle.std.specs.Prelude.{◌≡◌, ◌<◌, ◌++◌, [], ◌∷◌, ℕ, length, map, IfErr, OnOk};
ghost use Rattle.c_syntax.specs.declared.fault.ReadFault.TheVariants.{Memory};
ghost use Rattle.c_syntax.specs.Programs.{plain_func};
ghost use Rattle.c_model.specs.ProgramGrammar.{has_contract};
ghost use Rattle.c_parser.specs.Contracted.{flag_of, MarksContracts};

use c_syntax::Func;
use c_syntax::fault::ReadFault;
use std::alloc::{AllocError, Global};

/// Functions in the order of the text, and for each number of a name whether a function of this name has a contract; a name without an
/// entry has none.
#[derive(Drop)]
pub struct Functions {
    pub all: Vec<Func>,
    contracted: Vec<bool>,
    ghost marks: { MarksContracts contracted.items (map plain_func all.items) },
}

/// Flags up to that of this number; those that are new say no.
fn grow(flags: &mut Vec<bool>, number: usize) -> Result<(), AllocError>
    ensures same { (x : ℕ) → flag_of flags.new.items x ≡ flag_of flags.old.items x }
    ensures long { OnOk result (number < length flags.new.items) }
{
    'turn: while flags.len() <= number {
        flags.push(false)?;
    }
    Ok(())
}

impl Functions {
    pub fn new(alloc: Global) -> Functions
        ensures { result.all.items ≡ [] }
    {
        Functions {
            all: Vec::new(alloc),
            contracted: Vec::new(alloc),
        }
    }

    /// Whether a function of this name has a contract.
    pub fn have_contract(&self, name: u32) -> bool
        ensures { result ≡ has_contract name (map plain_func self.now.all.items) }
    {
        match self.contracted.get(name as usize) {
            Some(flag) => *flag,
            None => false,
        }
    }

    /// One more.
    pub fn push(&mut self, f: Func) -> Result<(), ReadFault>
        ensures pushed { OnOk result (map plain_func self.new.all.items ≡ map plain_func self.old.all.items ++ plain_func f ∷ []) }
        ensures memory { IfErr result (λ e. e ≡ Memory) }
    {
        let number = f.name as usize;
        let contracted = f.contract.is_some();
        grow(&mut self.contracted, number)?;
        self.all.push(f)?;
        if contracted {
            self.contracted[number] = true;
        }
        Ok(())
    }
}
