//! Code that grows at its front, so that a jump to what comes after knows its length when it is written.

ghost use Rattle.std.specs.Prelude.{◌≡◌, ◌<◌, List, [], ◌∷◌, ◌++◌, length, reverse, OnOk};
ghost use Rattle.c_lower.specs.declared.code.Instr.{Instr};

use crate::code::Instr;
use std::alloc::{AllocError, Global};
use std::marker::Model;

/// Instructions, of which the one written last comes first.
#[derive(Drop)]
pub struct Backward {
    items: Vec<Instr>,
}

impl Model for Backward {
    ghost Value = { List Instr };

    ghost view = { λ b. reverse b.items.items };
}

impl Backward {
    pub fn new(alloc: Global) -> Backward
        ensures { result ≡ [] }
    {
        Backward {
            items: Vec::new(alloc),
        }
    }

    pub fn len(&self) -> usize
        ensures { result ≡ length self.now }
    {
        self.items.len()
    }

    /// Writes an instruction before the others.
    pub fn put(&mut self, instr: Instr) -> Result<(), AllocError>
        ensures { OnOk result (self.new ≡ instr ∷ self.old) }
    {
        self.items.push(instr)?;
        Ok(())
    }

    /// Writes over the instruction after which so many come.
    pub fn patch(&mut self, behind: usize, instr: Instr)
        requires { behind < length self.old }
        ensures { (front back : List Instr) (x : Instr) → self.old ≡ front ++ x ∷ back → behind ≡ length back → self.new ≡ front ++ instr ∷ back }
    {
        self.items[behind] = instr;
    }

    pub fn into_code(self) -> Vec<Instr>
        ensures { result.items ≡ self }
    {
        let mut items = self.items;
        items.reverse();
        items
    }
}
