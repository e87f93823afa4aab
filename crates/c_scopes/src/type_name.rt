//! Names of types (C99 6.7.7). Each is found without a look at all of them.

ghost use Rattle.std.specs.Prelude.{◌≡◌, [], ◌∷◌, ◌++◌, cond, is_ok, map, option_map};
ghost use Rattle.c_syntax.specs.Ctypes.{plain_type};
ghost use Rattle.c_model.specs.ExpressionTyping.{type_named};
ghost use Rattle.c_scopes.specs.Firsts.{AreFirst};
ghost use Rattle.c_scopes.specs.TypeNames.{name_of_type, plain_type_name};

use crate::first::note;
use c_syntax::CType;
use indexmap::IndexMap;
use std::alloc::{AllocError, Global};

/// A name of a type.
#[derive(Drop)]
pub struct TypeName {
    pub name: u32,
    pub ctype: CType,
}

/// The names of types that are declared so far, in their order.
#[derive(Drop)]
pub struct TypeNames {
    pub list: Vec<TypeName>,
    /// The number of the first of each name.
    pub firsts: IndexMap<u32, usize>,
    ghost first: { AreFirst (map name_of_type list.items) firsts.entries },
}

impl TypeNames {
    /// None.
    pub fn new(alloc: Global) -> Self
        ensures { result.list.items ≡ [] }
    {
        TypeNames {
            list: Vec::new(alloc),
            firsts: IndexMap::new(alloc),
        }
    }

    /// The type of a name, where it is a type's.
    pub fn named(&self, name: u32) -> Option<&CType>
        ensures { option_map (λ t. plain_type t.now) result ≡ type_named name (map plain_type_name self.now.list.items) }
    {
        match self.firsts.get(&name) {
            Some(number) => Some(&self.list[*number].ctype),
            None => None,
        }
    }

    /// One more.
    pub fn push(&mut self, one: TypeName) -> Result<(), AllocError>
        ensures { self.new.list.items ≡ cond (is_ok result) (self.old.list.items ++ one ∷ []) self.old.list.items }
    {
        let name = one.name;
        let number = self.list.len();
        self.list.push(one)?;
        match note(&mut self.firsts, name, number) {
            Ok(()) => Ok(()),
            Err(e) => {
                self.list.truncate(number);
                Err(e)
            }
        }
    }
}
