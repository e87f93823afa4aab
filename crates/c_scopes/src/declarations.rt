//! The objects and enumerators of all scopes around (C99 6.2.1), of which the first so many may be in sight. Each is found by its name, and an
//! object by the number of its declaration, without a look at all of them.

ghost use Rattle.std.specs.Prelude.{◌≡◌, [], ◌∷◌, ◌++◌, ◌-◌, cond, drop, is_ok, length, option_map, take};
ghost use Rattle.c_model.specs.ExpressionTyping.{entity_named};
ghost use Rattle.c_scopes.specs.Entity.{plain_entity, plain_object};
ghost use Rattle.c_scopes.specs.Newest.{AreHidden, AreNewest, entities_of, newest_number};
ghost use Rattle.c_scopes.specs.Objects.{AreFirstObjects, object_with};

use crate::entity::{Entity, Object, decl_of, name_of, object_in};
use crate::object::{forget_object, note_object};
use indexmap::IndexMap;
use std::alloc::{AllocError, Global};

/// An object or an enumerator, and the number of the newest before it that has its name.
#[derive(Drop)]
pub struct Declared {
    pub entity: Entity,
    pub hidden: Option<usize>,
}

/// Objects and enumerators, the newest last.
#[derive(Drop)]
pub struct Declarations {
    pub declared: Vec<Declared>,
    /// The number of the newest of each name.
    pub newest: IndexMap<u32, usize>,
    /// The number of the first object with each declaration.
    pub firsts: IndexMap<u32, usize>,
    ghost hidden: { AreHidden declared.items },
    ghost found: { AreNewest (entities_of declared.items) newest.entries },
    ghost first: { AreFirstObjects (entities_of declared.items) firsts.entries },
}

impl Declarations {
    /// None.
    pub fn new(alloc: Global) -> Self
        ensures { result.declared.items ≡ [] }
    {
        Declarations {
            declared: Vec::new(alloc),
            newest: IndexMap::new(alloc),
            firsts: IndexMap::new(alloc),
        }
    }

    /// How many there are.
    pub fn len(&self) -> usize
        ensures { result ≡ length (entities_of self.now.declared.items) }
    {
        self.declared.len()
    }

    /// The number of the newest of a name among the first so many. It goes back through those that hide one another.
    fn newest_before(&self, count: usize, name: u32) -> Option<usize>
        ensures { result ≡ newest_number name (take count (entities_of self.now.declared.items)) }
    {
        let mut newest = self.newest.get(&name).copied();
        'back: while let Some(number) = newest {
            if number < count {
                return newest;
            }
            newest = self.declared[number].hidden;
        }
        None
    }

    /// The newest of a name among the first so many.
    pub fn named_before(&self, count: usize, name: u32) -> Option<&Entity>
        ensures { option_map (λ e. plain_entity e.now) result ≡ entity_named name (take count (entities_of self.now.declared.items)) }
    {
        match self.newest_before(count, name) {
            Some(number) => Some(&self.declared[number].entity),
            None => None,
        }
    }

    /// The newest of a name among those from a number on, of the first so many.
    pub fn named_between(&self, from: usize, count: usize, name: u32) -> Option<&Entity>
        ensures { option_map (λ e. plain_entity e.now) result ≡ entity_named name (drop from (take count (entities_of self.now.declared.items))) }
    {
        match self.newest_before(count, name) {
            Some(number) => {
                if from <= number {
                    Some(&self.declared[number].entity)
                } else {
                    None
                }
            }
            None => None,
        }
    }

    /// The first object with the number of a declaration, among the first so many.
    pub fn object_before(&self, count: usize, decl: u32) -> Option<&Object>
        ensures { option_map (λ b. plain_object b.now) result ≡ object_with decl (take count (entities_of self.now.declared.items)) }
    {
        match self.firsts.get(&decl) {
            Some(number) => {
                if *number < count {
                    object_in(&self.declared[*number].entity)
                } else {
                    None
                }
            }
            None => None,
        }
    }

    /// One more.
    pub fn push(&mut self, entity: Entity) -> Result<(), AllocError>
        ensures { entities_of self.new.declared.items
            ≡ cond (is_ok result) (entities_of self.old.declared.items ++ plain_entity entity ∷ []) (entities_of self.old.declared.items) }
    {
        let name = name_of(&entity);
        let decl = decl_of(&entity);
        let number = self.declared.len();
        let hidden = self.newest.get(&name).copied();
        self.declared.push(Declared { entity, hidden })?;
        match note_object(&mut self.firsts, decl, number) {
            Ok(()) => match self.newest.insert(name, number) {
                Ok(_) => Ok(()),
                Err(e) => {
                    forget_object(&mut self.firsts, decl, number);
                    self.declared.truncate(number);
                    Err(e.into())
                }
            },
            Err(e) => {
                self.declared.truncate(number);
                Err(e)
            }
        }
    }

    /// Takes the newest away, so that what it hides is found again.
    fn pop(&mut self)
        ensures { entities_of self.new.declared.items ≡ take (length (entities_of self.old.declared.items) - 1) (entities_of self.old.declared.items) }
    {
        if let Some(last) = self.declared.pop() {
            let name = name_of(&last.entity);
            let decl = decl_of(&last.entity);
            let hidden = last.hidden;
            drop(last);
            forget_object(&mut self.firsts, decl, self.declared.len());
            match hidden {
                Some(number) => match self.newest.insert(name, number) {
                    Ok(_) => (),
                    Err(_) => (),
                },
                None => {
                    self.newest.swap_remove(&name);
                }
            }
        }
    }

    /// Keeps the first so many.
    pub fn truncate(&mut self, count: usize)
        ensures { entities_of self.new.declared.items ≡ take count (entities_of self.old.declared.items) }
    {
        while self.declared.len() > count {
            self.pop();
        }
    }
}
