//! The objects and enumerators in sight (C99 6.2.1). Where an annotation looks back at an earlier point of its function, those that were
//! declared since are out of sight for a while.

ghost use Rattle.std.specs.Prelude.{◌≡◌, [], ◌∷◌, ◌++◌, cond, drop, is_ok, length, option_map, take};
ghost use Rattle.c_model.specs.ExpressionTyping.{entity_named};
ghost use Rattle.c_scopes.specs.Entities.{plain_entities};
ghost use Rattle.c_scopes.specs.Entity.{plain_entity, plain_object};
ghost use Rattle.c_scopes.specs.Objects.{object_with};

use crate::declarations::Declarations;
use crate::entity::{Entity, Object};
use std::alloc::{AllocError, Global};

/// The objects and enumerators in sight, the newest last.
#[derive(Drop)]
pub struct Entities {
    pub all: Declarations,
    /// How many of them are in sight.
    pub seen: usize,
}

impl Entities {
    /// None.
    pub fn new(alloc: Global) -> Self
        ensures { plain_entities result ≡ [] }
    {
        Entities {
            all: Declarations::new(alloc),
            seen: 0,
        }
    }

    /// How many there are.
    pub fn len(&self) -> usize
        ensures { result ≡ length (plain_entities self.now) }
    {
        self.seen.min(self.all.len())
    }

    /// The newest of a name.
    pub fn named(&self, name: u32) -> Option<&Entity>
        ensures { option_map (λ e. plain_entity e.now) result ≡ entity_named name (plain_entities self.now) }
    {
        self.all.named_before(self.seen, name)
    }

    /// The newest of a name among those from a number on.
    pub fn named_from(&self, from: usize, name: u32) -> Option<&Entity>
        ensures { option_map (λ e. plain_entity e.now) result ≡ entity_named name (drop from (plain_entities self.now)) }
    {
        self.all.named_between(from, self.seen, name)
    }

    /// The first object with the number of a declaration.
    pub fn object_with(&self, decl: u32) -> Option<&Object>
        ensures { option_map (λ b. plain_object b.now) result ≡ object_with decl (plain_entities self.now) }
    {
        self.all.object_before(self.seen, decl)
    }

    /// One more, in the place of those that are out of sight.
    pub fn push(&mut self, entity: Entity) -> Result<(), AllocError>
        ensures { plain_entities self.new ≡ cond (is_ok result) (plain_entities self.old ++ plain_entity entity ∷ []) (plain_entities self.old) }
    {
        self.all.truncate(self.seen);
        self.all.push(entity)?;
        self.seen = self.all.len();
        Ok(())
    }

    /// Keeps the first so many.
    pub fn truncate(&mut self, count: usize)
        ensures { plain_entities self.new ≡ take count (plain_entities self.old) }
    {
        self.all.truncate(count);
    }
}
