//! Tags of enums and structs (C99 6.7.2.3). Each is found without a look at all of them.

ghost use Rattle.std.specs.Prelude.{◌≡◌, [], ◌∷◌, ◌++◌, cond, is_ok};
ghost use Rattle.c_model.specs.ExpressionTyping.{is_among};
ghost use Rattle.c_scopes.specs.Tags.{HasTags};

use indexmap::IndexSet;
use std::alloc::{AllocError, Global};

/// Tags in their order.
#[derive(Drop)]
pub struct Tags {
    pub list: Vec<u32>,
    /// Each of them once.
    pub set: IndexSet<u32>,
    ghost same: { HasTags set list.items },
}

impl Tags {
    /// None.
    pub fn new(alloc: Global) -> Self
        ensures { result.list.items ≡ [] }
    {
        Tags {
            list: Vec::new(alloc),
            set: IndexSet::new(alloc),
        }
    }

    /// Whether a tag is among them.
    pub fn has(&self, tag: u32) -> bool
        ensures { result ≡ is_among tag self.now.list.items }
    {
        self.set.contains(&tag)
    }

    /// One more.
    pub fn push(&mut self, tag: u32) -> Result<(), AllocError>
        ensures { self.new.list.items ≡ cond (is_ok result) (self.old.list.items ++ tag ∷ []) self.old.list.items }
    {
        let count = self.list.len();
        self.list.push(tag)?;
        match self.set.insert(tag) {
            Ok(_) => Ok(()),
            Err(e) => {
                self.list.truncate(count);
                Err(e.into())
            }
        }
    }
}
