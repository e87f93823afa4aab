//! Labels of C (C99 6.8.1) that are known where an annotation stands, each with what is in sight where it stands itself. Each is found by its
//! name without a look at all of them.

ghost use Rattle.std.specs.Prelude.{◌≡◌, [], ◌∷◌, ◌++◌, ◌-◌, cond, is_ok, length, take};
ghost use Rattle.c_scopes.specs.Labels.{AreHidden, AreNewest, mark_named, plain_marks};

use crate::sight::Mark;
use indexmap::IndexMap;
use std::alloc::{AllocError, Global};

/// A label, with the mark of what is in sight where it stands, and that of the newest before it that has its name.
#[derive(Clone, Copy, Drop)]
pub struct KnownLabel {
    pub name: u32,
    pub mark: Mark,
    pub hidden: Option<Mark>,
}

/// Labels, the newest last.
#[derive(Drop)]
pub struct Labels {
    pub known: Vec<KnownLabel>,
    /// The mark of the newest of each name.
    pub newest: IndexMap<u32, Mark>,
    ghost hidden: { AreHidden known.items },
    ghost found: { AreNewest (plain_marks known.items) newest.entries },
}

impl Labels {
    /// None.
    pub fn new(alloc: Global) -> Self
        ensures { plain_marks result.known.items ≡ [] }
    {
        Labels {
            known: Vec::new(alloc),
            newest: IndexMap::new(alloc),
        }
    }

    /// How many there are.
    pub fn len(&self) -> usize
        ensures { result ≡ length (plain_marks self.now.known.items) }
    {
        self.known.len()
    }

    /// The mark of the newest of a name.
    pub fn named(&self, name: u32) -> Option<Mark>
        ensures { result ≡ mark_named name (plain_marks self.now.known.items) }
    {
        self.newest.get(&name).copied()
    }

    /// One more.
    pub fn push(&mut self, name: u32, mark: Mark) -> Result<(), AllocError>
        ensures { plain_marks self.new.known.items
            ≡ cond (is_ok result) (plain_marks self.old.known.items ++ (name, mark) ∷ []) (plain_marks self.old.known.items) }
    {
        let count = self.known.len();
        let hidden = self.newest.get(&name).copied();
        self.known.push(KnownLabel { name, mark, hidden })?;
        match self.newest.insert(name, mark) {
            Ok(_) => Ok(()),
            Err(e) => {
                self.known.truncate(count);
                Err(e.into())
            }
        }
    }

    /// Takes the newest away, so that what it hides is found again.
    fn pop(&mut self)
        ensures { plain_marks self.new.known.items ≡ take (length (plain_marks self.old.known.items) - 1) (plain_marks self.old.known.items) }
    {
        if let Some(last) = self.known.pop() {
            let name = last.name;
            let hidden = last.hidden;
            match hidden {
                Some(mark) => match self.newest.insert(name, mark) {
                    Ok(_) => (),
                    Err(_) => (),
                },
                None => {
                    self.newest.swap_remove(&name);
                }
            }
        }
    }

    /// Keeps the first so many.
    pub fn truncate(&mut self, count: usize)
        ensures { plain_marks self.new.known.items ≡ take count (plain_marks self.old.known.items) }
    {
        while self.known.len() > count {
            self.pop();
        }
    }
}
