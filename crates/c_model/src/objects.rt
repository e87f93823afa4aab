//! Globals and string literals in the order of the text.

ghost use Rattle.std.specs.Prelude.{◌≡◌};
ghost use Rattle.c_model.specs.ObjectsLeft.{first_and_rest, objects_left};

use c_syntax::{Decl, Text};

/// A global or a string literal.
#[derive(Clone, Copy)]
pub enum Object<'a> {
    Global(&'a Decl),
    Literal(&'a Text),
}

/// The globals and the literals that are left, each of them in the order of the text.
#[derive(Clone, Copy)]
pub struct Objects<'a> {
    pub globals: &'a [Decl],
    pub literals: &'a [Text],
}

/// The first of them in the order of the text, and the others.
pub fn next<'a>(left: Objects<'a>) -> Option<(Object<'a>, Objects<'a>)>
    ensures { first_and_rest result ≡ objects_left left.entry }
{
    match (left.globals, left.literals) {
        ([], []) => None,
        ([], [l, literals @ ..]) => Some((
            Object::Literal(l),
            Objects {
                globals: left.globals,
                literals,
            },
        )),
        ([d, globals @ ..], []) => Some((
            Object::Global(d),
            Objects {
                globals,
                literals: left.literals,
            },
        )),
        ([d, globals @ ..], [l, literals @ ..]) => {
            if l.place.offset < d.place.offset {
                Some((
                    Object::Literal(l),
                    Objects {
                        globals: left.globals,
                        literals,
                    },
                ))
            } else {
                Some((
                    Object::Global(d),
                    Objects {
                        globals,
                        literals: left.literals,
                    },
                ))
            }
        }
    }
}
