//! What is read of a declaration's words (C99 6.7), and of annotations.

use c_syntax::Place;

/// The word before a type at file scope, besides `const` (C99 6.7.1).
#[derive(Clone, Copy, PartialEq, Eq, Debug)]
pub enum Storage {
    Nothing,
    Static,
    Typedef,
}

/// What a type with braces defines (C99 6.7.2.1, 6.7.2.2).
#[derive(Clone, Copy, PartialEq, Eq, Debug)]
pub enum Tagged {
    Struct,
    Enum,
}

/// What a declarator names.
#[derive(Clone, Copy, PartialEq, Eq, Debug)]
pub enum Named {
    /// An object, a function or a type, by a name that no type has.
    Ordinary,
    /// A member, by any name (C99 6.2.3).
    Member,
}

/// What is read of the annotations of a text so far (ACSL 2.3, 2.4).
#[derive(Clone, Copy, PartialEq, Eq, Debug)]
pub struct AnnotationState {
    /// The number of the next clause.
    pub number: u32,
    /// The place of the first word of the first annotation that stands where none of its kind may.
    pub misplaced: Option<Place>,
}
