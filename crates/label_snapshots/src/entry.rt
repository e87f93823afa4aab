//! A term that is kept.

use c_syntax::logic::Term;

/// A term, and the label where it is kept, by the number of its name; none is the beginning of the call.
#[derive(Clone, Copy)]
pub struct Entry<'a> {
    pub label: Option<u32>,
    pub term: &'a Term,
}
