//! What annotations are read as.

use c_syntax::{Annot, Contract, Place};

/// What an annotation is read as (ACSL 2.3, 2.4).
#[derive(Drop)]
pub enum ReadAnnotation {
    Asserts(Vec<Annot>),
    Contract(Contract),
    Loop(LoopAnnotation),
}

/// The clauses of a loop.
#[derive(Drop)]
pub struct LoopAnnotation {
    /// The place of their first word.
    pub place: Place,
    pub clauses: Vec<Annot>,
    /// The place of the first word of a variant behind another one.
    pub again: Option<Place>,
}
