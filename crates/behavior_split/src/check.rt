//! Checks of a contract.

use c_syntax::Annot;

/// A clause of a contract, and the index of the behavior that it is of.
#[derive(Clone, Copy)]
pub struct Clause<'a> {
    pub annot: &'a Annot,
    pub behavior: Option<u32>,
}

/// The clauses of a contract, in the order of their checks.
#[derive(Drop)]
pub struct Clauses<'a> {
    /// Where the body begins.
    pub entry: Vec<Clause<'a>>,
    /// Where it ends.
    pub leave: Vec<Clause<'a>>,
}

/// A check: the number of an annotation, and the index of the behavior that it is of.
#[derive(Clone, Copy, PartialEq, Eq, Debug)]
pub struct Check {
    pub annot: u32,
    pub behavior: Option<u32>,
}

/// The checks of a contract, in order.
#[derive(Drop)]
pub struct Checks {
    /// Where the body begins.
    pub entry: Vec<Check>,
    /// Where it ends.
    pub leave: Vec<Check>,
}
