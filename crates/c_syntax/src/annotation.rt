//! Words of annotations (ACSL): kinds of clauses, relations, and ranges of terms.

/// The kind of a clause, as the line of a broken annotation names it.
#[derive(Clone, Copy, PartialEq, Eq, Debug)]
pub enum Kind {
    Assert,
    Requires,
    Assumes,
    Ensures,
    Complete,
    Disjoint,
    Invariant,
    Variant,
    Rte,
}

/// The least and the greatest value of a term, both included.
#[derive(Clone, Copy, PartialEq, Eq, Debug)]
pub struct Range {
    pub lo: i128,
    pub hi: i128,
}

/// A relation between two terms.
#[derive(Clone, Copy, PartialEq, Eq, Debug)]
pub enum Relation {
    Eq,
    Ne,
    Lt,
    Le,
    Gt,
    Ge,
}
