//! What is read of the forms of annotations (ACSL 2.2).

use c_syntax::BinOp;
use c_syntax::logic::Connective;

/// What joins two forms.
#[derive(Clone, Copy, PartialEq, Eq, Debug)]
pub enum FormulaOperator {
    /// An operator of terms.
    Term(BinOp),
    /// A connective of predicates.
    Predicate(Connective),
}

/// Where a form stands.
#[derive(Clone, Copy, PartialEq, Eq, Debug)]
pub enum FormulaMode {
    /// Where no range ends it.
    Alone,
    /// Where a zone stands: a range may end it, `+ (lo .. hi)`.
    Zone,
}

/// How a chain of relations goes on, by those that were read.
#[derive(Clone, Copy, PartialEq, Eq, Debug)]
pub enum ChainDirection {
    /// No relation yet.
    Start,
    /// Only `==`.
    Equal,
    /// `<` or `<=`, and maybe `==`.
    Up,
    /// `>` or `>=`, and maybe `==`.
    Down,
    /// `!=`, which stands alone.
    Ended,
}

/// Where clauses stand that say a form (ACSL 2.3, 2.4.1).
#[derive(Clone, Copy, PartialEq, Eq, Debug)]
pub enum ClauseGroup {
    /// In an annotation of asserts.
    Asserts,
    /// In a contract, outside its behaviors.
    Contract,
    /// In a behavior.
    Behavior,
    /// Behind `loop`, in an annotation of a loop.
    Loop,
}
