//! The contract of a function as checks in the order of a call (ACSL 2.3.2, 2.3.3): which clauses are checked where the body begins and
//! where it ends, and of which behavior each is.
#![tactic(auto)]

pub mod check;
pub mod name;
pub mod order;

pub use check::{Check, Checks, Clause, Clauses};
pub use name::indices_by_name;
pub use order::{clauses, split};
