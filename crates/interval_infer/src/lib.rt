//! The ranges of the terms of annotations: each term keeps the range of its values, or is refused where they may pass
//! signed 128 bits (E10).
//!
//! Trees are changed in place, and memory is taken for the word of a refusal alone. After a refusal clauses have some of their ranges.
#![tactic(auto)]

mod annotation;
mod binder;
mod contract;
mod form;
pub mod laws;
mod pointer;
mod program;
mod seen;
mod statement;

pub use annotation::clause_ranges;
pub use program::ranges;
