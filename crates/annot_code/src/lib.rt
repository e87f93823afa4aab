//! The code of annotations in monitored C: assertions, which judge predicates.
#![tactic(auto)]

pub mod assertion;
pub mod contract;
pub mod flags;
pub mod judge;
mod predicate;
mod quantifier;
pub mod snapshot;
pub mod value_of;
