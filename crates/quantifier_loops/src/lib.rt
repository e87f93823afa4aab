//! The loops that try the values of a binder of a quantifier.
#![tactic(auto)]

pub mod laws;
pub mod tries;
pub mod upward;
