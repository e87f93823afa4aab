//! The blocks of a function's variables in monitored C: they are born in order where a scope is entered, and die, the youngest
//! first, where it is left.
//!
//! Where monitored C has the blocks of the program, it has them after the statements that are given here too.
#![tactic(auto)]

pub mod scope;
pub mod size;

pub use scope::{enter, leave};
