//! Names and types of monitored texts: from the tree that is read to the program that it spells.
//!
//! A function for each construct gives its part of the program, or the first fault in text order.
#![tactic(auto)]

// what is known of names and types
pub mod fault;
pub mod global;
pub mod header;
pub mod register;
pub mod scope;
pub mod types;

// a program, from its expressions up
pub mod argument;
pub mod call;
pub mod expression;
pub mod function;
pub mod program;
pub mod statement;

// laws
pub mod laws;

pub use fault::{CheckFault, ProgramFault};
pub use program::checked_program;
pub use scope::is_main;
