//! Prints programs in monitored C.
#![tactic(auto)]

// what is written to, and the smallest parts
mod line;
mod strings;
mod words;
mod writer;

// a program, from its expressions up
mod call;
mod expression;
mod function;
mod global;
mod program;
mod statement;

pub use program::print;
