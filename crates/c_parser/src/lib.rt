//! From the tokens of annotated C to its tree.
//!
//! A function for each production of the grammar reads the tokens.
#![tactic(auto)]

// What single tokens stand for.
mod terminals;

// What stands in a function.
mod annotation;
mod cases;
mod jumps;
mod loops;
mod statement;

// Functions and whole texts.
mod fault;
mod function;
mod functions;
mod names;
mod program;
mod read;
mod texts;

pub use read::{one_reading, read_program};
