//! Stack code, and the lowering of a program in monitored C to it.
#![tactic(auto)]

// stack code
mod backward;
pub mod code;
mod labels;

// its lowering
mod expressions;
mod globals;
mod program;
mod simple;
mod statements;

// laws
pub mod laws;

pub use code::{Code, Entry, Instr, operands_of};
pub use program::lower;
