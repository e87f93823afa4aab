//! The machine that runs stack code over flat memory.
#![tactic(auto)]

// what the machine holds
mod depth;
mod machine;
mod memory;
pub mod stop;

// instructions
mod arithmetic;
mod blocks;
mod calls;
mod pointers;
mod questions;
mod quiet;
mod reading;
mod turn;
mod writing;

// runs of instructions at once
mod asserted;
mod case_tests;
mod checked_elements;
mod elements;
mod forms;
mod frames;
mod kept_terms;
mod kept_values;
mod leaps;
mod lone_forms;
mod sequences;
mod series;
mod singles;
mod statements;
mod validity;

// runs
mod whole;

pub use stop::{Ran, Stop};
pub use whole::{run, run_plainly};
