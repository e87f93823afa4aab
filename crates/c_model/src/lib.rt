//! The meaning of annotated C (ISO/IEC 9899:1999, ACSL): memory, expressions, statements, terms, predicates and whole runs.
#![tactic(auto)]

// command lines
pub mod job;
pub mod words;

// texts
pub mod c_tokens;
pub mod monitored_tokens;
pub mod punctuator;
pub mod vocabulary;

// programs
pub mod declarations;
pub mod formulas;
pub mod laws;
pub mod objects;
pub mod operands;

// limits of files and runs
pub mod limits;

pub use job::{FileName, Job};
