//! What comes of a text: annotated C is translated and run or written, and monitored C is run.
#![tactic(auto)]

mod annotation;
mod ended;
mod engine;

pub use ended::{Done, Ended};
pub use engine::{exec_text, instrument_text, run_text};
