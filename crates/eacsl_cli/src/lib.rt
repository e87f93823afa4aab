//! The top call of `eacsl`: what the words of a command line ask for, over any folder, source and sinks.
#![tactic(auto)]

mod answer;
mod lines;
pub mod status;

pub use answer::eacsl;
pub use command_words::read_words;
