//! The job that the words of a command line ask for, read by `clap`.
#![tactic(auto)]

mod parse;
mod words;

pub use words::read_words;
