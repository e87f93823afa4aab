//! The words of a command line.

pub mod laws;
