//! Initialisers in monitored C (C99 6.7.8): stores into the parts of an object, part by part, and zeros in those that have none.
#![tactic(auto)]

mod aggregate;
pub mod initialiser;
mod text;
