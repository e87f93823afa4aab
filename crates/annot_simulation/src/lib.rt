//! The code of annotations in monitored C, as definitions, and what it does.
#![tactic(auto)]

pub mod laws;
