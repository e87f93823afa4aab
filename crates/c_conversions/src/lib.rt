//! Conversions of C's types (C99 6.3), which types have a meaning where, and what operators make of constant values (C99 6.5).
#![tactic(auto)]

pub mod arithmetic;
pub mod conversion;
