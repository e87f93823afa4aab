//! The translation of annotated C into monitored C.
//!
//! A register points to the block of each variable, in which its value stands, and each annotation becomes an assertion. Expressions and
//! their effects are those of `c_evaluation`.
#![tactic(auto)]

mod block;
mod clause;
mod contract;
mod function;
mod global;
mod jump;
mod keeping;
mod name;
mod parameter;
mod program;
mod spot;
mod statement;
mod switch;

pub use program::instrument;
