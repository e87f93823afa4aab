//! Guards of the operators of annotations (ACSL 2.2) that aren't defined everywhere: a division by 0, and a shift by a
//! negative count.
//!
//! A guard is an expression of monitored C over the second operand alone, in whose type it is computed, and its value
//! is the truth of definedness as an `i32`.
#![tactic(auto)]

pub mod laws;
mod operator;

pub use operator::guard;
