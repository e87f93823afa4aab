//! Expressions with effects anywhere in them, over the registers of monitored C.
//!
//! The statements of an expression, with its effects in their order, stand before a value that has none. A value that is
//! read before a later effect stands in a register, unless nothing changes it.
#![tactic(auto)]

pub mod act;
pub mod assignment;
pub mod evaluation;
