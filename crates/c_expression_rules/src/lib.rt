//! The rules of C's expressions (C99 6.5), and of types as they are written (C99 6.7.5, 6.7.6): from the expression that is read to the
//! one whose uses have their declarations, whose parts have their types, and whose converted operands stand in casts.
//!
//! A function for each construct gives its typed part, or of all faults of its smallest faulty parts the first in the text.
#![tactic(auto)]

pub mod assignment;
pub mod binary;
pub mod call;
pub mod constant;
pub mod expression;
pub mod format;
pub mod operator;
pub mod text;
pub mod types;
