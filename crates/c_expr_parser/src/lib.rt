//! From tokens to expressions of annotated C.
//!
//! A function for each production of the grammar reads the tokens.
#![tactic(auto)]

// What single tokens stand for.
pub mod kinds;
pub mod level;
mod tables;
pub mod terminals;
pub mod vocabulary;

// Types.
pub mod declarator;
pub mod type_start;
pub mod types;

// Expressions inside others.
mod expression;
mod parts;
mod placed;

// The brackets of declarators.
pub mod lengths;

// Those that stand in no other, and the public call.
pub mod full;
mod read;

pub use expression::type_name;
pub use level::Level;
pub use read::{one_expression, read_expr};
