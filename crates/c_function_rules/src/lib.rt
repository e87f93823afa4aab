//! The rules of statements and functions (C99 6.8, 6.9.1): parameters, what names of functions denote and whether their declarations
//! agree, statements, and bodies.
//!
//! A function for each construct types it in its place, or gives of all faults of its smallest faulty parts the first in the text.
#![tactic(auto)]

pub mod function;
pub mod heading;
pub mod label;
pub mod parameter;
pub mod statement;
pub mod switch;
