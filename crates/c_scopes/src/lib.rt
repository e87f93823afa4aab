//! What is in sight of C's names (C99 6.2.1, 6.2.3): tables of objects, enumerators, functions, types, tags and string literals, and the
//! names of the library. Each is found without a look at all.
//!
//! Beside them stand what depends on no more: the sizes and limits of types, and the fault that refuses a tree.
#![tactic(auto)]

// why a tree is refused
pub mod fault;

// tables
pub mod declarations;
pub mod entities;
pub mod entity;
pub mod first;
pub mod format;
pub mod label;
pub mod library;
pub mod literal;
pub mod object;
pub mod signature;
pub mod tag;
pub mod type_name;

// what is in sight
pub mod limits;
pub mod sight;

pub use fault::{Fault, TypeFault};
