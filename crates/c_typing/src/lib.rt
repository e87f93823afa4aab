//! Names and types of C programs (C99 6.7 to 6.9, ACSL 2.2): from the tree that is read to the tree whose uses have their declarations,
//! whose expressions have their types, and whose converted operands stand in casts.
//!
//! A function for each construct gives its typed part, or of all faults of its smallest faulty parts the first in the text.
#![tactic(auto)]

// what typing gives
pub mod checked;

// names and types
pub mod file;
pub mod item;
pub mod order;
pub mod program;
pub mod room;

// annotations
pub mod contract;
pub mod known;
pub mod noted;
pub mod noted_file;

pub use checked::Typed;
pub use noted_file::type_annots;
pub use program::type_program;
