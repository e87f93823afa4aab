//! The rules of C's declarations (C99 6.7): the layout of structs, the types of objects, parameters and results, initialisers, of
//! which those of globals are constant, and enumerators.
//!
//! A function for each construct types it in its place, or gives of all faults of its smallest faulty parts the first in the text.
#![tactic(auto)]

// names and types
pub mod layout;
pub mod name;
pub mod object;

// declarations
pub mod constant;
pub mod declaration;
pub mod enumerator;
pub mod initialiser;
pub mod member;
pub mod open_struct;
