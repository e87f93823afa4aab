//! From tokens to declarations of annotated C.
//!
//! A function for each production of the grammar reads the tokens.
#![tactic(auto)]

// Declarators, parameters and initialisers.
pub mod declarator;
mod initialiser;
pub mod parameter;

// Types that are defined where they stand.
pub mod specifier;
pub mod tagged;

// Declarations.
pub mod declaration;
