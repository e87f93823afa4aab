//! Sorts, names and types of annotations (ACSL 2.2, 2.3, 2.7), whose C is typed: from the forms that are read to terms, places and predicates
//! whose uses have their declarations.
//!
//! A function for each form gives what it is, or of all faults of its smallest faulty parts the first in the text.
#![tactic(auto)]

mod cast;
mod chain;
mod choice;
pub mod clause;
pub mod clause_sight;
mod contract;
mod demand;
mod form;
mod joined;
mod label;
mod measure;
mod name;
mod operator;
mod past;
mod places;
mod pointer;
mod quantified;
mod quantifier;
pub mod sorted;
mod zone;

pub use clause::type_clauses;
pub use clause_sight::ClauseSight;
pub use contract::type_contract;
