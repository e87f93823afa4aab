//! From tokens to annotations of C (ACSL 2.2, 2.3, 2.4).
//!
//! A function for each production of the grammar reads the tokens.
#![tactic(auto)]

// What single tokens stand for.
mod clause_words;
mod tables;
mod terminals;

// Forms, inside others, and zones.
mod atoms;
mod binders;
mod formula;
mod parts;
mod prefix;
mod primary;
mod span;
mod sum;

// Clauses within the limit of their tokens, contracts, clauses of loops, and the annotation at a place.
mod annotation;
mod clause;
mod contract;
mod loop_clauses;
mod read;
mod readings;

pub use annotation::annotations;
pub use read::{one_annotation, read_annot};
pub use readings::{LoopAnnotation, ReadAnnotation};
