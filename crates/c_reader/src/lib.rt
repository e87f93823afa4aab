//! From a C text with annotations to its typed program, or to its refusal.
//!
//! A text goes through eight phases: its tokens, its tree, the places of its annotations, the names and types in it, the room of its
//! globals and literals, its `main`, the names and types in its annotations, and the ranges of their terms.
//! The first that finds a fault refuses it.
#![tactic(auto)]

mod read;

pub use read::{about_programs, about_texts, read_text};
