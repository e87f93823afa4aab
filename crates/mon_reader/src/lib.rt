//! From a monitored text to the program that it spells, or to its refusal.
//!
//! A text goes through four phases: its tokens, its tree, the names and types in it, and the room of its globals with its `main`. The
//! first that finds a fault refuses it.
#![tactic(auto)]

mod entry;
mod read;
mod refusal;

pub use read::{about_texts, read_monitored};
