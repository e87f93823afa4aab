//! What the phases of the front end after the grammar hand on from one to the next, and the refusals of texts that have a tree.
//!
//! A program of each phase keeps in its type what the phases before it have found, so that the next call asks for nothing besides.
#![tactic(auto)]

mod noted;
mod parsed;
mod refusal;

pub use noted::{Noted, Ranged};
pub use parsed::Parsed;
pub use refusal::{refuse, refused_in, refused_main};
