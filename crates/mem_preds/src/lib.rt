//! Questions about memory (ACSL 2.7), as statements of monitored C.
//!
//! A question is about bytes at an offset from a pointer. Its answer is put into a register, and nothing else is
//! changed.
#![tactic(auto)]

mod fact;
pub mod laws;
mod place;
mod question;
mod ranges;

pub use fact::tell;
pub use place::read_at;
pub use question::{Question, ask, ask_sized};
pub use ranges::{Bytes, part};
