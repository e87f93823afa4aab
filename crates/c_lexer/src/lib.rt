//! The tokens of texts (C99 6.4, ACSL): of a C text with annotations, and of a monitored text.
#![tactic(auto)]

// bytes, places, and what is read so far
mod bytes;
mod names;
mod places;
mod reading;

// monitored texts
mod chars;
mod monitored;
mod numbers;
mod pieces;
mod refusals;

// C texts
mod source;

pub use monitored::mon_tokens;
pub use source::tokens;
