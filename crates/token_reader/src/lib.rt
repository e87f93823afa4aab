//! Single tokens, tables of words, and refusals: what the parsers of both languages share.
#![tactic(auto)]

// What single tokens stand for.
pub mod terminals;
pub mod words;

// The refusal of tokens that aren't read.
pub mod refusal;
pub mod token_word;
