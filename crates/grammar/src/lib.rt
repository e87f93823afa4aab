//! Grammars as values, over any type of tokens, and the theorems that hold for all of them.
//!
//! A production is a value that says side by side which tokens are a reading, which begin one, where each
//! limit is passed, and how tokens are read from left to right with one token of lookahead.
#![tactic(auto)]
