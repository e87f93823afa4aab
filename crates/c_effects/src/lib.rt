//! What expressions and their effects become over the registers of monitored C, in parts: operators, objects, calls, and
//! what is done to each scalar of an object.
//!
//! The definitions say it of whole expressions.
#![tactic(auto)]

// what code is made of
pub mod conversion;
pub mod copy;
pub mod layout;
pub mod operator;
pub mod part;
pub mod scalars;
pub mod slot;
pub mod zeros;

// objects and calls
pub mod call;
pub mod inner;
pub mod leaf;
pub mod object;
pub mod print;

// which values are kept
pub mod settled;
