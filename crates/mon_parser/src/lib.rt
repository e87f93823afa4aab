//! From the tokens of a monitored text to its tree.
//!
//! A function for each production of the grammar reads the tokens.
#![tactic(auto)]

// The tree.
pub mod parsed;

// What single tokens stand for.
mod kinds;
mod tables;
mod terminals;
pub mod vocabulary;

// What stands in a function.
mod call;
mod expression;
mod statement;
mod store;

// Globals, functions and whole texts.
mod global;
mod program;
mod read;

pub use kinds::word_at;
pub use parsed::{
    Literal, NameUse, ParsedArg, ParsedCall, ParsedExpr, ParsedExprKind, ParsedFunc, ParsedGlobal,
    ParsedProgram, ParsedRegister, ParsedStmt, ParsedStmtKind,
};
pub use read::{one_reading, read_tokens};
