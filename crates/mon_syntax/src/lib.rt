//! Programs in monitored C, the language into which annotated C is translated: their tree, their text, and what they do.
#![tactic(auto)]

pub mod definition;
pub mod laws;
pub mod object_indices;
pub mod registers;
pub mod spot;
pub mod tree;
pub mod types;
pub mod word;

pub use registers::{Registers, numbered};
pub use spot::{RegionName, Spot};
pub use tree::{
    AccessSize, CopySize, GlobalContent, MemoryCall, MonExpr, MonExprKind, MonFunc, MonGlobal,
    MonOp, MonProgram, MonStmt, MonStmtKind, MonType, Register,
};
pub use types::{
    access_bytes, byte_count, copy_bytes, is_pointer, result_type, same_type, second_type,
};
pub use word::{Runtime, Word, kind_word};
