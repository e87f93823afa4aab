//! The tree of a text with its tokens.

ghost use Rattle.c_syntax.specs.Programs.{plain_program};
ghost use Rattle.c_syntax.specs.Tokens.{plain_tokens};
ghost use Rattle.c_phases.specs.Facts.{IsParsedTree};

use c_syntax::{Program, Tokens};

/// The tree of a text with the tokens that are read as it. Its declarations stand in the order of the text.
#[derive(Drop)]
pub struct Parsed {
    pub program: Program,
    pub tokens: Tokens,
    pub ghost read: { ∥ IsParsedTree (plain_tokens tokens) (plain_program program) ∥₁ },
}
