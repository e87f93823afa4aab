//! Programs whose annotations are typed, and those whose terms have their ranges.

ghost use Rattle.c_syntax.specs.Programs.{plain_program};
ghost use Rattle.c_syntax.specs.Tokens.{plain_tokens};
ghost use Rattle.c_phases.specs.Facts.{IsNotedProgram, IsRangedProgram};

use c_syntax::{Program, Tokens};

/// The program of a text, whose C and whose annotations are typed, with its tokens.
#[derive(Drop)]
pub struct Noted {
    pub program: Program,
    pub tokens: Tokens,
    pub ghost noted: { ∥ IsNotedProgram (plain_tokens tokens) (plain_program program) ∥₁ },
}

/// The same, in which each term of an annotation has its range.
#[derive(Drop)]
pub struct Ranged {
    pub program: Program,
    pub tokens: Tokens,
    pub ghost ranged: { ∥ IsRangedProgram (plain_tokens tokens) (plain_program program) ∥₁ },
}
