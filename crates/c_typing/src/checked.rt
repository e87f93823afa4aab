//! What typing gives.

ghost use Rattle.c_syntax.specs.Programs.{plain_program};
ghost use Rattle.c_syntax.specs.Tokens.{plain_tokens};
ghost use Rattle.c_phases.specs.Facts.{IsTypedProgram};
ghost use Rattle.c_typing.specs.Standing.{Stands, Stands-prop};

use c_scopes::Fault;
use c_syntax::{Program, Tokens};

/// The program of a text, whose C has names and types, whose globals and literals have room, and which has `main`, with its tokens. What it
/// declares stands in the order of the text.
#[derive(Drop)]
pub struct Typed {
    pub program: Program,
    pub tokens: Tokens,
    pub ghost checked: { ∥ IsTypedProgram (plain_tokens tokens) (plain_program program) ∥₁ },
    pub ghost stands: { Stands (plain_program program) } by { Stands-prop (plain_program program) },
}

/// Why typing gives no program.
#[derive(Drop)]
pub enum ProgramFault {
    /// A fault in names and types (E5, E6, E11).
    Refused(Fault),
    /// Globals and literals take more than their segment (E12).
    NoRoom(Fault),
    /// There is no `int main(void)` (E13).
    NoMain(Fault),
    /// Memory was wanting.
    Memory,
}
