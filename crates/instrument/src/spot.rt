//! Where a statement stands.

use annot_pieces::plan::Plan;

/// How many loops and switches stand around a statement, the number of the innermost loop among these, and the blocks of
/// variables that live, by the registers that point to them, in order of birth: those born inside what a `break` leaves, from
/// there to the body of the innermost loop, and the others that a `return` leaves. What is returned goes into the register of the
/// result where a contract is checked behind the body. The terms that the function keeps at its labels are those of its plan.
#[derive(Clone, Copy, Drop)]
pub struct Spot<'a> {
    pub levels: u32,
    pub innermost: u32,
    pub inside: &'a [u32],
    pub between: &'a [u32],
    pub outside: &'a [u32],
    pub result: Option<u32>,
    pub plan: &'a Plan<'a>,
}
