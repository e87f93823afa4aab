//! What the calls on a text come to.

use c_lower::Code;
use c_machine::Ran;
use c_syntax::Refusal;
use mon_syntax::MonProgram;

/// How the translation of a text was written.
#[derive(Drop)]
pub enum Done {
    /// All of it was written.
    Written,
    /// The text is refused.
    Refused(Refusal),
    /// The sink failed.
    WriteFault,
    OutOfMemory,
}

/// How a text was run.
#[derive(Drop)]
pub enum Ended {
    /// The machine ran its program.
    Finished {
        /// What the run came to.
        ran: Ran,
        /// How many annotations the text has.
        annotations: u32,
        /// The program that was run.
        monitored: MonProgram,
        /// Its stack code, which the machine ran.
        code: Code,
    },
    /// The text is refused.
    Refused(Refusal),
    /// Memory ran out before the run.
    OutOfMemory,
}
