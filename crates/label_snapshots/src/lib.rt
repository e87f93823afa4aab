//! Which terms a function keeps at which of its labels (ACSL 2.4.3): those under `\old` and `\at`, and parameters in an `ensures`, in the order of the
//! text, its contract first and then its body.
#![tactic(auto)]

pub mod entry;
pub mod function;
pub mod statement;
pub mod table;
pub mod term;

pub use entry::Entry;
pub use function::planned;
pub use table::plan;
