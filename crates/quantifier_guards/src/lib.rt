//! Guards of quantifiers (ACSL 2.2), which say what the values of their binders are: whether a quantifier has one, and the first of a text
//! that has none.
#![tactic(auto)]

mod form;
mod guard;
mod mention;
mod program;

pub use form::unguarded_in;
pub use guard::{is_guarded, left_behind};
pub use mention::mentions_any;
pub use program::unguarded_in_unit;
