//! Pieces of the code of annotations in monitored C: registers, values, pointers, relations and zones.
#![tactic(auto)]

pub mod binder;
pub mod compare;
pub mod guard;
pub mod join;
pub mod kept;
pub mod leaf;
pub mod opened;
pub mod piece;
pub mod plan;
pub mod pointer;
pub mod reading;
pub mod side;
pub mod term;
pub mod value;
pub mod width;
pub mod zone;
