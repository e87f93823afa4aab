//! Ranges of mathematical integers: the range of an operator from those of its operands, the width of a range, and the
//! conversion of a value to an integer type.
//!
//! A range is given by its least and its greatest value, both signed 128 bits. An operator whose results may leave
//! signed 128 bits has no range. No call takes memory.
#![tactic(auto)]

mod arithmetic;
mod bits;
mod conversions;
pub mod laws;
mod products;
mod shifts;

pub use arithmetic::{add, flip, neg, sub};
pub use bits::{bit_and, bit_or, bit_xor};
pub use conversions::{is_inside, type_range, width_of, wrap};
pub use products::{div, mul, rem};
pub use shifts::{shl, shr};
