//! How runs end.

use c_syntax::{How, Kind, Segment};

/// How a run ends.
#[derive(Clone, Copy, PartialEq, Eq)]
pub enum Stop {
    /// With this value of `main`, or of the call of `exit`.
    Exit(i128),
    /// An annotation is broken.
    Broken {
        number: u32,
        line: u32,
        kind: Kind,
        how: How,
    },
    /// No step is left.
    Spent,
    /// A segment has no room.
    Full(Segment),
    /// An expression has no value, or a jump has no end.
    Fault,
    /// The source refused.
    ReadFault,
    /// The sink refused.
    WriteFault,
    /// Memory was wanting.
    OutOfMemory,
}

/// What a run came to.
#[derive(Clone, Copy, PartialEq, Eq)]
pub struct Ran {
    pub stop: Stop,
    /// The steps left.
    pub left: u64,
    /// The number of instructions, the last one included; at the greatest `u64` it stays.
    pub turns: u64,
}
