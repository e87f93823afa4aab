//! The profile's limits on files, on calls and on the memory of a run (C99 5.2.4.1 leaves them to the implementation).

/// How many calls are active at most, `main` included.
pub const MOST_FRAMES: u32 = 65_536;

/// The segment of globals and literals, in bytes.
pub const GLOBALS_BYTES: u32 = 1_048_576;

/// The stack, in bytes.
pub const STACK_BYTES: u32 = 1_048_576;

/// The heap, in bytes.
pub const HEAP_BYTES: u32 = 16_777_216;

/// An annotated file has so many bytes at most.
pub const MOST_ANNOTATED: usize = 1_048_576;

/// A monitored file has so many bytes at most.
pub const MOST_MONITORED: usize = 67_108_864;
