//! Where a token or a tree stands in its text.

/// A place in a text. A line ends at byte 10.
#[derive(Clone, Copy, PartialEq, Eq, Debug)]
pub struct Place {
    /// The line, from 1.
    pub line: u32,
    /// The column in bytes, from 1.
    pub column: u32,
    /// The bytes of the text before it.
    pub offset: u32,
}
