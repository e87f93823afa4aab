//! The loosest operator of an expression (C99 6.5.15 to 6.5.17).

/// The loosest operator that is read.
#[derive(Clone, Copy, PartialEq, Eq, Debug)]
pub enum Level {
    /// `,`
    Comma,
    /// `=`, and `op=`
    Assign,
    /// `?:`
    Cond,
}
