//! The codes of refusals, as they stand after `E` in a report.

/// A byte that begins no token.
pub const BYTE: u8 = 1;

/// A broken token: an unclosed comment, a literal, a name or a directive of no right form.
pub const TOKEN: u8 = 2;

/// A word or directive that is outside the profile.
pub const PROFILE: u8 = 3;

/// A token that can't follow those before it.
pub const GRAMMAR: u8 = 4;

/// A name without a fitting declaration.
pub const NAME: u8 = 5;

/// A demand on types that isn't met.
pub const TYPE: u8 = 6;

/// An annotation where none of its kind may stand.
pub const MISPLACED: u8 = 7;

/// A quantifier without a guard.
pub const GUARD: u8 = 8;

/// A label that isn't known, or what may not stand under one.
pub const LABEL: u8 = 9;

/// A term whose values may pass signed 128 bits.
pub const RANGE: u8 = 10;

/// A limit that is passed.
pub const LIMIT: u8 = 11;

/// Globals that take more than their segment.
pub const GLOBALS: u8 = 12;

/// No `main`, or one of another form.
pub const MAIN: u8 = 13;
