//! The exit statuses of the program.

/// The program ended, or its translation was written.
pub const EXITED: u8 = 0;

/// An annotation is false or undefined.
pub const BROKEN: u8 = 1;

/// The text is refused.
pub const REFUSED: u8 = 2;

/// The words of the command line have no job.
pub const USAGE: u8 = 3;

/// A run wants more room than there is.
pub const FULL: u8 = 4;

/// The steps are spent.
pub const SPENT: u8 = 5;

/// The machine faulted.
pub const FAULT: u8 = 6;

/// The folder or the input failed.
pub const READ_FAULT: u8 = 7;

/// An output failed.
pub const WRITE_FAULT: u8 = 8;

/// Memory ran out.
pub const OUT_OF_MEMORY: u8 = 9;

/// Nothing stands under the name of the file.
pub const NO_FILE: u8 = 10;

/// The file is longer than its limit.
pub const TOO_LONG: u8 = 11;

/// The host gives no words.
pub const NO_WORDS: u8 = 13;
