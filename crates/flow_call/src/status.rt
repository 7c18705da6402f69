//! The statuses of `flowdesk`: those of `flow`, and two for what only it has.

/// The case refuses, something was found, or a case of a log deviates.
pub const REFUSED: u8 = 1;

/// The words are no call.
pub const WORDS: u8 = 2;

/// A text is refused.
pub const INPUT: u8 = 3;

/// Standard input could not be read.
pub const READ_FAULT: u8 = 4;

/// Standard output could not be written.
pub const WRITE_FAULT: u8 = 5;

/// There was not enough memory.
pub const NO_MEMORY: u8 = 6;

/// A file was not read or written.
pub const DISK: u8 = 8;

/// Another process has the case.
pub const BUSY: u8 = 9;
