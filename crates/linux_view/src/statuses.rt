//! How the program ends, and how much it reads.

/// The most bytes that a trace may have: 2^26.
pub const MOST_TRACE_BYTES: usize = 67_108_864;

const _: () = prove!(MOST_TRACE_BYTES == 1 << 26);

/// Each line fits, and that was written.
pub const FITS: u8 = 0;

/// The words are no command.
pub const USAGE: u8 = 2;

/// The source failed.
pub const READ_FAULT: u8 = 3;

/// The sink failed, or took nothing of a piece, before all of the text was written.
pub const WRITE_FAULT: u8 = 4;

/// Want of memory.
pub const NO_MEMORY: u8 = 5;

/// The source has more bytes than a trace may have.
pub const TOO_LONG: u8 = 7;

/// What was read is no trace.
pub const NO_TRACE: u8 = 10;

/// No event of timer migration was read.
pub const NOTHING: u8 = 14;

/// A line breaks a rule.
pub const MISFIT: u8 = 12;
