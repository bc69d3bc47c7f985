//! How the program ends, and how much it reads.

/// The most bytes that script and report together may have: 2^26.
pub const MOST_STORY_BYTES: usize = 67_108_864;

const _: () = prove!(MOST_STORY_BYTES == 1 << 26);

/// The report can be a story of the script, and that was written.
pub const FITS: u8 = 0;

/// The words are none that the program knows.
pub const USAGE: u8 = 2;

/// The source failed.
pub const READ_FAULT: u8 = 3;

/// The sink failed, or took nothing of a piece, before all of the text was written.
pub const WRITE_FAULT: u8 = 4;

/// Want of memory.
pub const NO_MEMORY: u8 = 5;

/// The source has too many bytes.
pub const TOO_LONG: u8 = 7;

/// What was read is no script, or what stands behind it no report.
pub const NO_STORY: u8 = 10;

/// A line can't stand where it does.
pub const MISFIT: u8 = 12;
