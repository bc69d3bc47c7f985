//! How the program ends.

/// How the program ends: its exit status, one of those below.
#[derive(Clone, Copy, Debug, PartialEq, Eq)]
pub struct Status(pub u8);

/// All was done, and all of the output was written.
pub const DONE: u8 = 0;

/// What was read is no script.
pub const SCRIPT_REFUSED: u8 = 1;

/// The words are no command.
pub const USAGE: u8 = 2;

/// The source failed.
pub const READ_FAULT: u8 = 3;

/// The sink failed, or took nothing of a piece, before all of the output was written.
pub const WRITE_FAULT: u8 = 4;

/// Want of memory.
pub const NO_MEMORY: u8 = 5;

/// The work of a play reached the limit of the script's version before its end.
pub const WORK_SPENT: u8 = 6;

/// The source has more bytes than a script may have.
pub const TOO_LONG: u8 = 7;

/// The script names a job that there isn't.
pub const JOB_UNKNOWN: u8 = 8;

/// What was read is no trace.
pub const TRACE_REFUSED: u8 = 10;

/// What was read is no script of works.
pub const WORKS_REFUSED: u8 = 11;
