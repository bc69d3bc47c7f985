//! Why bytes are no report.

ghost use Rattle.std.specs.Prelude.{◌≡◌};
ghost use Rattle.report_reader.specs.declared.faults.ReadReport.TheVariants as answers;

use std::alloc::{AllocError, AllocFailed};
use tm_base::NoMemory;

/// What is wrong with a line of a report.
#[derive(Clone, Copy, Debug, PartialEq, Eq)]
pub enum Kind {
    /// Its first word is the name of no line.
    UnknownName,
    /// The words behind its name are not those of a line of this name.
    WrongWords,
    /// The text ends in the line, with no line feed.
    NoLineFeed,
}

/// Where bytes are no report, and what is wrong there.
#[derive(Clone, Copy, Debug, PartialEq, Eq)]
pub struct ReportFault {
    /// The number of the line at fault, from 1.
    pub line: usize,
    /// What is wrong with it.
    pub kind: Kind,
}

/// Why no report was read.
#[derive(Clone, Copy, Debug, PartialEq, Eq)]
pub enum ReadReport {
    /// The bytes are no report.
    Refused(ReportFault),
    /// Want of memory.
    NoMemory,
}

impl From<NoMemory> for ReadReport {
    ghost from_gives = { λ _ e. e ≡ answers.NoMemory };

    fn from(_e: NoMemory) -> ReadReport {
        let answer = ReadReport::NoMemory;
        answer
    }
}

impl From<AllocError> for ReadReport {
    ghost from_gives = { λ _ e. e ≡ answers.NoMemory };

    fn from(_e: AllocError) -> ReadReport {
        let answer = ReadReport::NoMemory;
        answer
    }
}

impl<T: Drop> From<AllocFailed<T>> for ReadReport {
    ghost from_gives = { λ _ e. e ≡ answers.NoMemory };

    fn from(_e: AllocFailed<T>) -> ReadReport {
        let answer = ReadReport::NoMemory;
        answer
    }
}
