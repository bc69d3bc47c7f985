//! Why a script of works wasn't played.

ghost use Rattle.std.specs.Prelude.{◌≡◌};
ghost use Rattle.delayed_work.specs.declared.faults.WorksFault.TheVariants as faults;

use tm_base::NoMemory;

/// Why a script of works wasn't played to its end.
#[derive(Clone, Copy, Debug, PartialEq, Eq)]
pub enum WorksFault {
    /// A `queue` line of the script names a job that the table hasn't; it is the first, and nothing
    /// was played.
    BadJob { line: u32, job: u8 },
    /// Moments and runs together were as many as may be, or more, after a moment that isn't the
    /// last.
    WorkSpent { count: u32 },
    /// Want of memory.
    NoMemory,
}

impl From<NoMemory> for WorksFault {
    ghost from_gives = { λ _ e. e ≡ faults.NoMemory };

    fn from(_e: NoMemory) -> WorksFault {
        let fault = WorksFault::NoMemory;
        fault
    }
}

/// A queueing of a script whose job a table hasn't.
#[derive(Clone, Copy, Debug, PartialEq, Eq)]
pub struct UnknownWorkJob {
    /// The number of its line, from 1.
    pub line: u32,
    /// The number of its job.
    pub job: u8,
}
