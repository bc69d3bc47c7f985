//! How a play ends: what was counted in a whole one, and why another was broken off.

use play_rules::Tally;
use tm_base::NoMemory;

/// What was counted in a whole play: its moments, and its lines by kind. Each count stands still at
/// 2^32 - 1.
#[derive(Clone, Copy)]
pub struct Counts {
    pub moments: u32,
    pub lines: Tally,
}

/// Why a script wasn't played to its end.
#[derive(Clone, Copy, Debug, PartialEq, Eq)]
pub enum DriveFault {
    /// An `arm` line of the script names a job that the table hasn't; it is the first, and nothing
    /// was played.
    BadJob { line: u32, job: u8 },
    /// Moments finished, interrupts made and timers handed out together were as many as may be, or
    /// more, after a moment that isn't the last.
    WorkSpent { count: u32 },
    /// Want of memory.
    NoMemory,
}

impl From<NoMemory> for DriveFault {
    ghost use Rattle.std.specs.Prelude.{◌≡◌};
    ghost use Rattle.play_driver.specs.declared.outcomes.DriveFault.TheVariants as faults;

    ghost from_gives = { λ _ e. e ≡ faults.NoMemory };

    fn from(_e: NoMemory) -> DriveFault {
        DriveFault::NoMemory
    }
}
