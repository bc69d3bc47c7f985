//! What a CPU is besides its timers.

use core_world::Walk;
use tm_base::Jiffy;

/// The word and the walk of a CPU.
#[derive(Clone, Copy)]
pub struct CpuStatus {
    pub online: bool,
    pub idle: bool,
    /// Inside its interrupt.
    pub inside: bool,
    /// The number of the CPU that marked it, to run its timers.
    pub mark: Option<u16>,
    /// In jiffies, `NEVER` where there is none.
    pub wakeup: Jiffy,
    pub walk: Option<Walk>,
}
