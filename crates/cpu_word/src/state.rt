//! What a CPU's word says.

use tm_base::{CpuId, Jiffy};

/// A word has room for the numbers of markers below this one.
pub const MARKER_LIMIT: u16 = 1023;

/// The state of a CPU. It fits a word where the wakeup is below 2^48 and the marker below the
/// limit.
#[derive(Clone, Copy, Debug, PartialEq, Eq)]
pub struct CpuState {
    pub online: bool,
    pub idle: bool,
    /// Inside its interrupt.
    pub inside: bool,
    /// The CPU that marked it, to run its timers.
    pub remote: Option<CpuId>,
    /// When it is woken, in jiffies, or `NEVER`.
    pub wakeup: Jiffy,
}
