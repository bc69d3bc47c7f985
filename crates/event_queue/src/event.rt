//! One event.

use tm_base::{CpuId, Jiffy};

/// What a group knows of the first timer of a child (the kernel's `struct tmigr_event`).
#[derive(Clone, Copy, Debug, PartialEq, Eq)]
pub struct Event {
    /// When the timer expires, in jiffies, below 2^48.
    pub expiry: Jiffy,
    /// The CPU on which the timer is queued, below 1,024.
    pub cpu: CpuId,
    /// Whether the event is to be passed over, since its child is active again. It stays in its
    /// slot.
    pub ignored: bool,
}
