//! The interrupt that is under way.

use view_counts::Cause;

/// The interrupt that is under way, or the last one.
#[derive(Clone, Copy)]
pub struct Interrupt {
    /// Whether it found its CPU idle.
    pub idle: bool,
    /// What it is for, by what was handed out in it so far.
    pub cause: Cause,
    /// How many timers were queued on the CPU that it has taken.
    pub queued: usize,
}
