//! How many lines of each kind a report has.

/// How many lines of each kind a report has; each count stands still at 2^32 - 1.
#[derive(Clone, Copy)]
pub struct Tally {
    /// Timers that ran.
    pub runs: u32,
    /// Timers of `runs` that ran on another CPU than the one on which they were queued.
    pub remote: u32,
    /// Timers armed, by an operation or again by their job.
    pub armed: u32,
    /// Timers cancelled.
    pub cancels: u32,
    /// CPUs gone idle.
    pub idles: u32,
    /// CPUs that tried to go idle and stayed active.
    pub stays: u32,
    /// CPUs woken by an operation.
    pub wakes: u32,
    /// Operations refused.
    pub refused: u32,
    /// Timers left at the end.
    pub left: u32,
}
