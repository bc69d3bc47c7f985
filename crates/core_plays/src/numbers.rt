//! The numbers of a play.

use tm_base::Jiffy;

/// The numbers of a whole play. Each count stands still at 2^32 - 1.
#[derive(Clone, Copy)]
pub struct Summary {
    /// Moments played.
    pub moments: u32,
    /// Timers that ran.
    pub runs: u32,
    /// Timers of `runs` that ran on another CPU than the one on which they were queued.
    pub remote: u32,
    /// Timers armed, by an operation or again by their job.
    pub armed: u32,
    /// Timers cancelled; an operation that found its timer queued nowhere doesn't count.
    pub cancels: u32,
    /// CPUs gone idle.
    pub idles: u32,
    /// CPUs that tried to go idle and stayed active.
    pub stays: u32,
    /// CPUs woken by an operation.
    pub wakes: u32,
    /// Operations refused.
    pub refused: u32,
    /// Timers left at the end.
    pub left: u32,
    /// The last moment, in jiffies.
    pub end: Jiffy,
}
