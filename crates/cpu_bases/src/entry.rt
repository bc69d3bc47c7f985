//! What a journal says of a CPU's timers, and which of them come first.

use tm_base::{Class, CpuId, Jiffy, TimerId};

/// What was done to a timer, or to a base.
#[derive(Clone, Copy, Debug, PartialEq, Eq)]
pub enum Act {
    /// The timer was armed.
    Armed,
    /// The timer was due and went out, for its job to run.
    Handed,
    /// The timer was cancelled.
    Cancelled,
    /// The timer left for another CPU's base.
    MovedOut,
    /// The timer came from another CPU's base.
    MovedIn,
    /// The base was drained.
    Ticked,
}

/// An entry of a journal. Of `Ticked` the timer, `expires`, `job` and `arg` are 0, and `wheel` is
/// `at`; of every other act `expires`, `wheel`, `job` and `arg` are those of the timer's item.
#[derive(Clone, Copy, Debug, PartialEq, Eq)]
pub struct Entry {
    pub act: Act,
    /// The line of the script that asked for it; 0 where a job or the hierarchy acts.
    pub line: u32,
    /// When it was done, in jiffies.
    pub at: Jiffy,
    pub timer: TimerId,
    /// The base that it was done to.
    pub class: Class,
    /// The asked expiry, in jiffies.
    pub expires: Jiffy,
    /// The wheel expiry, in jiffies.
    pub wheel: Jiffy,
    /// The number of the timer's job.
    pub job: u8,
    /// What the job is handed.
    pub arg: u32,
    /// The CPU that did it.
    pub by: CpuId,
}

/// The first events of a CPU, in jiffies; `NEVER` where there is none. Deferrable timers are no
/// events: they neither wake a CPU nor keep it from idling.
#[derive(Clone, Copy, Debug, PartialEq, Eq)]
pub struct NextEvents {
    /// The least wheel expiry of the pinned base.
    pub pin: Jiffy,
    /// The least wheel expiry of the global base.
    pub first_global: Jiffy,
    /// The event that the CPU has in the hierarchy: `first_global` where it comes before `pin`,
    /// else `NEVER`.
    pub next: Jiffy,
}
