//! What a play asks of a machine, and what it answers.

use tm_base::{Class, CpuId, Jiffy, TimerId};
use tm_report::ShownCover;

/// Where a timer is queued, and its wheel expiry there, in jiffies.
#[derive(Clone, Copy)]
pub struct Queued {
    pub cpu: CpuId,
    pub class: Class,
    pub wheel: Jiffy,
}

/// A timer to be armed. Its asked expiry is `delay` jiffies past the clock.
#[derive(Clone, Copy)]
pub struct Arming {
    pub timer: TimerId,
    pub class: Class,
    /// In jiffies.
    pub delay: u32,
    /// The number of the timer's job.
    pub job: u8,
    /// What the job is handed.
    pub arg: u32,
    /// The line of the script that asks for it; 0 where a job does.
    pub line: u32,
}

/// A timer to be cancelled.
#[derive(Clone, Copy)]
pub struct Cancelling {
    pub timer: TimerId,
    /// The CPU that cancels it, wherever it is queued.
    pub by: CpuId,
    /// The line of the script that asks for it.
    pub line: u32,
}

/// A timer that moved to another CPU, and the wheel expiry that it got there, in jiffies.
#[derive(Clone, Copy)]
pub struct Mover {
    pub timer: TimerId,
    pub wheel: Jiffy,
}

/// What answers for the first global timer of an idle CPU.
#[derive(Clone, Copy)]
pub struct Answerer {
    /// The wheel expiry of that timer, in jiffies.
    pub wheel: Jiffy,
    pub cover: ShownCover,
}

/// An operation that names a job which the table hasn't: the line of the script, and the number of
/// the job.
#[derive(Clone, Copy)]
pub struct UnknownJob {
    pub line: u32,
    pub job: u8,
}
