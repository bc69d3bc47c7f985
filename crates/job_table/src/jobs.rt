//! Jobs, what they are told, and what they answer.

use tm_base::{Class, CpuId, Jiffy, TimerId};

/// What a job is told when its timer is run.
#[derive(Clone, Copy)]
pub struct JobCall {
    /// The timer that is run.
    pub timer: TimerId,
    /// The number that the timer was armed with.
    pub arg: u32,
    /// The present jiffy.
    pub now: Jiffy,
    /// The CPU that runs the job, which needn't be the one that the timer was queued on.
    pub runner: CpuId,
}

/// What a job answers.
#[derive(Clone, Copy, Debug, PartialEq, Eq)]
pub enum JobReply {
    /// The timer is done.
    Done,
    /// The timer is done, and the job left this mark.
    Mark(u32),
    /// The timer is to be armed again, on the CPU that ran it, `delay` jiffies from now.
    Again { class: Class, delay: u32 },
}

/// The work of a timer (the kernel's `timer->function`). Its answer depends on the job and the call
/// alone.
pub trait Job: Drop {
    ghost use Rattle.std.specs.Prelude.{◌≡◌};
    ghost use Rattle.job_table.specs.declared.jobs.JobCall.{JobCall};
    ghost use Rattle.job_table.specs.declared.jobs.JobReply.{JobReply};

    ghost reply: { Self → JobCall → JobReply };

    /// Does the work, and says what becomes of the timer.
    fn run(&self, call: &JobCall) -> JobReply
        ensures { result ≡ reply self.now call.entry.now };
}
