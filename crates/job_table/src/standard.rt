//! The jobs that the program has for every script.

ghost use Rattle.std.specs.Prelude.{◌≡◌};
ghost use Rattle.job_table.specs.Standard.{marker_reply, one_shot_reply, periodic_reply};
ghost use Rattle.job_table.specs.Standard.{standard_count, standard_reply};

use crate::jobs::{Job, JobCall, JobReply};
use crate::table::Jobs;
use tm_base::Class;

/// A job whose timer is done after one run.
#[derive(Clone, Copy)]
pub struct OneShot;

impl Job for OneShot {
    ghost reply = { λ _ call. one_shot_reply call };

    fn run(&self, _call: &JobCall) -> JobReply {
        JobReply::Done
    }
}

/// A job whose timer runs again and again, each time as many jiffies later as it was armed with.
#[derive(Clone, Copy)]
pub struct Periodic {
    /// The class with which the timer is armed again.
    pub class: Class,
}

impl Job for Periodic {
    ghost reply = { λ job call. periodic_reply job.class call };

    fn run(&self, call: &JobCall) -> JobReply {
        JobReply::Again {
            class: self.class,
            delay: call.arg,
        }
    }
}

/// A job that leaves the number that its timer was armed with as its mark.
#[derive(Clone, Copy)]
pub struct Marker;

impl Job for Marker {
    ghost reply = { λ _ call. marker_reply call };

    fn run(&self, call: &JobCall) -> JobReply {
        JobReply::Mark(call.arg)
    }
}

/// The program's jobs: of number 0 the timer is done, 1 arms it again as global and 2 as pinned,
/// and 3 leaves a mark. They take no memory, and may be lent to several threads.
#[derive(Clone, Copy)]
pub struct StandardJobs;

impl Jobs for StandardJobs {
    ghost count = { λ _. standard_count };

    ghost replies = { λ _. standard_reply };

    fn len(&self) -> usize
        ensures { result ≡ standard_count }
    {
        4
    }

    fn run(&self, n: u8, call: &JobCall) -> JobReply
        ensures { result ≡ standard_reply n call.entry.now }
    {
        match n {
            1 => Periodic {
                class: Class::Global,
            }
            .run(call),
            2 => Periodic {
                class: Class::Pinned,
            }
            .run(call),
            3 => Marker.run(call),
            _ => OneShot.run(call),
        }
    }
}
