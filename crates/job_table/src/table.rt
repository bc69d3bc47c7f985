//! A table of jobs.

ghost use Rattle.std.specs.Prelude.{◌≡◌, ◌≤◌, vec_len};
ghost use Rattle.job_table.specs.declared.table.TheConstants.{MOST_JOBS};
ghost use Rattle.job_table.specs.Replies.{replies_of};

use crate::jobs::{Job, JobCall, JobReply};

/// The most jobs of a table: as many as a number of eight bits can name.
pub const MOST_JOBS: usize = 256;

const _: () = prove!(MOST_JOBS == 1 << 8);

/// Jobs by their numbers, from 0.
pub trait Jobs {
    ghost use Rattle.std.specs.Prelude.{◌≡◌, ℕ};
    ghost use Rattle.job_table.specs.declared.jobs.JobCall.{JobCall};
    ghost use Rattle.job_table.specs.declared.jobs.JobReply.{JobReply};

    ghost count: { Self → ℕ };

    ghost replies: { Self → ℕ → JobCall → JobReply };

    /// How many jobs there are.
    fn len(&self) -> usize
        ensures { result ≡ count self.now };

    /// Runs the job of that number.
    fn run(&self, n: u8, call: &JobCall) -> JobReply
        ensures { result ≡ replies self.now n call.entry.now };
}

/// Stored jobs. A number at or above their count has no job, and is answered by `Done`. The table
/// may be lent to several threads.
#[derive(Drop)]
pub struct JobTable {
    jobs: Vec<Box<dyn Job + Send + Sync>>,
    ghost nameable: { vec_len jobs ≤ MOST_JOBS },
}

impl JobTable {
    /// The table of these jobs, in this order.
    pub fn new(jobs: Vec<Box<dyn Job + Send + Sync>>) -> JobTable
        requires { vec_len jobs ≤ MOST_JOBS }
        ensures count { ⟦<JobTable as Jobs>⟧.count result ≡ vec_len jobs }
        ensures replies { ⟦<JobTable as Jobs>⟧.replies result ≡ replies_of reply jobs.items }
    {
        JobTable { jobs }
    }
}

impl Jobs for JobTable {
    ghost count = { λ table. vec_len table.jobs };

    ghost replies = { λ table. replies_of (λ job. (Job-box job).reply job.value) table.jobs.items };

    fn len(&self) -> usize
        ensures count { result ≡ ⟦<JobTable as Jobs>⟧.count self.now }
        ensures nameable { result ≤ MOST_JOBS }
    {
        self.jobs.len()
    }

    fn run(&self, n: u8, call: &JobCall) -> JobReply
        ensures reply { result ≡ ⟦<JobTable as Jobs>⟧.replies self.now n call.entry.now }
        ensures past { ⟦<JobTable as Jobs>⟧.count self.now ≤ n → result ≡ JobReply.Done }
    {
        let n = usize::from(n);
        if n >= self.jobs.len() {
            return JobReply::Done;
        }
        run_job(&self.jobs[n], call)
    }
}

// Runs one stored job.
fn run_job(job: &Box<dyn Job + Send + Sync>, call: &JobCall) -> JobReply
    ensures { result ≡ reply job.now call.entry.now }
{
    job.run(call)
}
