//! Any list of calls on works.

ghost use Rattle.std.specs.Prelude.{◌≡◌, OnOk, OnErr};
ghost use Rattle.delayed_work.specs.Calls.{MayMakeCall, works_after_call};
ghost use Rattle.delayed_work.specs.Laws.{WorksLaw};

use crate::Works;
use job_table::Jobs;
use tm_base::{Jiffy, NoMemory};
use wheel_core::TimerBase;

/// A call of [`Works`] that changes something.
#[derive(Clone, Copy)]
pub enum WorksCall {
    Queue {
        now: Jiffy,
        work: u16,
        delay: u32,
        job: u8,
        arg: u32,
        line: u32,
    },
    Cancel {
        now: Jiffy,
        work: u16,
        line: u32,
    },
    Expire {
        now: Jiffy,
    },
    RunNext {
        now: Jiffy,
    },
}

/// Makes one call, and lets its answer go. Want of memory leaves all as it was.
pub fn make_call<B: TimerBase, J: Jobs>(
    works: &mut Works<B>,
    jobs: &J,
    call: &WorksCall,
) -> Result<(), NoMemory>
    requires { MayMakeCall call.now works.old }
    ensures after { OnOk result
        (works.new ≡ works_after_call (J.replies jobs.now) call.now works.old) }
    ensures err { OnErr result (works.new ≡ works.old) }
{
    match *call {
        WorksCall::Queue {
            now,
            work,
            delay,
            job,
            arg,
            line,
        } => {
            works.queue(now, work, delay, job, arg, line)?;
        }
        WorksCall::Cancel { now, work, line } => {
            works.cancel(now, work, line)?;
        }
        WorksCall::Expire { now } => works.expire(now)?,
        WorksCall::RunNext { now } => {
            works.run_next(now, jobs)?;
        }
    }
    Ok(())
}

/// The law of works: over every list of calls each accepted queueing has one number and one end;
/// it is pending exactly where its work is pending by that number, ran where exactly one call of
/// `run_next` ran it, and no waiting work becomes ready before its wheel expiry.
pub fn law_works()
    ensures { WorksLaw }
{}
