//! The jobs of timers that were handed out.

ghost use Rattle.std.specs.Prelude.{◌≡◌, ◌+◌, ◌-◌, ◌^◌, ◌<◌, ◌≤◌, [], All, MatchResult, length};
ghost use Rattle.tm_base.specs.declared.names.TheConstants.{TIME_LIMIT};
ghost use Rattle.shared_acts.specs.Pieces.{HeldInside, IsTimerOfRun, Piece};
ghost use Rattle.remote_expiry.specs.Running.{HasAnsweredJob, HasRunJob, HasToldNone, HasToldRun};
ghost use Rattle.remote_expiry.specs.Running.{RanAllArming, RanInPart, call_to, holder_told};
ghost use Rattle.remote_expiry.specs.Stopping.{AsksAgain};

use job_table::{JobCall, JobReply, Jobs};
use shared_acts::{Ran, RanReply, Runs};
use shared_calls::arm;
use std::sync::Wait;
use tm_base::{Class, CpuId, Jiffy, NoMemory, OpFault, TimerId};
use walk_inactive::{Pass, RunName, Shared};
use wheel_core::{Item, TimerBase};

/// The CPU on which a timer was found queued that was to be armed.
fn holder_told(fault: OpFault) -> Option<CpuId>
    ensures { result ≡ holder_told fault }
{
    match fault {
        OpFault::Queued { cpu } => Some(cpu),
        _ => None,
    }
}

/// Arms a timer again whose job asks for it, on the CPU of the pass.
fn again<N: RunName, B: TimerBase, R: Wait>(
    rt: &R,
    shared: &Shared<N, B>,
    pass: &mut Pass,
    now: Jiffy,
    item: &Item,
    class: Class,
    delay: u32,
) -> Result<RanReply, NoMemory>
    requires inside { HeldInside N.table N.opening pass.old }
    requires now { now ≡ N.opening.clock }
    requires in_time { now ≤ TIME_LIMIT - 2 ^ 32 }
    requires timer { IsTimerOfRun N.opening item.now }
    ensures { MatchResult result
        (HasAnsweredJob N.table N.opening item.now (JobReply.Again class delay) pass.old pass.new)
        (λ e. Piece N.table pass.old pass.new [] [] 0) }
{
    pass.law();
    let timer = TimerId(item.id as u16);
    match arm(
        rt, shared, pass, now, timer, class, delay, item.job, item.arg, 0,
    ) {
        Ok(wheel) => Ok(RanReply::Again { class, wheel }),
        Err(fault) => match holder_told(fault) {
            Some(cpu) => Ok(RanReply::Skip { cpu }),
            None => Err(NoMemory),
        },
    }
}

/// Does what a timer's job replied, and tells what became of it.
fn answer<N: RunName, B: TimerBase, R: Wait>(
    rt: &R,
    shared: &Shared<N, B>,
    pass: &mut Pass,
    now: Jiffy,
    item: &Item,
    reply: JobReply,
) -> Result<RanReply, NoMemory>
    requires inside { HeldInside N.table N.opening pass.old }
    requires now { now ≡ N.opening.clock }
    requires in_time { now ≤ TIME_LIMIT - 2 ^ 32 }
    requires timer { IsTimerOfRun N.opening item.now }
    ensures { MatchResult result
        (HasAnsweredJob N.table N.opening item.now reply pass.old pass.new)
        (λ e. Piece N.table pass.old pass.new [] [] 0 × AsksAgain reply) }
{
    match reply {
        JobReply::Done => Ok(RanReply::Done),
        JobReply::Mark(mark) => Ok(RanReply::Mark(mark)),
        JobReply::Again { class, delay } => again(rt, shared, pass, now, item, class, delay),
    }
}

/// Runs the job of a timer that was handed out of a CPU's base, and tells what became of it.
fn run_one<N: RunName, B: TimerBase, J: Jobs, R: Wait>(
    rt: &R,
    shared: &Shared<N, B>,
    pass: &mut Pass,
    now: Jiffy,
    jobs: &J,
    home: CpuId,
    item: &Item,
) -> Result<Ran, NoMemory>
    requires inside { HeldInside N.table N.opening pass.old }
    requires now { now ≡ N.opening.clock }
    requires in_time { now ≤ TIME_LIMIT - 2 ^ 32 }
    requires timer { IsTimerOfRun N.opening item.now }
    ensures { MatchResult result
        (HasRunJob N.table N.opening (J.replies jobs.now) home.0 item.now pass.old pass.new)
        (λ e. Piece N.table pass.old pass.new [] [] 0 × AsksAgain (J.replies jobs.now
        item.now.job (call_to N.opening.clock pass.old.cpu item.now))) }
{
    let timer = TimerId(item.id as u16);
    let call = JobCall {
        timer,
        arg: item.arg,
        now,
        runner: pass.cpu(),
    };
    let job_reply = jobs.run(item.job, &call);
    let reply = answer(rt, shared, pass, now, item, job_reply)?;
    Ok(Ran {
        timer,
        home,
        wheel: item.wheel,
        reply,
    })
}

/// Runs the job of a timer, and tells it in `runs`, for which there is room.
fn run_told<N: RunName, B: TimerBase, J: Jobs, R: Wait>(
    rt: &R,
    shared: &Shared<N, B>,
    pass: &mut Pass,
    now: Jiffy,
    jobs: &J,
    home: CpuId,
    item: &Item,
    runs: &mut Runs,
) -> Result<(), NoMemory>
    requires inside { HeldInside N.table N.opening pass.old }
    requires now { now ≡ N.opening.clock }
    requires in_time { now ≤ TIME_LIMIT - 2 ^ 32 }
    requires timer { IsTimerOfRun N.opening item.now }
    requires room { length runs.old.runs < runs.old.capacity }
    ensures told { MatchResult result
        (λ done. HasToldRun N.table N.opening (J.replies jobs.now) home.0 item.now pass.old
        pass.new runs.old.runs runs.new.runs)
        (λ e. HasToldNone N.table N.opening (J.replies jobs.now) item.now pass.old pass.new
        runs.old.runs runs.new.runs) }
    ensures capacity { runs.new.capacity ≡ runs.old.capacity }
{
    let ran = run_one(rt, shared, pass, now, jobs, home, item)?;
    runs.push(ran).unwrap();
    Ok(())
}

/// Runs the jobs of these timers in order, with no lock held. Each whose job was run is told in
/// `runs`, for which there is room; after want of memory the others are run all the same.
pub(crate) fn run_all<N: RunName, B: TimerBase, J: Jobs, R: Wait>(
    rt: &R,
    shared: &Shared<N, B>,
    pass: &mut Pass,
    now: Jiffy,
    jobs: &J,
    home: CpuId,
    items: &[Item],
    runs: &mut Runs,
) -> Result<(), NoMemory>
    requires inside { HeldInside N.table N.opening pass.old }
    requires now { now ≡ N.opening.clock }
    requires in_time { now ≤ TIME_LIMIT - 2 ^ 32 }
    requires timers { All (IsTimerOfRun N.opening) items.now }
    requires room { length runs.old.runs + length items.now ≤ runs.old.capacity }
    ensures { MatchResult result
        (λ done. RanAllArming N.table N.opening (J.replies jobs.now) home.0 items.now pass.old
        pass.new runs.old.runs runs.new.runs)
        (λ e. RanInPart N.table N.opening (J.replies jobs.now) home.0 items.now pass.old pass.new
        runs.old.runs runs.new.runs) }
{
    let mut ended = Ok(());
    for item in items {
        let told = run_told(rt, shared, pass, now, jobs, home, item, runs);
        ended = ended.and(told);
    }
    ended
}
