//! A round: threads for the CPUs with something to do, from a core at rest to a core at rest.

ghost use Rattle.std.specs.Prelude.{◌≡◌, IfOk};
ghost use Rattle.run_shares.specs.shared_table.Begun.{begun_passes};
ghost use Rattle.run_shares.specs.run_story.Asked.{AsksRound};
ghost use Rattle.run_shares.specs.run_story.Rounds.{IsRound};
ghost use Rattle.run_shares.specs.Progress.{AreAllDone, MayRound};

use crate::threads::do_all;
use job_table::Jobs;
use run_shares::{Core, Pass, Ready, RunName, Shared, gather, law_rest, tasks_of};
use std::alloc::Global;
use std::marker::Brand;
use std::sync::Wait;
use std::thread::Threads;
use tm_base::{CpuSet, Gate, Jiffy, NoMemory};
use tm_report::Line;
use tm_script::Op;
use wheel_base::WheelBase;

/// What all CPUs do in a round, on the words of a run that has begun: the passes and the lines
/// that they leave.
fn shares_of<N: RunName + Send + Sync, J: Jobs + Sync, G: Gate + Sync, R: Threads + Wait + Sync>(
    rt: &R,
    alloc: Global,
    shared: &Shared<N, WheelBase>,
    passes: Vec<Pass>,
    now: Jiffy,
    due: &CpuSet,
    ops: &[Op],
    jobs: &J,
    gate: &G,
) -> Result<(Vec<Pass>, Vec<Line>), NoMemory>
    requires may { MayRound N.opening now (record { due = due.now; ops = ops.now }) }
    requires passes { passes.items ≡ begun_passes N.table N.opening 0 }
    ensures { IfOk result (λ r.
        AreAllDone N.table N.opening (J.replies jobs.now)
        (record { due = due.now; ops = ops.now }) r.0.items r.1.items) }
{
    let tasks = tasks_of::<N>(alloc, passes, due, ops)?;
    let shares = do_all(rt, alloc, shared, tasks, now, jobs, gate)?;
    gather(alloc, shares)
}

/// The round of a run that has begun, up to its end.
fn round_begun<N: RunName + Send + Sync, J: Jobs + Sync, G: Gate + Sync, R: Threads + Wait + Sync>(
    rt: &R,
    alloc: Global,
    shared: Shared<N, WheelBase>,
    passes: Vec<Pass>,
    now: Jiffy,
    due: &CpuSet,
    ops: &[Op],
    jobs: &J,
    gate: &G,
) -> Result<(Core<WheelBase>, Vec<Line>), NoMemory>
    requires may { MayRound N.opening now (record { due = due.now; ops = ops.now }) }
    requires passes { passes.items ≡ begun_passes N.table N.opening 0 }
    ensures { IfOk result
        (λ r. IsRound (J.replies jobs.now) N.opening due.now ops.now r.0 r.1.items) }
{
    law_rest();
    match shares_of(rt, alloc, &shared, passes, now, due, ops, jobs, gate) {
        Ok((passes, lines)) => Ok((shared.finish(passes), lines)),
        Err(refused) => {
            drop(shared);
            Err(refused)
        }
    }
}

/// The round of a core whose table is ready.
fn round_over<N: RunName + Send + Sync, J: Jobs + Sync, G: Gate + Sync, R: Threads + Wait + Sync>(
    rt: &R,
    alloc: Global,
    ready: Ready<WheelBase>,
    now: Jiffy,
    due: &CpuSet,
    ops: &[Op],
    jobs: &J,
    gate: &G,
) -> Result<(Core<WheelBase>, Vec<Line>), NoMemory>
    requires table { ready.table ≡ N.table }
    requires opening { ready.core ≡ N.opening }
    requires made { ready.made ≡ 0 }
    requires may { MayRound ready.core now (record { due = due.now; ops = ops.now }) }
    ensures { IfOk result
        (λ r. IsRound (J.replies jobs.now) ready.core due.now ops.now r.0 r.1.items) }
{
    match Shared::<N, WheelBase>::begin(alloc, ready) {
        Ok((shared, passes)) => {
            round_begun(rt, alloc, shared, passes, now, due, ops, jobs, gate)
        },
        Err((ready, refused)) => {
            drop(ready);
            Err(refused)
        }
    }
}

/// A moment of a run whose CPUs have threads (the clock stands at its time): each CPU that is due
/// an interrupt or has operations gets a thread, which does its share; where no thread can be had
/// the caller does it. It answers the core after, and the lines by ascending CPU. After want of
/// memory the core is gone.
pub fn round<J: Jobs + Sync, G: Gate + Sync, R: Threads + Wait + Sync>(
    rt: &R,
    alloc: Global,
    core: Core<WheelBase>,
    due: &CpuSet,
    ops: &[Op],
    jobs: &J,
    gate: &G,
) -> Result<(Core<WheelBase>, Vec<Line>), NoMemory>
    requires { AsksRound core due.now ops.now }
    ensures { IfOk result (λ r. IsRound (J.replies jobs.now) core due.now ops.now r.0 r.1.items) }
{
    let now = core.now();
    match Ready::prepare(alloc, core, 0) {
        Ok(ready) => round_over::<Brand, J, G, R>(rt, alloc, ready, now, due, ops, jobs, gate),
        Err((core, refused)) => {
            drop(core);
            Err(refused)
        }
    }
}
