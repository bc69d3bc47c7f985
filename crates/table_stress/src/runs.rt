//! A run in which CPUs take their turns.

ghost use Rattle.std.specs.Prelude.{◌≡◌, ◌-◌, ◌^◌, ◌≤◌};
ghost use Rattle.tm_base.specs.declared.names.TheConstants.{TIME_LIMIT};
ghost use Rattle.core_world.specs.Covered.{IsSettled};
ghost use Rattle.shared_rows.specs.shared_table.Begun.{begun_passes};
ghost use Rattle.shared_rows.specs.shared_table.Ended.{HasNoBaseBehind};
ghost use Rattle.shared_rows.below.shared_table.specs.declared.ready.TheConstants.{MOST_MADE};

use crate::crews::all;
use crate::gates::Watch;
use crate::noted::noted;
use crate::tally::Tally;
use crate::turns::Turn;
use idle_wakeup::{Core, Pass, Receipt, RunName};
use job_table::Jobs;
use shared_rows::{Ready, Shared};
use std::alloc::Global;
use std::marker::Brand;
use std::sync::Wait;
use std::thread::Threads;
use tm_base::{Jiffy, NoMemory, TIME_LIMIT};
use wheel_base::WheelBase;

/// The latest time of a run, in jiffies, so that any delay may be asked.
pub const LATEST: Jiffy = TIME_LIMIT - 4_294_967_296;

const _: () = prove!(LATEST == TIME_LIMIT - (1 << 32));

/// The threads that share the CPUs of a run, each with CPUs that follow one another.
#[derive(Clone, Copy, Debug, PartialEq, Eq)]
pub enum Crew {
    /// One thread.
    One,
    /// Two threads, of which the second has the CPUs from this number on.
    Two(u16),
    /// Four threads, of which the others have the CPUs from these numbers on.
    Four(u16, u16, u16),
}

/// What the CPUs of a run do: the turns, so many times. A thread takes those of its own CPUs, in
/// order.
#[derive(Drop)]
pub struct Plan {
    pub turns: Vec<Turn>,
    pub rounds: u32,
    pub crew: Crew,
}

/// What a run gives back: its core, the receipts of its passes by ascending CPU, and what the CPUs
/// were answered.
#[derive(Drop)]
pub struct Ran {
    pub core: Core<WheelBase>,
    pub receipts: Vec<Receipt>,
    pub tally: Tally,
}

/// The threads of a run take their turns, and the run ends.
fn run_begun<N: RunName + Send + Sync, J: Jobs + Sync, G: Watch + Sync, R: Threads + Wait + Sync>(
    rt: &R,
    alloc: Global,
    shared: Shared<N, WheelBase>,
    now: Jiffy,
    timers: u16,
    jobs: &J,
    gate: &G,
    plan: &Plan,
    made: u32,
    passes: Vec<Pass>,
) -> Result<Ran, NoMemory>
    requires settled { IsSettled N.opening }
    requires passes { passes.items ≡ begun_passes N.table N.opening made }
    requires now { now ≡ N.opening.clock }
    requires timers { timers ≡ N.opening.timers }
    requires in_time { now ≤ TIME_LIMIT - 2 ^ 32 }
{
    let (passes, tally) = all(rt, alloc, &shared, now, timers, jobs, gate, plan, passes)?;
    let receipts = noted(alloc, passes.as_slice())?;
    let core = shared.finish(passes);
    Ok(Ran {
        core,
        receipts,
        tally,
    })
}

/// A run over a table that is ready.
fn run_over<N: RunName + Send + Sync, J: Jobs + Sync, G: Watch + Sync, R: Threads + Wait + Sync>(
    rt: &R,
    alloc: Global,
    now: Jiffy,
    timers: u16,
    jobs: &J,
    gate: &G,
    plan: &Plan,
    made: u32,
    ready: Ready<WheelBase>,
) -> Result<Ran, NoMemory>
    requires table { ready.table ≡ N.table }
    requires opening { ready.core ≡ N.opening }
    requires made { ready.made ≡ made }
    requires now { now ≡ ready.core.clock }
    requires timers { timers ≡ ready.core.timers }
    requires in_time { now ≤ TIME_LIMIT - 2 ^ 32 }
{
    match Shared::<N, WheelBase>::begin(alloc, ready) {
        Ok((shared, passes)) => {
            run_begun(
                rt, alloc, shared, now, timers, jobs, gate, plan, made, passes,
            )
        },
        Err((_ready, refused)) => Err(refused),
    }
}

/// A run over a core at rest, with its own clock, each of whose passes counts as having begun
/// `made` walks.
pub fn run_plan<J: Jobs + Sync, G: Watch + Sync, R: Threads + Wait + Sync>(
    rt: &R,
    alloc: Global,
    core: Core<WheelBase>,
    made: u32,
    plan: &Plan,
    jobs: &J,
    gate: &G,
) -> Result<Ran, NoMemory>
    requires settled { IsSettled core }
    requires whole { HasNoBaseBehind core }
    requires few { made ≤ MOST_MADE }
    requires in_time { core.clock ≤ TIME_LIMIT - 2 ^ 32 }
{
    let now = core.now();
    let timers = core.timers();
    match Ready::prepare(alloc, core, made) {
        Ok(ready) => run_over::<Brand, J, G, R>(
            rt, alloc, now, timers, jobs, gate, plan, made, ready,
        ),
        Err((_core, refused)) => Err(refused),
    }
}
