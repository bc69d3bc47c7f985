//! A run in which CPUs take their turns.

ghost use Rattle.std.specs.Prelude.{◌≡◌, length};
ghost use Rattle.core_world.specs.Covered.{IsSettled};
ghost use Rattle.shared_rows.specs.shared_table.Ended.{AreAllPasses, HasNoBaseBehind};

use crate::crews::all;
use crate::gates::Watch;
use crate::tally::Tally;
use crate::turns::Turn;
use idle_wakeup::{Core, Pass, RunName};
use shared_rows::{Ready, Shared};
use std::alloc::Global;
use std::marker::Brand;
use std::sync::Wait;
use std::thread::Threads;
use tm_base::{Jiffy, NoMemory};
use wheel_base::WheelBase;

/// The threads that share the CPUs of a run, each with CPUs that follow one another.
#[derive(Clone, Copy, Debug, PartialEq, Eq)]
pub enum Crew {
    /// One thread.
    One,
    /// Two threads, of which the second has the CPUs from this number on.
    Two(u16),
    /// Four threads, of which the others have the CPUs from these numbers on.
    Four(u16, u16, u16),
}

/// What the CPUs of a run do: the turns, so many times. A thread takes those of its own CPUs, in
/// order.
#[derive(Drop)]
pub struct Plan {
    pub turns: Vec<Turn>,
    pub rounds: u32,
    pub crew: Crew,
}

/// The core that a run gives back, and what the CPUs were answered.
#[derive(Drop)]
pub struct Ran {
    pub core: Core<WheelBase>,
    pub tally: Tally,
}

/// The threads of a run take their turns, and the run ends.
fn run_begun<N: RunName + Send + Sync, G: Watch + Sync, R: Threads + Wait + Sync>(
    rt: &R,
    shared: Shared<N, WheelBase>,
    now: Jiffy,
    gate: &G,
    plan: &Plan,
    passes: Vec<Pass>,
) -> Result<Ran, NoMemory>
    requires all { AreAllPasses N.table (length N.opening.cpus) passes.items }
    requires now { now ≡ N.opening.clock }
{
    let (passes, tally) = all(rt, &shared, now, gate, plan, passes)?;
    let core = shared.finish(passes);
    Ok(Ran { core, tally })
}

/// A run over a table that is ready.
fn run_over<N: RunName + Send + Sync, G: Watch + Sync, R: Threads + Wait + Sync>(
    rt: &R,
    alloc: Global,
    now: Jiffy,
    gate: &G,
    plan: &Plan,
    ready: Ready<WheelBase>,
) -> Result<Ran, NoMemory>
    requires table { ready.table ≡ N.table }
    requires opening { ready.core ≡ N.opening }
    requires now { now ≡ ready.core.clock }
{
    match Shared::<N, WheelBase>::begin(alloc, ready) {
        Ok((shared, passes)) => run_begun(rt, shared, now, gate, plan, passes),
        Err((_ready, refused)) => Err(refused),
    }
}

/// A run over a core at rest, with its own clock.
pub fn run_plan<G: Watch + Sync, R: Threads + Wait + Sync>(
    rt: &R,
    alloc: Global,
    core: Core<WheelBase>,
    plan: &Plan,
    gate: &G,
) -> Result<Ran, NoMemory>
    requires settled { IsSettled core }
    requires whole { HasNoBaseBehind core }
{
    let now = core.now();
    match Ready::prepare(alloc, core, 0) {
        Ok(ready) => run_over::<Brand, G, R>(rt, alloc, now, gate, plan, ready),
        Err((_core, refused)) => Err(refused),
    }
}
