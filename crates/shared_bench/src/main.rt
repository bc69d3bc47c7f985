//! Times the beginning and the end of a run of the shared table. With no words it does nothing;
//! with any word it makes machines of 8, 64 and 512 CPUs with 4,096 timers queued, makes a table of
//! each, begins a run and ends it, and writes a line for each round:
//! `Run CPUS TIMERS PREPARE BEGIN FINISH`, the times in microseconds.
#![tactic(auto)]

ghost use Rattle.std.specs.Prelude.{◌≡◌};
ghost use Rattle.core_world.specs.Covered.{IsSettled};
ghost use Rattle.shared_rows.specs.shared_table.Ended.{HasNoBaseBehind};

use shared_rows::{Core, Ready, RunName, Shared, is_settled, no_base_behind, start, stir};
use std::env;
use std::marker::Brand;
use std::time::Instant;
use tm_base::{CpuSet, NoMemory};
use wheel_base::WheelBase;

/// The rounds of each machine.
const ROUNDS: u32 = 5;

/// How many timers a machine has.
const TIMERS: u16 = 4096;

/// The fault of a machine for which memory is wanting.
fn no_memory(_: NoMemory) -> anyhow::Error {
    anyhow::anyhow!("memory")
}

/// Begins a run and ends it, and writes how long each took.
fn begin_and_finish<N: RunName>(
    rt: &HostRuntime,
    ready: Ready<WheelBase>,
    prepared: u128,
) -> anyhow::Result<()>
    requires table { ready.table ≡ N.table }
    requires opening { ready.core ≡ N.opening }
{
    let from = Instant::now(rt)?;
    let (shared, passes) = match Shared::<N, WheelBase>::begin(rt.alloc(), ready) {
        Ok(begun) => begun,
        Err(_) => anyhow::bail!("memory"),
    };
    let begun = from.elapsed(rt)?.as_micros();
    let cpus = passes.len();
    let from = Instant::now(rt)?;
    let core = shared.finish(passes);
    let finished = from.elapsed(rt)?.as_micros();
    let timers = core.timers();
    println!(rt; "Run {cpus} {timers} {prepared} {begun} {finished}")?;
    Ok(())
}

/// Makes a table of a core at rest, and times a run over it.
fn measure_core(rt: &HostRuntime, core: Core<WheelBase>) -> anyhow::Result<()>
    requires settled { IsSettled core }
    requires whole { HasNoBaseBehind core }
{
    let from = Instant::now(rt)?;
    let ready = match Ready::prepare(rt.alloc(), core, 0) {
        Ok(ready) => ready,
        Err(_) => anyhow::bail!("memory"),
    };
    let prepared = from.elapsed(rt)?.as_micros();
    begin_and_finish::<Brand>(rt, ready, prepared)
}

/// Times runs over a machine of so many nodes of so many CPUs.
fn measure(rt: &HostRuntime, nodes: u8, cpus: u8) -> anyhow::Result<()> {
    for _ in 0..ROUNDS {
        let mut core = start(rt.alloc(), nodes, cpus, &CpuSet::new(), TIMERS).map_err(no_memory)?;
        stir(&mut core).map_err(no_memory)?;
        if !is_settled(&core) || !no_base_behind(&core) {
            anyhow::bail!("the machine is not at rest");
        }
        measure_core(rt, core)?;
    }
    Ok(())
}

fn main(rt: HostRuntime) -> anyhow::Result<()> {
    if env::args(&rt)?.count() < 2 {
        return Ok(());
    }
    measure(&rt, 1, 8)?;
    measure(&rt, 1, 64)?;
    measure(&rt, 8, 64)
}
