//! Times walks. With no words it does nothing; with any word it lets four of 64 CPUs go idle and
//! wake by turns: CPUs of one leaf, CPUs of four leaves, and the last active CPUs of four leaves,
//! whose walks climb; by one thread, two and four, on the shared words, and on a core that one lock
//! guards. It writes a line for each round: `Words CASE THREADS PAIRS MICROSECONDS`, or `Lock ..`.
#![tactic(auto)]

mod cases;
mod locked;

use crate::cases::{CASES, Case, before, crews, machine, pairs};
use crate::locked::take_locked;
use std::alloc::Global;
use std::env;
use std::sync::{Mutex, Wait};
use std::thread::Threads;
use std::time::{Clock, Instant};
use tm_base::{FreeGate, NoMemory};
use walk_rows::{Core, Plan, Ran, is_settled, no_base_behind, run_plan};
use wheel_base::WheelBase;

/// The rounds of each measurement.
const ROUNDS: u32 = 3;

/// How often each of the four CPUs goes idle and wakes.
const PAIRS: u32 = 50_000;

/// The fault of a machine for which memory is wanting.
fn no_memory(_: NoMemory) -> anyhow::Error {
    anyhow::anyhow!("memory")
}

/// A run of a plan over a core, which has to be at rest.
fn run<R: Threads + Wait + Sync>(
    rt: &R,
    alloc: Global,
    core: Core<WheelBase>,
    plan: &Plan,
) -> anyhow::Result<Ran> {
    if !is_settled(&core) || !no_base_behind(&core) {
        anyhow::bail!("the machine is not at rest");
    }
    run_plan(rt, alloc, core, plan, &FreeGate).map_err(no_memory)
}

/// The machine of a case, with those idle that are so from the beginning.
fn prepared<R: Threads + Wait + Sync>(
    rt: &R,
    alloc: Global,
    case: &Case,
) -> anyhow::Result<Core<WheelBase>> {
    let core = machine(alloc).map_err(no_memory)?;
    let plan = before(alloc, case).map_err(no_memory)?;
    Ok(run(rt, alloc, core, &plan)?.core)
}

/// How long a plan takes on the shared words, in microseconds.
fn time_words<R: Threads + Wait + Sync + Clock>(
    rt: &R,
    alloc: Global,
    case: &Case,
    plan: &Plan,
) -> anyhow::Result<u128> {
    let core = prepared(rt, alloc, case)?;
    let from = Instant::now(rt)?;
    let ran = run(rt, alloc, core, plan)?;
    let micros = from.elapsed(rt)?.as_micros();
    if ran.tally.refused != 0 {
        anyhow::bail!("a CPU was refused");
    }
    Ok(micros)
}

/// How long it takes on a core that one lock guards, in microseconds.
fn time_lock<R: Threads + Wait + Sync + Clock>(
    rt: &R,
    alloc: Global,
    case: &Case,
    plan: &Plan,
) -> anyhow::Result<u128> {
    let core = Mutex::new(prepared(rt, alloc, case)?);
    let from = Instant::now(rt)?;
    take_locked(rt, &core, plan);
    Ok(from.elapsed(rt)?.as_micros())
}

fn main(rt: HostRuntime) -> anyhow::Result<()> {
    if env::args(&rt)?.count() < 2 {
        return Ok(());
    }
    for _round in 0..ROUNDS {
        for case in &CASES {
            for (threads, crew) in crews(case) {
                let plan = pairs(rt.alloc(), case, PAIRS, crew).map_err(no_memory)?;
                let all = (plan.turns.len() / 2).saturating_mul(PAIRS as usize);
                let name = case.name;
                let words = time_words(&rt, rt.alloc(), case, &plan)?;
                println!(&rt; "Words {name} {threads} {all} {words}")?;
                let lock = time_lock(&rt, rt.alloc(), case, &plan)?;
                println!(&rt; "Lock {name} {threads} {all} {lock}")?;
            }
        }
    }
    Ok(())
}
