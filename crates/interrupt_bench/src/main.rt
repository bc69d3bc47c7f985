//! Times timers and interrupts on 64 CPUs: arming and cancelling on the own CPU, an interrupt that
//! has nothing to do, one that drains 64 own timers, and one that runs 64 timers of an idle
//! sibling. With no words it makes each once, on the shared words and as steps of the core, and
//! writes for each case how many turns there were and how many timers ran; with any word it times
//! them, by one thread, two and four, and writes for each round `Words CASE THREADS TURNS
//! MICROSECONDS` and `Begin CASE MICROSECONDS`, for a run of no turns, and `Steps CASE TURNS
//! MICROSECONDS`.
#![tactic(auto)]

mod alone;
mod cases;
mod machines;

use crate::alone::{drawn, handed};
use crate::cases::{CASES, CREWS, Case, plan};
use crate::machines::machine;
use job_table::JobTable;
use std::alloc::Global;
use std::env;
use std::sync::Wait;
use std::thread::Threads;
use std::time::{Clock, Instant};
use table_stress::{
    Core, Crew, LATEST, Plan, Ran, is_settled, no_base_behind, run_plan, run_steps,
};
use tm_base::{FreeGate, NoMemory};
use wheel_base::WheelBase;

/// The rounds of each measurement.
const ROUNDS: u32 = 3;

/// The fault of a machine for which memory is wanting.
fn no_memory(_: NoMemory) -> anyhow::Error {
    anyhow::anyhow!("memory")
}

/// A run of a plan over a core, which has to be at rest.
fn run<R: Threads + Wait + Sync>(
    rt: &R,
    alloc: Global,
    core: Core<WheelBase>,
    plan: &Plan,
    jobs: &JobTable,
) -> anyhow::Result<Ran> {
    if !is_settled(&core) || !no_base_behind(&core) || core.now() > LATEST {
        anyhow::bail!("the machine is not at rest");
    }
    run_plan(rt, alloc, core, 0, plan, jobs, &FreeGate).map_err(no_memory)
}

/// How long a plan takes on a case's machine, in microseconds.
fn time_words<R: Threads + Wait + Sync + Clock>(
    rt: &R,
    alloc: Global,
    case: &Case,
    plan: &Plan,
    jobs: &JobTable,
) -> anyhow::Result<u128> {
    let core = machine(alloc, case.load).map_err(no_memory)?;
    let from = Instant::now(rt)?;
    let ran = run(rt, alloc, core, plan, jobs)?;
    let micros = from.elapsed(rt)?.as_micros();
    if ran.tally.refused != 0 || ran.tally.short != 0 {
        anyhow::bail!("a CPU was refused");
    }
    Ok(micros)
}

/// How long the same takes as steps of the core, in microseconds.
fn time_steps<R: Clock>(rt: &R, alloc: Global, case: &Case, rounds: u32) -> anyhow::Result<u128> {
    let core = machine(alloc, case.load).map_err(no_memory)?;
    let steps = drawn(alloc, core, case, rounds).map_err(no_memory)?;
    let mut core = machine(alloc, case.load).map_err(no_memory)?;
    let from = Instant::now(rt)?;
    let made = run_steps(&mut core, steps.as_slice());
    let micros = from.elapsed(rt)?.as_micros();
    if made.is_err() {
        anyhow::bail!("a list wasn't made whole");
    }
    Ok(micros)
}

/// How many turns there are where a case is made once, and how many timers run, on the shared words
/// and as steps.
fn make_once<R: Threads + Wait + Sync>(
    rt: &R,
    alloc: Global,
    case: &Case,
    jobs: &JobTable,
) -> anyhow::Result<(usize, u64, u64)> {
    let plan = plan(alloc, case, 1, Crew::Four(16, 32, 48)).map_err(no_memory)?;
    let core = machine(alloc, case.load).map_err(no_memory)?;
    let ran = run(rt, alloc, core, &plan, jobs)?;
    let core = machine(alloc, case.load).map_err(no_memory)?;
    let steps = drawn(alloc, core, case, 1).map_err(no_memory)?;
    Ok((plan.turns.len(), ran.tally.ran, handed(steps.as_slice())))
}

fn main(rt: HostRuntime) -> anyhow::Result<()> {
    let jobs = JobTable::new(Vec::new(rt.alloc()));
    if env::args(&rt)?.count() < 2 {
        for case in &CASES {
            let (turns, words, steps) = make_once(&rt, rt.alloc(), case, &jobs)?;
            let name = case.name;
            println!(&rt; "{name} {turns} {words} {steps}")?;
        }
        return Ok(());
    }
    for _round in 0..ROUNDS {
        for case in &CASES {
            let name = case.name;
            let none = plan(rt.alloc(), case, 0, Crew::Four(16, 32, 48)).map_err(no_memory)?;
            let begin = time_words(&rt, rt.alloc(), case, &none, &jobs)?;
            println!(&rt; "Begin {name} {begin}")?;
            let turns = none.turns.len().saturating_mul(case.rounds as usize);
            for (threads, crew) in CREWS {
                let plan = plan(rt.alloc(), case, case.rounds, crew).map_err(no_memory)?;
                let words = time_words(&rt, rt.alloc(), case, &plan, &jobs)?;
                println!(&rt; "Words {name} {threads} {turns} {words}")?;
            }
            let steps = time_steps(&rt, rt.alloc(), case, case.rounds)?;
            println!(&rt; "Steps {name} {turns} {steps}")?;
        }
    }
    Ok(())
}
