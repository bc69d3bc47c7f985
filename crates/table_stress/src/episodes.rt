//! Episodes: a machine from its start through some runs, all drawn by one seed.

use crate::checks::{Flaw, first_flaw, is_all_done, is_quiet_at};
use crate::drawing::{CPUS, Draws, TIMERS, drawn_crew, drawn_cuts, drawn_gate, drawn_turns};
use crate::gates::Watch;
use crate::noted::{are_new_entries, handed, lengths};
use crate::runs::{LATEST, Plan, Ran, run_plan};
use crate::tally::Tally;
use crate::turns::{Act, Turn};
use core_world::Step;
use idle_wakeup::Core;
use job_table::{Job, JobTable, Jobs, Marker, OneShot, Periodic};
use shared_rows::{is_settled, no_base_behind, run_steps, start};
use std::alloc::Global;
use std::sync::Wait;
use std::thread::Threads;
use tm_base::{Class, CpuId, CpuSet, FreeGate, NoMemory};
use wheel_base::WheelBase;

/// How many runs an episode has, each behind a jump of the clock.
pub const RUNS: u32 = 4;

/// How many turns a run has.
const TURNS: u16 = 32;

/// The longest jump of the clock, in jiffies.
const JUMP: u16 = 50;

/// A run that isn't as it has to be: which of its episode, from 0, what was found, and its turns.
#[derive(Drop)]
pub struct Broken {
    pub run: u32,
    pub flaw: Flaw,
    pub turns: Vec<Turn>,
}

/// How many answers a tally counts.
fn answers(tally: &Tally) -> u64 {
    let timers = [tally.armed, tally.queued, tally.cancelled, tally.nowhere];
    let walks = [tally.rested, tally.stayed, tally.woken, tally.interrupted];
    let others = [tally.refused, tally.spent, tally.short];
    let mut all = 0u64;
    for count in timers {
        all = all.saturating_add(count);
    }
    for count in walks {
        all = all.saturating_add(count);
    }
    for count in others {
        all = all.saturating_add(count);
    }
    all
}

/// Whether the last turn of a CPU is an interrupt.
fn ends_with_interrupt(turns: &[Turn], cpu: CpuId) -> bool {
    let mut last = false;
    for turn in turns {
        if turn.cpu == cpu {
            last = turn.act == Act::Interrupt;
        }
    }
    last
}

/// Whether nothing that is due is left on a CPU whose last turn is an interrupt.
fn none_left(core: &Core<WheelBase>, turns: &[Turn]) -> bool {
    for cpu in 0..core.count() {
        if ends_with_interrupt(turns, CpuId(cpu)) && !is_quiet_at(core, CpuId(cpu)) {
            return false;
        }
    }
    true
}

/// The first flaw of what a run of a plan gave back, over a core whose journals were so long.
fn flaw_of(
    alloc: Global,
    before: &[usize],
    plan: &Plan,
    ran: &Ran,
) -> Result<Option<Flaw>, NoMemory> {
    if let Some(flaw) = first_flaw(alloc, &ran.core)? {
        return Ok(Some(flaw));
    }
    if !are_new_entries(alloc, &ran.core, before, ran.receipts.as_slice())? {
        return Ok(Some(Flaw::Receipts));
    }
    if handed(ran.receipts.as_slice()) != ran.tally.ran {
        return Ok(Some(Flaw::Runs));
    }
    if !none_left(&ran.core, plan.turns.as_slice()) {
        return Ok(Some(Flaw::LeftDue));
    }
    let turns = (plan.turns.len() as u64).saturating_mul(u64::from(plan.rounds));
    if answers(&ran.tally) != turns || ran.tally.spent != 0 || ran.tally.short != 0 {
        return Ok(Some(Flaw::Answers));
    }
    Ok(None)
}

/// A run over a core, whose passes begin with no walk, and its first flaw; or the flaw that the
/// core has before it.
pub fn judged<J: Jobs + Sync, G: Watch + Sync, R: Threads + Wait + Sync>(
    rt: &R,
    alloc: Global,
    core: Core<WheelBase>,
    plan: &Plan,
    jobs: &J,
    gate: &G,
) -> Result<Result<Ran, Flaw>, NoMemory> {
    if !is_settled(&core) {
        return Ok(Err(Flaw::NotAtRest));
    }
    if !no_base_behind(&core) || core.now() > LATEST {
        return Ok(Err(Flaw::Behind));
    }
    let before = lengths(alloc, &core)?;
    let ran = run_plan(rt, alloc, core, 0, plan, jobs, gate)?;
    match flaw_of(alloc, before.as_slice(), plan, &ran)? {
        Some(flaw) => Ok(Err(flaw)),
        None => Ok(Ok(ran)),
    }
}

/// An interrupt of each CPU that has to have one: the active ones, and idle ones that are to wake
/// by now.
fn due_interrupts(alloc: Global, core: &Core<WheelBase>) -> Result<Vec<Turn>, NoMemory> {
    let mut turns = Vec::new(alloc);
    for cpu in 0..core.count() {
        let cpu = CpuId(cpu);
        let state = core.cpu(cpu);
        if !state.idle || state.wakeup <= core.now() {
            turns.push(Turn {
                cpu,
                act: Act::Interrupt,
            })?;
        }
    }
    Ok(turns)
}

/// Time goes on by as many jiffies as are drawn.
fn jump(alloc: Global, draws: &mut Draws, core: &mut Core<WheelBase>) -> Result<(), NoMemory> {
    let now = core.now().saturating_add(u64::from(draws.below(JUMP)));
    let mut steps = Vec::new(alloc);
    steps.push(Step::Clock { now })?;
    match run_steps(core, steps.as_slice()) {
        Ok(()) => Ok(()),
        Err(_) => Err(NoMemory),
    }
}

/// A plan, drawn and made: the core that it left, or its flaw with the turns.
fn drawn_run<J: Jobs + Sync, R: Threads + Wait + Sync>(
    rt: &R,
    alloc: Global,
    draws: &mut Draws,
    core: Core<WheelBase>,
    turns: Vec<Turn>,
    jobs: &J,
) -> Result<Result<Ran, (Flaw, Vec<Turn>)>, NoMemory> {
    let cuts = drawn_cuts(draws);
    let plan = Plan {
        turns,
        rounds: 1,
        crew: drawn_crew(cuts),
    };
    let gate = drawn_gate(alloc, draws, cuts)?;
    let judged = if draws.below(2) == 0 {
        judged(rt, alloc, core, &plan, jobs, &FreeGate)?
    } else {
        judged(rt, alloc, core, &plan, jobs, &gate)?
    };
    match judged {
        Ok(ran) => Ok(Ok(ran)),
        Err(flaw) => Ok(Err((flaw, plan.turns))),
    }
}

/// An interrupt of each CPU that has to have one, from four threads: nothing due is left.
fn sweep<J: Jobs + Sync, R: Threads + Wait + Sync>(
    rt: &R,
    alloc: Global,
    draws: &mut Draws,
    core: Core<WheelBase>,
    jobs: &J,
) -> Result<Result<Ran, (Flaw, Vec<Turn>)>, NoMemory> {
    let turns = due_interrupts(alloc, &core)?;
    match drawn_run(rt, alloc, draws, core, turns, jobs)? {
        Ok(ran) => {
            if is_all_done(&ran.core) {
                Ok(Ok(ran))
            } else {
                Ok(Err((Flaw::LeftOver, due_interrupts(alloc, &ran.core)?)))
            }
        },
        Err(broken) => Ok(Err(broken)),
    }
}

/// A run of an episode, behind a jump of the clock: one of two is of interrupts alone.
fn next_run<J: Jobs + Sync, R: Threads + Wait + Sync>(
    rt: &R,
    alloc: Global,
    draws: &mut Draws,
    core: Core<WheelBase>,
    jobs: &J,
) -> Result<Result<Ran, (Flaw, Vec<Turn>)>, NoMemory> {
    let mut core = core;
    jump(alloc, draws, &mut core)?;
    if draws.below(2) == 0 {
        sweep(rt, alloc, draws, core, jobs)
    } else {
        let turns = drawn_turns(alloc, draws, TURNS)?;
        drawn_run(rt, alloc, draws, core, turns, jobs)
    }
}

/// The CPUs that aren't in the hierarchy: none in three of four machines, else one.
fn drawn_isolated(draws: &mut Draws) -> CpuSet {
    let mut isolated = CpuSet::new();
    if draws.below(4) == 0 {
        isolated.add(CpuId(1 + draws.below(CPUS - 1) % (CPUS - 1)));
    }
    isolated
}

/// The runs of the episode of this seed, up to the first that isn't as it has to be; and what its
/// CPUs were answered. Of its jobs one is done after one run, one leaves a mark, and three arm
/// their timer again, as a global, a pinned and a deferrable one.
pub fn episode<R: Threads + Wait + Sync>(
    rt: &R,
    alloc: Global,
    seed: u64,
) -> Result<Result<Tally, Broken>, NoMemory> {
    let mut jobs: Vec<Box<dyn Job + Send + Sync>> = Vec::new(alloc);
    jobs.push(Box::new(alloc, OneShot)?)?;
    jobs.push(Box::new(alloc, Marker)?)?;
    jobs.push(Box::new(
        alloc,
        Periodic {
            class: Class::Global,
        },
    )?)?;
    jobs.push(Box::new(
        alloc,
        Periodic {
            class: Class::Pinned,
        },
    )?)?;
    jobs.push(Box::new(
        alloc,
        Periodic {
            class: Class::Deferrable,
        },
    )?)?;
    let jobs = JobTable::new(jobs);
    let mut draws = Draws(seed);
    let isolated = drawn_isolated(&mut draws);
    let mut core = start(alloc, 1, CPUS as u8, &isolated, TIMERS)?;
    let mut tally = Tally::new();
    for run in 0..RUNS {
        match next_run(rt, alloc, &mut draws, core, &jobs)? {
            Ok(ran) => {
                tally = tally.with(ran.tally);
                core = ran.core;
            },
            Err((flaw, turns)) => return Ok(Err(Broken { run, flaw, turns })),
        }
    }
    Ok(Ok(tally))
}
