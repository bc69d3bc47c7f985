//! The turns of CPUs.

ghost use Rattle.std.specs.Prelude.{◌≡◌, ◌+◌, ◌≤◌, length};
ghost use Rattle.table_stress.specs.Quiet.{Fits, IsStressedPass, QuietFrom, StaysQuiet};

use crate::calls::{arm_known, cancel_known, rest, rouse, run_due};
use crate::gates::Watch;
use crate::runs::Plan;
use crate::tally::Tally;
use idle_wakeup::{Pass, RunName};
use job_table::Jobs;
use shared_rows::Shared;
use std::alloc::Global;
use std::sync::Wait;
use tm_base::{Class, CpuId, Jiffy, TimerId};
use wheel_core::TimerBase;

/// A timer as it is to be armed, `delay` jiffies from now.
#[derive(Clone, Copy, Debug, PartialEq, Eq)]
pub struct Asked {
    pub timer: TimerId,
    pub class: Class,
    pub delay: u32,
    pub job: u8,
    pub arg: u32,
}

/// What a CPU is to do.
#[derive(Clone, Copy, Debug, PartialEq, Eq)]
pub enum Act {
    /// It arms a timer; one that there isn't is passed over.
    Arm(Asked),
    /// It cancels a timer, wherever that is queued; one that there isn't is passed over.
    Cancel { timer: TimerId },
    /// It goes idle.
    Rest,
    /// It wakes.
    Wake,
    /// It has an interrupt.
    Interrupt,
}

/// A turn: a CPU, and what it is to do.
#[derive(Clone, Copy, Debug, PartialEq, Eq)]
pub struct Turn {
    pub cpu: CpuId,
    pub act: Act,
}

/// The turn of the CPU of a pass.
fn take_own<N: RunName, B: TimerBase, J: Jobs, G: Watch, R: Wait>(
    rt: &R,
    alloc: Global,
    shared: &Shared<N, B>,
    now: Jiffy,
    timers: u16,
    jobs: &J,
    gate: &G,
    act: Act,
    tally: &mut Tally,
    pass: &mut Pass,
)
    requires one { IsStressedPass N.table N.opening pass.old }
    requires fits { Fits N.opening now timers }
    ensures { StaysQuiet N.table N.opening pass.old pass.new }
{
    match act {
        Act::Arm(asked) => arm_known(rt, shared, now, timers, asked, tally, pass),
        Act::Cancel { timer } => cancel_known(rt, shared, now, timers, timer, tally, pass),
        Act::Rest => tally.count_rest(rest(rt, shared, now, timers, gate, pass)),
        Act::Wake => tally.count_wake(rouse(rt, shared, gate, pass)),
        Act::Interrupt => {
            tally.count_interrupt(run_due(rt, alloc, shared, now, timers, jobs, gate, pass))
        },
    }
}

/// A turn, where it is that of a CPU of these passes, which are those of the CPUs from `first` on.
fn take_turn<N: RunName, B: TimerBase, J: Jobs, G: Watch, R: Wait>(
    rt: &R,
    alloc: Global,
    shared: &Shared<N, B>,
    now: Jiffy,
    timers: u16,
    jobs: &J,
    gate: &G,
    turn: Turn,
    first: usize,
    tally: &mut Tally,
    passes: &mut [Pass],
)
    requires each { QuietFrom N.table N.opening first passes.old }
    requires few { first + length passes.old ≤ length N.opening.cpus }
    requires fits { Fits N.opening now timers }
    ensures each { QuietFrom N.table N.opening first passes.new }
    ensures count { length passes.new ≡ length passes.old }
{
    let cpu = usize::from(turn.cpu.0);
    if cpu < first {
        return;
    }
    let place = cpu - first;
    if place < passes.len() {
        gate.before(turn);
        take_own(
            rt,
            alloc,
            shared,
            now,
            timers,
            jobs,
            gate,
            turn.act,
            tally,
            &mut passes[place],
        );
        gate.after(turn);
    }
}

/// Those of the turns that are of CPUs of these passes, one after another.
fn take_all<N: RunName, B: TimerBase, J: Jobs, G: Watch, R: Wait>(
    rt: &R,
    alloc: Global,
    shared: &Shared<N, B>,
    now: Jiffy,
    timers: u16,
    jobs: &J,
    gate: &G,
    turns: &[Turn],
    first: usize,
    tally: &mut Tally,
    passes: &mut [Pass],
)
    requires each { QuietFrom N.table N.opening first passes.old }
    requires few { first + length passes.old ≤ length N.opening.cpus }
    requires fits { Fits N.opening now timers }
    ensures each { QuietFrom N.table N.opening first passes.new }
    ensures count { length passes.new ≡ length passes.old }
{
    for turn in turns {
        take_turn(
            rt, alloc, shared, now, timers, jobs, gate, *turn, first, tally, passes,
        );
    }
}

/// Those of a plan's turns that are of CPUs of these passes, as often as the plan says; and how
/// often CPUs were answered what.
pub(crate) fn take_rounds<N: RunName, B: TimerBase, J: Jobs, G: Watch, R: Wait>(
    rt: &R,
    alloc: Global,
    shared: &Shared<N, B>,
    now: Jiffy,
    timers: u16,
    jobs: &J,
    gate: &G,
    plan: &Plan,
    first: usize,
    passes: &mut [Pass],
) -> Tally
    requires each { QuietFrom N.table N.opening first passes.old }
    requires few { first + length passes.old ≤ length N.opening.cpus }
    requires fits { Fits N.opening now timers }
    ensures each { QuietFrom N.table N.opening first passes.new }
    ensures count { length passes.new ≡ length passes.old }
{
    let mut tally = Tally::new();
    let turns = plan.turns.as_slice();
    for _ in 0..plan.rounds {
        take_all(
            rt, alloc, shared, now, timers, jobs, gate, turns, first, &mut tally, passes,
        );
    }
    tally
}
