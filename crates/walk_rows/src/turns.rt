//! A CPU's turn: it rests, or wakes.

ghost use Rattle.std.specs.Prelude.{◌≡◌, ◌+◌, ◌≤◌, length};
ghost use Rattle.shared_rows.specs.Looks.{StaysAt};
ghost use Rattle.shared_rows.specs.shared_table.Ended.{PassesFrom};
ghost use Rattle.walk_rows.specs.Standing.{IsOneOf};

use crate::gates::Watch;
use crate::runs::Plan;
use crate::tally::Tally;
use idle_wakeup::{IdleAnswer, Pass, RunName, go_idle, wake};
use shared_rows::Shared;
use std::sync::Wait;
use tm_base::{CpuId, Gate, Jiffy, OpFault};
use wheel_core::TimerBase;

/// What a CPU is to do.
#[derive(Clone, Copy, Debug, PartialEq, Eq)]
pub enum Turn {
    /// It goes idle.
    Rest(CpuId),
    /// It wakes.
    Wake(CpuId),
}

/// The CPU whose turn it is.
fn cpu_of(turn: Turn) -> CpuId {
    match turn {
        Turn::Rest(cpu) => cpu,
        Turn::Wake(cpu) => cpu,
    }
}

/// The CPU of a pass goes idle.
fn rest<N: RunName, B: TimerBase, G: Gate, R: Wait>(
    rt: &R,
    shared: &Shared<N, B>,
    now: Jiffy,
    gate: &G,
    pass: &mut Pass,
) -> Result<IdleAnswer, OpFault>
    requires one { IsOneOf N.table N.opening pass.old }
    requires now { now ≡ N.opening.clock }
    ensures { StaysAt N.table pass.old pass.new }
{
    pass.law();
    go_idle(rt, shared, pass, now, gate)
}

/// The CPU of a pass wakes.
fn rouse<N: RunName, B: TimerBase, G: Gate, R: Wait>(
    rt: &R,
    shared: &Shared<N, B>,
    gate: &G,
    pass: &mut Pass,
) -> Result<(), OpFault>
    requires { IsOneOf N.table N.opening pass.old }
    ensures { StaysAt N.table pass.old pass.new }
{
    pass.law();
    wake(rt, shared, pass, gate)
}

/// Counts what a CPU was answered that was to go idle.
fn count_rest(tally: &mut Tally, answer: Result<IdleAnswer, OpFault>) {
    match answer {
        Ok(IdleAnswer::Until(at)) => tally.rest(at),
        Ok(IdleAnswer::Stay(_)) => tally.stay(),
        Err(_) => tally.refuse(),
    }
}

/// Counts what a CPU was answered that was to wake.
fn count_wake(tally: &mut Tally, answer: Result<(), OpFault>) {
    match answer {
        Ok(()) => tally.wake(),
        Err(_) => tally.refuse(),
    }
}

/// The turn of the CPU of a pass.
fn take_own<N: RunName, B: TimerBase, G: Watch, R: Wait>(
    rt: &R,
    shared: &Shared<N, B>,
    now: Jiffy,
    gate: &G,
    turn: Turn,
    tally: &mut Tally,
    pass: &mut Pass,
)
    requires one { IsOneOf N.table N.opening pass.old }
    requires now { now ≡ N.opening.clock }
    ensures { StaysAt N.table pass.old pass.new }
{
    gate.before(turn);
    match turn {
        Turn::Rest(_) => count_rest(tally, rest(rt, shared, now, gate, pass)),
        Turn::Wake(_) => count_wake(tally, rouse(rt, shared, gate, pass)),
    }
    gate.after(turn);
}

/// A turn, where it is that of a CPU of these passes, which are those of the CPUs from `first` on.
fn take_turn<N: RunName, B: TimerBase, G: Watch, R: Wait>(
    rt: &R,
    shared: &Shared<N, B>,
    now: Jiffy,
    gate: &G,
    turn: Turn,
    first: usize,
    tally: &mut Tally,
    passes: &mut [Pass],
)
    requires each { PassesFrom N.table first passes.old }
    requires few { first + length passes.old ≤ length N.opening.cpus }
    requires now { now ≡ N.opening.clock }
    ensures each { PassesFrom N.table first passes.new }
    ensures count { length passes.new ≡ length passes.old }
{
    let cpu = usize::from(cpu_of(turn).0);
    if cpu < first {
        return;
    }
    let place = cpu - first;
    if place < passes.len() {
        take_own(rt, shared, now, gate, turn, tally, &mut passes[place]);
    }
}

/// Those of the turns that are of CPUs of these passes, one after another.
fn take_all<N: RunName, B: TimerBase, G: Watch, R: Wait>(
    rt: &R,
    shared: &Shared<N, B>,
    now: Jiffy,
    gate: &G,
    turns: &[Turn],
    first: usize,
    tally: &mut Tally,
    passes: &mut [Pass],
)
    requires each { PassesFrom N.table first passes.old }
    requires few { first + length passes.old ≤ length N.opening.cpus }
    requires now { now ≡ N.opening.clock }
    ensures each { PassesFrom N.table first passes.new }
    ensures count { length passes.new ≡ length passes.old }
{
    for turn in turns {
        take_turn(rt, shared, now, gate, *turn, first, tally, passes);
    }
}

/// Those of a plan's turns that are of CPUs of these passes, as often as the plan says; and how
/// often CPUs were answered what.
pub(crate) fn take_rounds<N: RunName, B: TimerBase, G: Watch, R: Wait>(
    rt: &R,
    shared: &Shared<N, B>,
    now: Jiffy,
    gate: &G,
    plan: &Plan,
    first: usize,
    passes: &mut [Pass],
) -> Tally
    requires each { PassesFrom N.table first passes.old }
    requires few { first + length passes.old ≤ length N.opening.cpus }
    requires now { now ≡ N.opening.clock }
    ensures each { PassesFrom N.table first passes.new }
    ensures count { length passes.new ≡ length passes.old }
{
    let mut tally = Tally::new();
    let turns = plan.turns.as_slice();
    for _ in 0..plan.rounds {
        take_all(rt, shared, now, gate, turns, first, &mut tally, passes);
    }
    tally
}
