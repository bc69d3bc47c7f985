//! What a CPU's thread calls, and what its pass is afterwards.

ghost use Rattle.std.specs.Prelude.{◌<◌};
ghost use Rattle.table_stress.specs.Quiet.{Fits, IsStressedPass, StaysQuiet};

use crate::tally::Tally;
use crate::turns::Asked;
use idle_wakeup::{IdleAnswer, Pass, RunName, go_idle, wake};
use job_table::Jobs;
use remote_expiry::{Runs, arm, cancel, interrupt};
use shared_rows::Shared;
use std::alloc::Global;
use std::sync::Wait;
use tm_base::{CpuId, Gate, Jiffy, OpFault, TimerId};
use wheel_core::TimerBase;

/// The CPU of a pass arms a timer of the run.
fn arm_own<N: RunName, B: TimerBase, R: Wait>(
    rt: &R,
    shared: &Shared<N, B>,
    now: Jiffy,
    timers: u16,
    asked: Asked,
    pass: &mut Pass,
) -> Result<Jiffy, OpFault>
    requires one { IsStressedPass N.table N.opening pass.old }
    requires fits { Fits N.opening now timers }
    requires known { asked.timer.0 < timers }
    ensures { StaysQuiet N.table N.opening pass.old pass.new }
{
    let Asked {
        timer,
        class,
        delay,
        job,
        arg,
    } = asked;
    pass.law();
    arm(rt, shared, pass, now, timer, class, delay, job, arg, 1)
}

/// The same, counted; a timer that there isn't is passed over.
pub(crate) fn arm_known<N: RunName, B: TimerBase, R: Wait>(
    rt: &R,
    shared: &Shared<N, B>,
    now: Jiffy,
    timers: u16,
    asked: Asked,
    tally: &mut Tally,
    pass: &mut Pass,
)
    requires one { IsStressedPass N.table N.opening pass.old }
    requires fits { Fits N.opening now timers }
    ensures { StaysQuiet N.table N.opening pass.old pass.new }
{
    if asked.timer.0 < timers {
        tally.count_arm(arm_own(rt, shared, now, timers, asked, pass));
    }
}

/// The CPU of a pass cancels a timer of the run.
fn cancel_own<N: RunName, B: TimerBase, R: Wait>(
    rt: &R,
    shared: &Shared<N, B>,
    now: Jiffy,
    timers: u16,
    timer: TimerId,
    pass: &mut Pass,
) -> Result<Option<CpuId>, OpFault>
    requires one { IsStressedPass N.table N.opening pass.old }
    requires fits { Fits N.opening now timers }
    requires known { timer.0 < timers }
    ensures { StaysQuiet N.table N.opening pass.old pass.new }
{
    pass.law();
    cancel(rt, shared, pass, now, timer, 1)
}

/// The same, counted; a timer that there isn't is passed over.
pub(crate) fn cancel_known<N: RunName, B: TimerBase, R: Wait>(
    rt: &R,
    shared: &Shared<N, B>,
    now: Jiffy,
    timers: u16,
    timer: TimerId,
    tally: &mut Tally,
    pass: &mut Pass,
)
    requires one { IsStressedPass N.table N.opening pass.old }
    requires fits { Fits N.opening now timers }
    ensures { StaysQuiet N.table N.opening pass.old pass.new }
{
    if timer.0 < timers {
        tally.count_cancel(cancel_own(rt, shared, now, timers, timer, pass));
    }
}

/// The CPU of a pass goes idle.
pub(crate) fn rest<N: RunName, B: TimerBase, G: Gate, R: Wait>(
    rt: &R,
    shared: &Shared<N, B>,
    now: Jiffy,
    timers: u16,
    gate: &G,
    pass: &mut Pass,
) -> Result<IdleAnswer, OpFault>
    requires one { IsStressedPass N.table N.opening pass.old }
    requires fits { Fits N.opening now timers }
    ensures { StaysQuiet N.table N.opening pass.old pass.new }
{
    pass.law();
    go_idle(rt, shared, pass, now, gate)
}

/// The CPU of a pass wakes.
pub(crate) fn rouse<N: RunName, B: TimerBase, G: Gate, R: Wait>(
    rt: &R,
    shared: &Shared<N, B>,
    gate: &G,
    pass: &mut Pass,
) -> Result<(), OpFault>
    requires { IsStressedPass N.table N.opening pass.old }
    ensures { StaysQuiet N.table N.opening pass.old pass.new }
{
    pass.law();
    wake(rt, shared, pass, gate)
}

/// The CPU of a pass has an interrupt, which ran so many timers.
pub(crate) fn run_due<N: RunName, B: TimerBase, J: Jobs, G: Gate, R: Wait>(
    rt: &R,
    alloc: Global,
    shared: &Shared<N, B>,
    now: Jiffy,
    timers: u16,
    jobs: &J,
    gate: &G,
    pass: &mut Pass,
) -> (Result<(), OpFault>, usize)
    requires one { IsStressedPass N.table N.opening pass.old }
    requires fits { Fits N.opening now timers }
    ensures { StaysQuiet N.table N.opening pass.old pass.new }
{
    let mut runs = Runs::new(alloc);
    pass.law();
    let ended = interrupt(rt, alloc, shared, pass, now, jobs, gate, &mut runs);
    (ended, runs.len())
}
