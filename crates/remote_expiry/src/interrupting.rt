//! The interrupt of a CPU.

ghost use Rattle.std.specs.Prelude.{◌≡◌, ◌-◌, ◌^◌, ◌<◌, ◌≤◌, [], MatchResult, false, length, true};
ghost use Rattle.tm_base.specs.declared.names.TheConstants.{TIME_LIMIT};
ghost use Rattle.walk_inactive.specs.shared_rule.declared.parts.PassView.{PassView};
ghost use Rattle.walk_inactive.specs.shared_rule.Passes.{IsOfRun, IsPassIn};
ghost use Rattle.walk_inactive.specs.shared_table.Begun.{IsFree};
ghost use Rattle.shared_acts.specs.Tries.{AtWork, HasClosed};
ghost use Rattle.remote_expiry.specs.Interrupts.{IsPassAtRest, Tells, interrupt_fault_of};
ghost use Rattle.remote_expiry.specs.Trying.{HasDrainedAll, HasWorked, IsEnterable, IsExpiryDone};
ghost use Rattle.remote_expiry.specs.Trying.{IsEntered, StopsPass};

use crate::draining::drain_own;
use crate::looking::look_up;
use cpu_word::CpuState;
use job_table::Jobs;
use shared_acts::{Runs, leave_part};
use std::alloc::Global;
use std::sync::Wait;
use tm_base::{Class, Gate, Jiffy, NoMemory, OpFault};
use walk_inactive::{
    BoxPart, CpuBox, MOST_MADE, Pass, Run, RunName, Shared, bring, carry, enter_step, part_off,
};
use wheel_core::TimerBase;

/// Why a CPU that shows this, and with whose pass so many walks were begun, has no interrupt.
fn interrupt_fault(state: CpuState, walks: u32) -> Option<OpFault>
    ensures { result ≡ interrupt_fault_of state.online walks }
{
    if !state.online {
        Some(OpFault::Offline)
    } else if walks >= MOST_MADE {
        Some(OpFault::Spent { made: walks })
    } else {
        None
    }
}

/// The CPU of a part enters its interrupt, with its own pass, where nothing refuses that.
fn enter_part<N: RunName, B: TimerBase>(
    run: &Run<N, B>,
    part: &mut BoxPart<N, B>,
    pass: &mut Pass,
) -> Result<(), OpFault>
    requires enterable { IsEnterable N.table N.opening pass.old }
    requires own { pass.old.cpu ≡ part.old.box.cpu }
    requires free { IsFree part.old }
    ensures free { IsFree part.new }
    ensures done { IsEntered N.table N.opening pass.old pass.new result }
{
    pass.law();
    part.law();
    if let Some(fault) = interrupt_fault(part.state(), pass.walks()) {
        return Err(fault);
    }
    bring(run, part, pass);
    enter_step(run, part);
    part_off(run, part, pass);
    Ok(())
}

/// The same in the box of the CPU.
fn enter_box<N: RunName, B: TimerBase>(
    run: &Run<N, B>,
    cpu_box: &mut CpuBox<N, B>,
    pass: &mut Pass,
) -> Result<(), OpFault>
    requires enterable { IsEnterable N.table N.opening pass.old }
    requires own { pass.old.cpu ≡ cpu_box.old.box.cpu }
    ensures { IsEntered N.table N.opening pass.old pass.new result }
{
    enter_part(run, &mut cpu_box.part, pass)
}

/// The same, with the CPU's lock taken for it.
fn enter<N: RunName, B: TimerBase, R: Wait>(
    rt: &R,
    shared: &Shared<N, B>,
    pass: &mut Pass,
) -> Result<(), OpFault>
    requires enterable { IsEnterable N.table N.opening pass.old }
    ensures { IsEntered N.table N.opening pass.old pass.new result }
{
    pass.law();
    let mut guard = shared.lock(rt, pass.cpu());
    enter_box(shared.run(), &mut *guard, pass)
}

/// An idle CPU tells its next event anew, with its own pass, and so its interrupt ends.
fn retell_part<N: RunName, B: TimerBase, G: Gate, R: Wait>(
    rt: &R,
    shared: &Shared<N, B>,
    part: &mut BoxPart<N, B>,
    pass: &mut Pass,
    gate: &G,
)
    requires at_work { AtWork N.table N.opening [] 1 pass.old }
    requires own { pass.old.cpu ≡ part.old.box.cpu }
    requires free { IsFree part.old }
    requires idle { part.old.box.own.idle ≡ true }
    ensures free { IsFree part.new }
    ensures closed { HasClosed N.table pass.old pass.new }
{
    pass.law();
    part.law();
    bring(shared.run(), part, pass);
    carry(rt, shared, part, gate);
    part_off(shared.run(), part, pass);
}

/// The interrupt of a part's CPU ends: where the CPU is idle it tells its next event anew, and else
/// it just leaves.
fn end_part<N: RunName, B: TimerBase, G: Gate, R: Wait>(
    rt: &R,
    shared: &Shared<N, B>,
    part: &mut BoxPart<N, B>,
    pass: &mut Pass,
    gate: &G,
)
    requires at_work { AtWork N.table N.opening [] 1 pass.old }
    requires own { pass.old.cpu ≡ part.old.box.cpu }
    requires free { IsFree part.old }
    ensures free { IsFree part.new }
    ensures closed { HasClosed N.table pass.old pass.new }
{
    let idle = part.state().idle;
    if idle {
        retell_part(rt, shared, part, pass, gate);
    } else {
        leave_part(shared.run(), part, pass);
    }
}

/// The same in the box of the CPU.
fn end_box<N: RunName, B: TimerBase, G: Gate, R: Wait>(
    rt: &R,
    shared: &Shared<N, B>,
    cpu_box: &mut CpuBox<N, B>,
    pass: &mut Pass,
    gate: &G,
)
    requires at_work { AtWork N.table N.opening [] 1 pass.old }
    requires own { pass.old.cpu ≡ cpu_box.old.box.cpu }
    ensures { HasClosed N.table pass.old pass.new }
{
    end_part(rt, shared, &mut cpu_box.part, pass, gate);
}

/// The same, with the CPU's lock taken for it.
fn end<N: RunName, B: TimerBase, G: Gate, R: Wait>(
    rt: &R,
    shared: &Shared<N, B>,
    pass: &mut Pass,
    gate: &G,
)
    requires at_work { AtWork N.table N.opening [] 1 pass.old }
    ensures { HasClosed N.table pass.old pass.new }
{
    pass.law();
    let mut guard = shared.lock(rt, pass.cpu());
    end_box(rt, shared, &mut *guard, pass, gate);
}

/// The CPU drains its three own bases, in the kernel's order (`run_timer_softirq`).
fn drain_all<N: RunName, B: TimerBase, J: Jobs, R: Wait>(
    rt: &R,
    alloc: Global,
    shared: &Shared<N, B>,
    pass: &mut Pass,
    now: Jiffy,
    jobs: &J,
    runs: &mut Runs,
) -> Result<(), NoMemory>
    requires at_work { AtWork N.table N.opening [] 1537 pass.old }
    requires now { now ≡ N.opening.clock }
    requires in_time { now ≤ TIME_LIMIT - 2 ^ 32 }
    ensures { MatchResult result
        (λ done. HasDrainedAll N.table N.opening (J.replies jobs.now) pass.old pass.new
        runs.old.runs runs.new.runs)
        (λ e. StopsPass N.table N.opening (J.replies jobs.now) 0 pass.old pass.new
        runs.old.runs runs.new.runs) }
{
    drain_own(rt, alloc, shared, pass, now, Class::Pinned, jobs, runs)?;
    drain_own(rt, alloc, shared, pass, now, Class::Global, jobs, runs)?;
    drain_own(rt, alloc, shared, pass, now, Class::Deferrable, jobs, runs)
}

/// The drains and the looks of an interrupt.
fn work<N: RunName, B: TimerBase, J: Jobs, G: Gate, R: Wait>(
    rt: &R,
    alloc: Global,
    shared: &Shared<N, B>,
    pass: &mut Pass,
    now: Jiffy,
    jobs: &J,
    gate: &G,
    runs: &mut Runs,
) -> Result<(), NoMemory>
    requires at_work { AtWork N.table N.opening [] 1537 pass.old }
    requires now { now ≡ N.opening.clock }
    requires in_time { now ≤ TIME_LIMIT - 2 ^ 32 }
    ensures { MatchResult result
        (λ done. HasWorked N.table N.opening (J.replies jobs.now) pass.old pass.new runs.old.runs
        runs.new.runs)
        (λ e. StopsPass N.table N.opening (J.replies jobs.now) 1536 pass.old pass.new
        runs.old.runs runs.new.runs) }
{
    drain_all(rt, alloc, shared, pass, now, jobs, runs)?;
    look_up(rt, alloc, shared, pass, now, jobs, gate, runs)
}

/// What the CPU does between entering its interrupt and the end, and the end, whatever came.
fn inside<N: RunName, B: TimerBase, J: Jobs, G: Gate, R: Wait>(
    rt: &R,
    alloc: Global,
    shared: &Shared<N, B>,
    pass: &mut Pass,
    now: Jiffy,
    jobs: &J,
    gate: &G,
    runs: &mut Runs,
) -> Result<(), OpFault>
    requires at_work { AtWork N.table N.opening [] 1537 pass.old }
    requires now { now ≡ N.opening.clock }
    requires in_time { now ≤ TIME_LIMIT - 2 ^ 32 }
    ensures { IsExpiryDone N.table N.opening (J.replies jobs.now) pass.old pass.new runs.old.runs
        runs.new.runs result }
{
    let worked = work(rt, alloc, shared, pass, now, jobs, gate, runs);
    end(rt, shared, pass, gate);
    match worked {
        Ok(()) => Ok(()),
        Err(_) => Err(OpFault::NoMemory),
    }
}

/// The interrupt of the pass's CPU at `now`, the time of the run in jiffies: its own bases are
/// drained, pinned, global and deferrable in this order (`run_timer_softirq`), then those idle CPUs
/// are looked after that are due in the groups for which it answers (`tmigr_handle_remote`), and an
/// idle CPU tells its next event anew. What ran is told in `runs`, in order; a run is told as skipped by the
/// timer's word as the pass found it after the hand-out of that run, as the job would have had the
/// timer armed again. `Offline` comes exactly where the CPU is offline, `Spent` exactly where it is
/// online and too many walks were begun with its pass, and then what the pass knows of its CPU's
/// journal is all that may change; after `NoMemory` the interrupt is closed as after Ok: what ran
/// before stands in `runs` and the receipts, and of the drain that found no room nothing went out,
/// or all that was due did, and then each timer has its run but for those that were to be armed
/// again and found no room. One walk is begun for each CPU whose next event is carried upwards, and
/// one more where the CPU itself is idle: at most 1,537. It waits for the lock of one CPU at a time, and holds none while jobs run.
pub fn interrupt<N: RunName, B: TimerBase, J: Jobs, G: Gate, R: Wait>(
    rt: &R,
    alloc: Global,
    shared: &Shared<N, B>,
    pass: &mut Pass,
    now: Jiffy,
    jobs: &J,
    gate: &G,
    runs: &mut Runs,
) -> Result<(), OpFault>
    requires run { IsOfRun N.table pass.old }
    requires cpu { pass.old.cpu < length N.opening.cpus }
    requires now { now ≡ N.opening.clock }
    requires in_time { now ≤ TIME_LIMIT - 2 ^ 32 }
    requires rest { (p : PassView) → IsPassIn N.table pass.old p → IsPassAtRest N.opening p }
    ensures { Tells N.table N.opening (J.replies jobs.now) pass.old pass.new runs.old.runs
        runs.new.runs result }
{
    pass.law();
    match enter(rt, shared, pass) {
        Ok(()) => inside(rt, alloc, shared, pass, now, jobs, gate, runs),
        Err(fault) => Err(fault),
    }
}
