//! A run's beginning and end, and the calls of a CPU in it.

ghost use Rattle.std.specs.Prelude.{◌≡◌, ◌-◌, ◌^◌, ◌<◌, ◌≤◌, IfOk, IfSome, OnOk, length, false};
ghost use Rattle.tm_base.specs.declared.names.TheConstants.{TIME_LIMIT};
ghost use Rattle.core_world.specs.Covered.{IsSettled};
ghost use Rattle.core_world.specs.World.{cpu_of};
ghost use Rattle.shared_rows.specs.shared_rule.Passes.{IsOfRun};
ghost use Rattle.shared_rows.specs.shared_table.Begun.{begun_pass, begun_passes};
ghost use Rattle.shared_rows.specs.shared_table.Ended.{AreAllPasses, HasNoBaseBehind};

use crate::cores::likeness;
use job_table::{Job, JobTable, Jobs, OneShot};
use remote_expiry::{Runs, arm, interrupt};
use shared_rows::{Core, Pass, Ready, RunName, Shared, is_settled, no_base_behind};
use std::alloc::Global;
use std::marker::Brand;
use std::sync::Wait;
use tm_base::{Class, FreeGate, Jiffy, NoMemory, OpFault, TimerId};
use wheel_base::WheelBase;

/// The latest jiffy at which the calls are made.
const LATEST: Jiffy = 1000;

/// What is ready for a run over this core; where memory was wanting, made again of the core that
/// came back. None where another one came back.
fn ready_again(alloc: Global, core: Core<WheelBase>) -> Result<Option<Ready<WheelBase>>, NoMemory>
    requires settled { IsSettled core }
    requires whole { HasNoBaseBehind core }
    ensures core { IfOk result (λ r. IfSome r (λ ready. ready.core ≡ core)) }
    ensures made { IfOk result (λ r. IfSome r (λ ready. ready.made ≡ 0)) }
{
    let before = likeness(&core);
    match Ready::prepare(alloc, core, 0) {
        Ok(ready) => Ok(Some(ready)),
        Err((core, _)) => {
            if likeness(&core) != before {
                return Ok(None);
            }
            match Ready::prepare(alloc, core, 0) {
                Ok(ready) => Ok(Some(ready)),
                Err(_) => Err(NoMemory),
            }
        },
    }
}

/// A run that has begun, with its passes; where memory was wanting, begun again of what came back.
fn begin_again<N: RunName>(
    alloc: Global,
    ready: Ready<WheelBase>,
) -> Result<(Shared<N, WheelBase>, Vec<Pass>), NoMemory>
    requires table { ready.table ≡ N.table }
    requires opening { ready.core ≡ N.opening }
    requires made { ready.made ≡ 0 }
    ensures passes { IfOk result (λ r. r.1.items ≡ begun_passes N.table N.opening 0) }
    ensures all { IfOk result (λ r. AreAllPasses N.table (length N.opening.cpus) r.1.items) }
    ensures settled { OnOk result (IsSettled N.opening) }
{
    match Shared::<N, WheelBase>::begin(alloc, ready) {
        Ok(begun) => Ok(begun),
        Err((ready, _)) => match Shared::<N, WheelBase>::begin(alloc, ready) {
            Ok(begun) => Ok(begun),
            Err((_ready, refused)) => Err(refused),
        },
    }
}

/// A run that ends as it has begun.
fn end_at_once<N: RunName>(
    alloc: Global,
    ready: Ready<WheelBase>,
) -> Result<Core<WheelBase>, NoMemory>
    requires table { ready.table ≡ N.table }
    requires opening { ready.core ≡ N.opening }
    requires made { ready.made ≡ 0 }
{
    let (shared, passes) = begin_again::<N>(alloc, ready)?;
    Ok(shared.finish(passes))
}

/// How many timers are due in the interrupt of CPU 0, with that of CPU 1.
const DUE: usize = 3;

/// The interrupt of a CPU. Where memory was wanting, whether it told of no more than was due; else
/// whether it told of all.
fn interrupts<N: RunName, J: Jobs, R: Wait>(
    rt: &R,
    alloc: Global,
    shared: &Shared<N, WheelBase>,
    pass: &mut Pass,
    now: Jiffy,
    jobs: &J,
) -> bool
    requires first { pass.old ≡ begun_pass N.table N.opening 0 pass.old.cpu }
    requires cpu { pass.old.cpu < length N.opening.cpus }
    requires outside { (cpu_of N.opening pass.old.cpu).inside ≡ false }
    requires now { now ≡ N.opening.clock }
    requires in_time { now ≤ TIME_LIMIT - 2 ^ 32 }
    ensures run { IsOfRun N.table pass.new }
    ensures cpu { pass.new.cpu ≡ pass.old.cpu }
{
    pass.law();
    let mut runs = Runs::new(alloc);
    let ended = interrupt(rt, alloc, shared, pass, now, jobs, &FreeGate, &mut runs);
    pass.law();
    match ended {
        Ok(()) => runs.len() == DUE,
        Err(OpFault::NoMemory) => runs.len() <= DUE,
        Err(_) => false,
    }
}

/// Arms the timer that is free; again, where memory was wanting. Had the first call armed it, the
/// second would find it queued.
fn arms<N: RunName, R: Wait>(
    rt: &R,
    shared: &Shared<N, WheelBase>,
    pass: &mut Pass,
    now: Jiffy,
) -> Result<bool, NoMemory>
    requires run { IsOfRun N.table pass.old }
    requires cpu { pass.old.cpu < length N.opening.cpus }
    requires now { now ≡ N.opening.clock }
    requires timer { 3 < N.opening.timers }
    requires in_time { now ≤ TIME_LIMIT - 2 ^ 32 }
{
    let timer = TimerId(3);
    match arm(rt, shared, pass, now, timer, Class::Global, 50, 0, 0, 0) {
        Ok(_) => Ok(true),
        Err(OpFault::NoMemory) => {
            match arm(rt, shared, pass, now, timer, Class::Global, 50, 0, 0, 0) {
                Ok(_) => Ok(true),
                Err(OpFault::NoMemory) => Err(NoMemory),
                Err(_) => Ok(false),
            }
        },
        Err(_) => Ok(false),
    }
}

/// The calls of the first CPU of a run: its interrupt, whether or not memory was wanting, and then
/// an arming, which finds no lock that was left.
fn calls_over<N: RunName, R: Wait>(
    rt: &R,
    alloc: Global,
    now: Jiffy,
    ready: Ready<WheelBase>,
) -> Result<bool, NoMemory>
    requires table { ready.table ≡ N.table }
    requires opening { ready.core ≡ N.opening }
    requires made { ready.made ≡ 0 }
    requires now { now ≡ ready.core.clock }
    requires in_time { now ≤ TIME_LIMIT - 2 ^ 32 }
    requires timers { 3 < ready.core.timers }
{
    let mut list: Vec<Box<dyn Job + Send + Sync>> = Vec::new(alloc);
    list.push(Box::new(alloc, OneShot)?)?;
    let jobs = JobTable::new(list);
    let (shared, mut passes) = begin_again::<N>(alloc, ready)?;
    if passes.is_empty() {
        return Ok(false);
    }
    let pass = &mut passes[0];
    let ran = interrupts(rt, alloc, &shared, pass, now, &jobs);
    Ok(arms(rt, &shared, pass, now)? && ran)
}

/// Begins and ends a run over a core at rest, and then one with calls.
pub(crate) fn run_calls<R: Wait>(
    rt: &R,
    alloc: Global,
    core: Core<WheelBase>,
) -> Result<bool, NoMemory>
    requires settled { IsSettled core }
    requires whole { HasNoBaseBehind core }
{
    let before = likeness(&core);
    let Some(ready) = ready_again(alloc, core)? else {
        return Ok(false);
    };
    let core = end_at_once::<Brand>(alloc, ready)?;
    if likeness(&core) != before || !is_settled(&core) || !no_base_behind(&core) {
        return Ok(false);
    }
    let now = core.now();
    if now > LATEST || core.timers() < 4 {
        return Ok(false);
    }
    let Some(ready) = ready_again(alloc, core)? else {
        return Ok(false);
    };
    calls_over::<Brand, R>(rt, alloc, now, ready)
}
