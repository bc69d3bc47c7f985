//! Generated scripts.

ghost use Rattle.std.specs.Prelude.{◌≡◌, ◌+◌, ◌-◌, ◌*◌, ◌<◌, ◌≤◌, ◌++◌, map, IfOk, OnOk};
ghost use Rattle.std.specs.List.{range_with_len};
ghost use Rattle.tm_base.specs.declared.limits.TheConstants.{MOST_CPUS_V1, MOST_TIMERS};
ghost use Rattle.tm_script.specs.Grammar.{IsScript};
ghost use Rattle.tm_generate.specs.Generated.{answer, arming, generated_arming, idling, next};
ghost use Rattle.tm_generate.specs.Generated.{x_after};
ghost use Rattle.tm_generate.specs.Generated.{choice, generated, later_moment};

use crate::draws::Draws;
use std::alloc::Global;
use tm_base::{Class, CpuId, CpuSet, NoMemory, TimerId};
use tm_script::{Moment, Moments, Op, Ops, Script, What};

/// The most moments of one operation that a generated script may have.
pub const MOST_MOMENTS: u16 = 1_000;

/// The arming of timer `i`.
fn arming(draws: &mut Draws, cpus: u8, i: u16) -> Op
    requires some { 1 ≤ cpus }
    requires few { i < MOST_TIMERS }
    ensures x { draws.new.x ≡ next (next (next draws.old.x)) }
    ensures op { result ≡ generated_arming cpus i (answer (next draws.old.x) 8)
        (answer (next (next draws.old.x)) 480) (answer (next (next (next draws.old.x))) 950) }
{
    let p = draws.draw(8);
    let d = draws.draw(480);
    let a = draws.draw(950);
    let (class, job) = if p == 0 {
        (Class::Pinned, 2)
    } else {
        (Class::Global, 1)
    };
    let what = What::Arm {
        timer: TimerId(i),
        class,
        delay: 20 + d as u32,
        job,
        arg: 50 + a as u32,
    };
    Op {
        line: 6 + u32::from(i),
        cpu: CpuId(i % u16::from(cpus)),
        what,
    }
}

/// The armings of all timers.

fn armings(
    alloc: Global,
    draws: &mut Draws,
    number: u32,
    cpus: u8,
    timers: u16,
) -> Result<Ops, NoMemory>
    requires start { draws.old.x ≡ number }
    requires some { 1 ≤ cpus }
    requires few { timers ≤ MOST_TIMERS }
    ensures ops { IfOk result (λ ops. ops ≡ map (arming number cpus) (range_with_len 0 timers)) }
    ensures x { OnOk result (draws.new.x ≡ x_after number (3 * timers)) }
{
    let mut ops = Ops::new(alloc);
    for i in 0..timers {
        ops.push(arming(draws, cpus, i))?;
    }
    Ok(ops)
}

/// All CPUs but the first go idle.
fn idlings(alloc: Global, cpus: u8, timers: u16) -> Result<Ops, NoMemory>
    requires some { 1 ≤ cpus }
    requires few { timers ≤ MOST_TIMERS }
    ensures { IfOk result (λ ops. ops ≡ map (idling timers) (range_with_len 1 (cpus - 1))) }
{
    let mut ops = Ops::new(alloc);
    for cpu in 1..cpus {
        let op = Op {
            line: 6 + u32::from(timers) + u32::from(cpu),
            cpu: CpuId(u16::from(cpu)),
            what: What::Idle,
        };
        ops.push(op)?;
    }
    Ok(ops)
}

/// What is done, by a draw.
fn choice(r: u64, timer: TimerId) -> What
    requires { r < 4 }
    ensures { result ≡ choice r timer.0 timer.0 }
{
    match r {
        0 => What::Wake,
        1 | 2 => What::Idle,
        _ => What::Cancel { timer },
    }
}

/// The operation of moment `j`, counted from 1.
fn later_op(draws: &mut Draws, cpus: u8, timers: u16, j: u16) -> Op
    requires some_cpus { 1 ≤ cpus }
    requires some_timers { 1 ≤ timers }
    requires few_timers { timers ≤ MOST_TIMERS }
    requires few { j ≤ MOST_MOMENTS }
    ensures x { draws.new.x ≡ next (next (next draws.old.x)) }
    ensures op { result ≡ record {
      line = 5 + timers + cpus + 2 * j;
      cpu = record { 0 = answer (next (next draws.old.x)) cpus };
      what = choice (answer (next draws.old.x) 4) (answer (next (next draws.old.x)) cpus)
          (answer (next (next (next draws.old.x))) timers);
    } }
{
    let r = draws.draw(4);
    let c = draws.draw(u64::from(cpus));
    let t = draws.draw(u64::from(timers));
    Op {
        line: 5 + u32::from(timers) + u32::from(cpus) + 2 * u32::from(j),
        cpu: CpuId(c as u16),
        what: choice(r, TimerId(t as u16)),
    }
}

/// Adds the moments of one operation each.

fn add_later(
    alloc: Global,
    list: &mut Moments,
    draws: &mut Draws,
    number: u32,
    cpus: u8,
    timers: u16,
    moments: u16,
) -> Result<(), NoMemory>
    requires start { draws.old.x ≡ x_after number (3 * timers) }
    requires some_cpus { 1 ≤ cpus }
    requires some_timers { 1 ≤ timers }
    requires few_timers { timers ≤ MOST_TIMERS }
    requires few { moments ≤ MOST_MOMENTS }
    ensures { OnOk result
        (list.new ≡ list.old ++ map (later_moment number cpus timers) (range_with_len 1 moments)) }
{
    for j in 0..moments {
        let mut ops = Ops::new(alloc);
        ops.push(later_op(draws, cpus, timers, j + 1))?;
        let at = 5 * (u64::from(j) + 1);
        list.push(Moment { at, ops })?;
    }
    Ok(())
}

/// The script of a number, part by part.
#[tactic(auto, unfolding(crate::specs::Generated::generated))]
fn made(alloc: Global, number: u32, cpus: u8, timers: u16, moments: u16) -> Result<Script, NoMemory>
    requires some_cpus { 1 ≤ cpus }
    requires some_timers { 1 ≤ timers }
    requires few_timers { timers ≤ MOST_TIMERS }
    requires few_moments { moments ≤ MOST_MOMENTS }
    ensures { IfOk result (λ s. s ≡ generated number cpus timers moments) }
{
    let mut draws = Draws {
        x: u64::from(number),
    };
    let mut list = Moments::new(alloc);
    let ops = armings(alloc, &mut draws, number, cpus, timers)?;
    list.push(Moment { at: 0, ops })?;
    let ops = idlings(alloc, cpus, timers)?;
    list.push(Moment { at: 1, ops })?;
    add_later(alloc, &mut list, &mut draws, number, cpus, timers, moments)?;
    Ok(Script {
        version: 1,
        nodes: 1,
        cpus,
        timers,
        isolated: CpuSet::new(),
        moments: list,
        end: 5 * (u64::from(moments) + 1),
    })
}

/// The script of a number, of version 1: one node of these CPUs, and these timers.
///
/// Each timer is armed at jiffy 0, all CPUs but the first go idle at jiffy 1, and then every fifth
/// jiffy has one operation, so many times.
pub fn generate(
    alloc: Global,
    number: u32,
    cpus: u8,
    timers: u16,
    moments: u16,
) -> Result<Script, NoMemory>
    requires some_cpus { 1 ≤ cpus }
    requires few_cpus { cpus ≤ MOST_CPUS_V1 }
    requires some_timers { 1 ≤ timers }
    requires few_timers { timers ≤ MOST_TIMERS }
    requires some_moments { 1 ≤ moments }
    requires few_moments { moments ≤ MOST_MOMENTS }
    ensures made { IfOk result (λ s. s ≡ generated number cpus timers moments) }
    ensures script { IfOk result IsScript }
{
    made(alloc, number, cpus, timers, moments)
}
