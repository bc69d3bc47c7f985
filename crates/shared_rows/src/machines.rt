//! Cores at rest, on which some timers are queued and some CPUs are idle.

ghost use Rattle.std.specs.Prelude.{◌≡◌, All, IfOk, length};
ghost use Rattle.tree_plan.specs.Shape.{IsWithinLimits};
ghost use Rattle.cpu_bases.specs.CpuBases.{empty_bases};
ghost use Rattle.wheel_base.specs.Wheels.{no_base};

use core_world::Step;
use cpu_bases::Bases;
use shared_table::Core;
use std::alloc::Global;
use step_laws::{apply, enabled, new_core};
use tm_base::{Class, CpuId, CpuSet, MOST_NODE_CPUS, MOST_NODES, NoMemory, TimerId};
use tree_plan::plan;
use wheel_base::WheelBase;

/// The most steps that a walk on three levels makes while it is alone.
const STEPS: u16 = 200;

/// The least delay of a timer, in jiffies.
const DELAY: u64 = 100;

/// A wheel on which nothing is queued.
fn no_timers(alloc: Global) -> Result<WheelBase, NoMemory>
    ensures { IfOk result (λ base. base ≡ no_base) }
{
    match WheelBase::new(alloc) {
        Ok(base) => Ok(base),
        Err(_) => Err(NoMemory),
    }
}

/// The three wheels of a CPU.
fn no_bases(alloc: Global) -> Result<Bases<WheelBase>, NoMemory>
    ensures { IfOk result (λ bases. bases.plain ≡ empty_bases) }
{
    let pinned = no_timers(alloc)?;
    let global = no_timers(alloc)?;
    let deferrable = no_timers(alloc)?;
    Ok(Bases::with(alloc, pinned, global, deferrable))
}

/// The wheels of so many CPUs.
fn bases_of_all(alloc: Global, count: u16) -> Result<Vec<Bases<WheelBase>>, NoMemory>
    ensures count { IfOk result (λ bases. length bases.items ≡ count) }
    ensures empty { IfOk result (λ bases. All (λ b. b.plain ≡ empty_bases) bases.items) }
{
    let mut bases = Vec::new(alloc);
    for _cpu in 0..count {
        let of_cpu = no_bases(alloc)?;
        bases.push(of_cpu)?;
    }
    Ok(bases)
}

/// The core at jiffy 0 of a machine that is within its limits.
fn new_machine(
    alloc: Global,
    nodes: u8,
    cpus: u8,
    isolated: &CpuSet,
    timers: u16,
) -> Result<Core<WheelBase>, NoMemory>
    requires { IsWithinLimits nodes cpus isolated.now }
{
    let tree = plan(alloc, nodes, cpus, isolated)?;
    let bases = bases_of_all(alloc, tree.cpu_count())?;
    new_core(alloc, tree, bases, timers)
}

/// The core at jiffy 0 of so many nodes of so many CPUs, of which some aren't in the hierarchy,
/// where these numbers are within their limits and CPU 0 is in it; others are refused as want of
/// memory is.
pub fn start(
    alloc: Global,
    nodes: u8,
    cpus: u8,
    isolated: &CpuSet,
    timers: u16,
) -> Result<Core<WheelBase>, NoMemory> {
    if nodes == 0 || cpus == 0 || nodes > MOST_NODES || cpus > MOST_NODE_CPUS {
        return Err(NoMemory);
    }
    if isolated.has(CpuId(0)) {
        return Err(NoMemory);
    }
    new_machine(alloc, nodes, cpus, isolated, timers)
}

/// Makes a step where it is enabled.
fn try_step(core: &mut Core<WheelBase>, step: Step) -> Result<(), NoMemory> {
    if enabled(core, &step) {
        apply(core, step)?;
    }
    Ok(())
}

/// The class of a timer: each in turn.
fn class_of(timer: u16) -> Class {
    match timer % 3 {
        0 => Class::Global,
        1 => Class::Pinned,
        _ => Class::Deferrable,
    }
}

/// Queues each timer of the core, on one CPU after another.
fn arm_all(core: &mut Core<WheelBase>) -> Result<(), NoMemory> {
    let count = core.count();
    if count == 0 {
        return Ok(());
    }
    for timer in 0..core.timers() {
        let step = Step::Arm {
            cpu: CpuId(timer % count),
            timer: TimerId(timer),
            class: class_of(timer),
            expires: core.now().saturating_add(DELAY + u64::from(timer)),
            job: 0,
            arg: 0,
            line: 0,
        };
        try_step(core, step)?;
    }
    Ok(())
}

/// Lets a CPU go idle, with the walk that it begins.
fn idle(core: &mut Core<WheelBase>, cpu: CpuId) -> Result<(), NoMemory> {
    try_step(core, Step::Idle { cpu })?;
    for _step in 0..STEPS {
        try_step(core, Step::Walk { cpu })?;
    }
    Ok(())
}

/// Queues all timers, and lets two of three CPUs go idle.
pub fn stir(core: &mut Core<WheelBase>) -> Result<(), NoMemory> {
    arm_all(core)?;
    for cpu in 0..core.count() {
        if cpu % 3 != 1 {
            idle(core, CpuId(cpu))?;
        }
    }
    Ok(())
}
