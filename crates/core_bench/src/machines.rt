//! Cores at their start.

ghost use Rattle.std.specs.Prelude.{◌≡◌, ◌≤◌, All, IfOk, length};
ghost use Rattle.tm_base.specs.declared.limits.TheConstants.{MOST_NODE_CPUS, MOST_NODES};
ghost use Rattle.cpu_bases.specs.CpuBases.{empty_bases};
ghost use Rattle.wheel_base.specs.Wheels.{no_base};

use cpu_bases::Bases;
use std::alloc::Global;
use step_laws::{Core, new_core};
use tm_base::{CpuSet, MOST_NODE_CPUS, MOST_NODES, NoMemory};
use tree_plan::plan;
use wheel_base::WheelBase;

/// A wheel on which nothing is queued.
fn no_timers(alloc: Global) -> Result<WheelBase, NoMemory>
    ensures { IfOk result (λ base. base ≡ no_base) }
{
    match WheelBase::new(alloc) {
        Ok(base) => Ok(base),
        Err(_) => Err(NoMemory),
    }
}

/// The three wheels of a CPU.
fn no_bases(alloc: Global) -> Result<Bases<WheelBase>, NoMemory>
    ensures { IfOk result (λ bases. bases.plain ≡ empty_bases) }
{
    let pinned = no_timers(alloc)?;
    let global = no_timers(alloc)?;
    let deferrable = no_timers(alloc)?;
    Ok(Bases::with(alloc, pinned, global, deferrable))
}

/// The wheels of so many CPUs.
fn bases_of_all(alloc: Global, count: u16) -> Result<Vec<Bases<WheelBase>>, NoMemory>
    ensures count { IfOk result (λ bases. length bases.items ≡ count) }
    ensures empty { IfOk result (λ bases. All (λ b. b.plain ≡ empty_bases) bases.items) }
{
    let mut bases = Vec::new(alloc);
    for _cpu in 0..count {
        let of_cpu = no_bases(alloc)?;
        bases.push(of_cpu)?;
    }
    Ok(bases)
}

/// The core of so many nodes of so many CPUs, none of them isolated, at jiffy 0.
fn new_machine(alloc: Global, nodes: u8, cpus: u8, timers: u16) -> Result<Core<WheelBase>, NoMemory>
    requires some_node { 1 ≤ nodes }
    requires some_cpu { 1 ≤ cpus }
    requires few_nodes { nodes ≤ MOST_NODES }
    requires few_cpus { cpus ≤ MOST_NODE_CPUS }
{
    let tree = plan(alloc, nodes, cpus, &CpuSet::new())?;
    let bases = bases_of_all(alloc, tree.cpu_count())?;
    new_core(alloc, tree, bases, timers)
}

/// The core of so many nodes of so many CPUs, at jiffy 0, where these numbers are within their
/// limits; others are refused as want of memory is.
pub(crate) fn start(
    alloc: Global,
    nodes: u8,
    cpus: u8,
    timers: u16,
) -> Result<Core<WheelBase>, NoMemory> {
    if nodes == 0 || cpus == 0 || nodes > MOST_NODES || cpus > MOST_NODE_CPUS {
        return Err(NoMemory);
    }
    new_machine(alloc, nodes, cpus, timers)
}
