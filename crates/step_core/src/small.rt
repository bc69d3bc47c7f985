//! The start of a small machine, for worked rows and tests.

ghost use Rattle.std.specs.Prelude.{◌≡◌, ◌≤◌, All, IfOk, length};
ghost use Rattle.std.specs.FinSet.{empty};
ghost use Rattle.tm_base.specs.declared.limits.TheConstants.{MOST_NODE_CPUS};
ghost use Rattle.tree_plan.specs.Shape.{tree_of};
ghost use Rattle.cpu_bases.specs.CpuBases.{empty_bases};
ghost use Rattle.core_world.specs.Start.{start_of};

use crate::start::new_core;
use core_steps::Core;
use cpu_bases::Bases;
use std::alloc::Global;
use tm_base::{CpuSet, NoMemory};
use tree_plan::plan;
use wheel_core::ListBase;

/// The bases of a CPU on which nothing is queued.
fn no_timers(alloc: Global) -> Bases<ListBase>
    ensures { result.plain ≡ empty_bases }
{
    Bases::with(
        alloc,
        ListBase::new(alloc),
        ListBase::new(alloc),
        ListBase::new(alloc),
    )
}

/// The bases of so many CPUs, on which nothing is queued.
fn new_bases(alloc: Global, count: u16) -> Result<Vec<Bases<ListBase>>, NoMemory>
    ensures count { IfOk result (λ bases. length bases.items ≡ count) }
    ensures empty { IfOk result (λ bases. All (λ b. b.plain ≡ empty_bases) bases.items) }
{
    let mut bases = Vec::new(alloc);
    for _cpu in 0..count {
        bases.push(no_timers(alloc))?;
    }
    Ok(bases)
}

/// The core at jiffy 0 of a machine of one node of 1 to 64 CPUs, none of them isolated, with so
/// many timers. Its bases are plain lists, so that each call goes over all timers of a base.
pub fn one_node_core(alloc: Global, cpus: u8, timers: u16) -> Result<Core<ListBase>, NoMemory>
    requires some { 1 ≤ cpus }
    requires few { cpus ≤ MOST_NODE_CPUS }
    ensures { IfOk result (λ core. core ≡ start_of (tree_of 1 cpus empty) timers) }
{
    let tree = plan(alloc, 1, cpus, &CpuSet::new())?;
    let bases = new_bases(alloc, tree.cpu_count())?;
    new_core(alloc, tree, bases, timers)
}
