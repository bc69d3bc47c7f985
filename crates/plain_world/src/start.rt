//! The start.

ghost use Rattle.std.specs.Prelude.{◌≡◌, ◌<◌, IfOk, map, replicate};
ghost use Rattle.std.specs.List.{range_with_len};
ghost use Rattle.tree_plan.specs.Paths.{child_count_of, group_count_of};
ghost use Rattle.tree_plan.specs.Shape.{IsWithinLimits, tree_of};
ghost use Rattle.core_world.specs.Start.{start_cpu, start_group, start_of};

use crate::cpu::PlainCpu;
use crate::group::PlainGroup;
use crate::planned::PlannedTree;
use crate::world::PlainWorld;
use std::alloc::Global;
use std::rc::Rc;
use tm_base::{CpuSet, GroupId, NoMemory};
use tree_plan::{Tree, law_cuts};

/// So many CPUs at the start.
fn new_cpus(alloc: Global, count: u16) -> Result<Vec<PlainCpu>, NoMemory>
    ensures { IfOk result (λ cpus. cpus.items ≡ replicate count start_cpu) }
{
    let mut cpus = Vec::new(alloc);
    for _cpu in 0..count {
        cpus.push(PlainCpu::new(alloc))?;
    }
    Ok(cpus)
}

/// A group of a tree, all of whose children are active.
fn new_group(tree: &Tree, group: GroupId) -> PlainGroup
    requires { group.0 < group_count_of tree.now }
    ensures { result ≡ start_group (child_count_of tree.now group.0) }
{
    law_cuts();
    tree.cpu_count();
    PlainGroup::new(tree.children(group))
}

/// The groups of a tree.
fn new_groups(alloc: Global, tree: &Tree) -> Result<Vec<PlainGroup>, NoMemory>
    ensures { IfOk result (λ groups. groups.items
        ≡ map (λ g. start_group (child_count_of tree.now g))
        (range_with_len 0 (group_count_of tree.now))) }
{
    let mut groups = Vec::new(alloc);
    for group in 0..tree.group_count() {
        groups.push(new_group(tree, GroupId(group)))?;
    }
    Ok(groups)
}

impl PlainWorld {
    /// The start of a machine of 1 to 8 nodes with 1 to 64 CPUs each, of which some aren't
    /// isolated, and of so many timers: every CPU is online and active, and nothing is queued.
    pub fn start(
        alloc: Global,
        nodes: u8,
        cpus: u8,
        isolated: &CpuSet,
        timers: u16,
    ) -> Result<PlainWorld, NoMemory>
        requires { IsWithinLimits nodes cpus isolated.now }
        ensures { IfOk result (λ world. world
            ≡ start_of (tree_of nodes cpus isolated.now) timers) }
    {
        let tree = PlannedTree::plan(alloc, nodes, cpus, isolated)?;
        let groups = new_groups(alloc, tree.tree())?;
        let cpus = new_cpus(alloc, tree.cpu_count())?;
        let tree = Rc::new(alloc, tree)?;
        Ok(PlainWorld {
            tree,
            timers,
            clock: 0,
            groups,
            cpus,
        })
    }
}
