//! The start.

ghost use Rattle.std.specs.Prelude.{◌≡◌, ◌<◌, All, IfOk, None, length, map, replicate};
ghost use Rattle.std.specs.List.{range_with_len};
ghost use Rattle.tree_plan.specs.Paths.{child_count_of, cpu_count_of, group_count_of};
ghost use Rattle.cpu_bases.specs.CpuBases.{empty_bases};
ghost use Rattle.core_world.specs.Start.{start_cpu, start_group, start_of};

use core_steps::{Core, CoreCpu, CoreGroup, CoreParts, Tally, law_height, law_replay, law_start};
use cpu_bases::Bases;
use std::alloc::Global;
use tm_base::{CpuId, GroupId, NoMemory};
use tree_plan::{Tree, law_cuts};
use wheel_core::TimerBase;

/// A CPU for each of these bases.
fn new_cpus<B: TimerBase>(alloc: Global, bases: Vec<Bases<B>>) -> Result<Vec<CoreCpu<B>>, NoMemory>
    requires { All (λ b. b.plain ≡ empty_bases) bases.items }
    ensures { IfOk result (λ cpus. cpus.items ≡ replicate (length bases.items) start_cpu) }
{
    let mut cpus = Vec::new(alloc);
    for of_cpu in bases {
        cpus.push(CoreCpu::new(of_cpu))?;
    }
    Ok(cpus)
}

/// A group of a tree, all of whose children are active.
fn new_group(tree: &Tree, group: GroupId) -> CoreGroup
    requires { group.0 < group_count_of tree.now }
    ensures { result ≡ start_group (child_count_of tree.now group.0) }
{
    law_cuts();
    tree.cpu_count();
    CoreGroup::new(tree.children(group))
}

/// The groups of a tree.
fn new_groups(alloc: Global, tree: &Tree) -> Result<Vec<CoreGroup>, NoMemory>
    ensures { IfOk result (λ groups. groups.items
        ≡ map (λ g. start_group (child_count_of tree.now g))
        (range_with_len 0 (group_count_of tree.now))) }
{
    let mut groups = Vec::new(alloc);
    for group in 0..tree.group_count() {
        groups.push(new_group(tree, GroupId(group)))?;
    }
    Ok(groups)
}

/// Of so many timers the CPUs on which they are queued: none.
fn new_holders(alloc: Global, count: u16) -> Result<Vec<Option<CpuId>>, NoMemory>
    ensures { IfOk result (λ holders. holders.items ≡ replicate count None) }
{
    let mut holders = Vec::new(alloc);
    for _timer in 0..count {
        holders.push(None)?;
    }
    Ok(holders)
}

/// The core at jiffy 0: every CPU is online and active, with empty bases, of which there are some
/// for each CPU of the tree. Want of memory drops what was given.
pub fn new_core<B: TimerBase>(
    alloc: Global,
    tree: Tree,
    bases: Vec<Bases<B>>,
    timers: u16,
) -> Result<Core<B>, NoMemory>
    requires each_cpu { length bases.items ≡ cpu_count_of tree }
    requires empty { All (λ b. b.plain ≡ empty_bases) bases.items }
    ensures { IfOk result (λ core. core ≡ start_of tree timers) }
{
    law_start();
    law_replay();
    law_height();
    tree.cpu_count();
    let groups = new_groups(alloc, &tree)?;
    let cpus = new_cpus(alloc, bases)?;
    let holders = new_holders(alloc, timers)?;
    let tally = Tally::new(alloc, tree.cpu_count())?;
    let parts = CoreParts {
        tree,
        clock: 0,
        groups,
        cpus,
        holders,
        tally,
    };
    Ok(Core::from_parts(parts))
}
