//! Where the path of a CPU goes in the tree of a run.

ghost use Rattle.std.specs.Prelude.{◌≡◌, ◌-◌, ◌<◌, Some, length};
ghost use Rattle.tm_base.specs.Children.{of_cpu};
ghost use Rattle.tree_plan.specs.Paths.{bit_of, cpu_count_of, group_at_of};
ghost use Rattle.walk_rules.specs.Hierarchy.{at_top, group_on, side};
ghost use Rattle.shared_rule.specs.core_state.Kept.{HasLevel};
ghost use Rattle.shared_walks.specs.Steps.{lock_place, slot_place, state_place};

use shared_rule::{Run, RunName};
use shared_words::SharedWord;
use tm_base::{CpuId, GroupId};
use tree_plan::{Tree, law_edges, law_paths};
use wheel_core::TimerBase;

/// The group of a CPU's path at a level, where it has one.
pub(crate) fn group_on<N: RunName, B: TimerBase>(run: &Run<N, B>, cpu: CpuId, level: u8) -> GroupId
    requires cpu { cpu.0 < length N.opening.cpus }
    requires there { HasLevel N.opening.tree cpu.0 level }
    ensures path { group_at_of N.opening.tree cpu.0 level ≡ Some result.0 }
    ensures group { result.0 < length N.opening.groups }
{
    law_paths();
    run.tree.cpu_count();
    match run.tree.group_at(cpu, level) {
        Some(group) => group,
        None => unreachable!(),
    }
}

/// Where the word of the group of a CPU's path at a level stands, where it has such a group.
pub(crate) fn state_place<N: RunName, B: TimerBase>(run: &Run<N, B>, cpu: CpuId, level: u8) -> usize
    requires cpu { cpu.0 < length N.opening.cpus }
    requires there { HasLevel N.opening.tree cpu.0 level }
    ensures place { result ≡ state_place N.opening cpu.0 level }
    ensures group { group_on N.opening.tree cpu.0 level < length N.opening.groups }
{
    let group = group_on(run, cpu, level);
    run.layout.index(SharedWord::State(group))
}

/// Where the word of the lock of that group stands, where the path has such a group.
pub(crate) fn lock_place<N: RunName, B: TimerBase>(run: &Run<N, B>, cpu: CpuId, level: u8) -> usize
    requires cpu { cpu.0 < length N.opening.cpus }
    requires there { HasLevel N.opening.tree cpu.0 level }
    ensures place { result ≡ lock_place N.opening cpu.0 level }
    ensures group { group_on N.opening.tree cpu.0 level < length N.opening.groups }
{
    let group = group_on(run, cpu, level);
    run.layout.index(SharedWord::Lock(group))
}

/// Where that of the group one level below stands, where the path has such a group.
pub(crate) fn lock_below<N: RunName, B: TimerBase>(run: &Run<N, B>, cpu: CpuId, level: u8) -> usize
    requires cpu { cpu.0 < length N.opening.cpus }
    requires there { HasLevel N.opening.tree cpu.0 (level - 1) }
    ensures place { result ≡ lock_place N.opening cpu.0 (level - 1) }
    ensures group { group_on N.opening.tree cpu.0 (level - 1) < length N.opening.groups }
{
    lock_place(run, cpu, level.saturating_sub(1))
}

/// Where a slot of the group of a CPU's path at a level stands, where it has such a group.
pub(crate) fn slot_place<N: RunName, B: TimerBase>(
    run: &Run<N, B>,
    cpu: CpuId,
    level: u8,
    k: u8,
) -> usize
    requires cpu { cpu.0 < length N.opening.cpus }
    requires there { HasLevel N.opening.tree cpu.0 level }
    ensures place { result ≡ slot_place N.opening cpu.0 level k }
    ensures group { group_on N.opening.tree cpu.0 level < length N.opening.groups }
{
    let group = group_on(run, cpu, level);
    run.layout.index(SharedWord::Slot(group, k))
}

/// The group one level below on a CPU's path, where it has one.
pub(crate) fn group_below<N: RunName, B: TimerBase>(
    run: &Run<N, B>,
    cpu: CpuId,
    level: u8,
) -> GroupId
    requires cpu { cpu.0 < length N.opening.cpus }
    requires there { HasLevel N.opening.tree cpu.0 (level - 1) }
    ensures path { group_at_of N.opening.tree cpu.0 (level - 1) ≡ Some result.0 }
    ensures group { result.0 < length N.opening.groups }
{
    group_on(run, cpu, level.saturating_sub(1))
}

/// Whether the path of a CPU has no group above a level.
pub(crate) fn at_top<N: RunName, B: TimerBase>(run: &Run<N, B>, cpu: CpuId, level: u8) -> bool
    requires cpu { cpu.0 < length N.opening.cpus }
    requires level { level < 255 }
    ensures { result ≡ at_top N.opening.tree cpu.0 level }
{
    run.tree.group_at(cpu, level + 1).is_none()
}

/// The child number of a CPU in its leaf, 0 where it has none.
fn cpu_side(tree: &Tree, cpu: CpuId) -> u8
    requires { cpu.0 < cpu_count_of tree.now }
    ensures bit { result ≡ bit_of tree.now (of_cpu cpu.0) }
{
    law_edges();
    tree.cpu_count();
    if tree.is_placed(cpu) {
        tree.cpu_bit(cpu)
    } else {
        0
    }
}

/// The child number by which the path of a CPU comes into its group at a level.
fn side_in(tree: &Tree, cpu: CpuId, level: u8) -> u8
    requires { cpu.0 < cpu_count_of tree.now }
    ensures side { result ≡ side tree.now cpu.0 level }
    ensures a_child { result < 8 }
{
    law_edges();
    law_paths();
    tree.cpu_count();
    if level == 0 {
        return cpu_side(tree, cpu);
    }
    match tree.group_at(cpu, level - 1) {
        Some(below) => tree.bit(below),
        None => 0,
    }
}

/// The child number by which the path of a CPU comes into its group at a level; 0 where it has no
/// such group.
pub(crate) fn side_on<N: RunName, B: TimerBase>(run: &Run<N, B>, cpu: CpuId, level: u8) -> u8
    requires { cpu.0 < length N.opening.cpus }
    ensures side { result ≡ side N.opening.tree cpu.0 level }
    ensures a_child { result < 8 }
{
    side_in(&run.tree, cpu, level)
}
