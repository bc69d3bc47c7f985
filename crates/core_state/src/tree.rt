//! Where the path of a CPU goes.

ghost use Rattle.std.specs.Prelude.{◌≡◌, ◌<◌};
ghost use Rattle.tm_base.specs.Children.{of_cpu};
ghost use Rattle.tree_plan.specs.Paths.{bit_of, cpu_count_of, group_count_of};
ghost use Rattle.core_facts.specs.walk_rules.Hierarchy.{at_top, group_on, side};
ghost use Rattle.core_state.specs.Kept.{HasLevel};

use tm_base::{CpuId, GroupId};
use tree_plan::{Tree, law_edges, law_paths};

/// The group of a CPU's path at a level; group 0 stands in where the path has none.
pub(crate) fn group_on(tree: &Tree, cpu: CpuId, level: u8) -> GroupId
    requires { cpu.0 < cpu_count_of tree.now }
    ensures group { result.0 ≡ group_on tree.now cpu.0 level }
    ensures in_range { HasLevel tree.now cpu.0 level → result.0 < group_count_of tree.now }
{
    law_paths();
    tree.cpu_count();
    tree.group_at(cpu, level).unwrap_or(GroupId(0))
}

/// Whether the path of a CPU has no group above a level.
pub(crate) fn at_top(tree: &Tree, cpu: CpuId, level: u8) -> bool
    requires cpu { cpu.0 < cpu_count_of tree.now }
    requires level { level < 255 }
    ensures { result ≡ at_top tree.now cpu.0 level }
{
    tree.group_at(cpu, level + 1).is_none()
}

/// The child number of a CPU in its leaf, 0 where it has none.
fn cpu_side(tree: &Tree, cpu: CpuId) -> u8
    requires { cpu.0 < cpu_count_of tree.now }
    ensures bit { result ≡ bit_of tree.now (of_cpu cpu.0) }
{
    law_edges();
    tree.cpu_count();
    if tree.is_placed(cpu) {
        tree.cpu_bit(cpu)
    } else {
        0
    }
}

/// The child number, in the group of a CPU's path at a level, of the child through which the path
/// goes; 0 where it has no such group.
pub(crate) fn side(tree: &Tree, cpu: CpuId, level: u8) -> u8
    requires { cpu.0 < cpu_count_of tree.now }
    ensures side { result ≡ side tree.now cpu.0 level }
    ensures a_child { result < 8 }
{
    law_edges();
    law_paths();
    tree.cpu_count();
    if level == 0 {
        return cpu_side(tree, cpu);
    }
    match tree.group_at(cpu, level - 1) {
        Some(below) => tree.bit(below),
        None => 0,
    }
}
