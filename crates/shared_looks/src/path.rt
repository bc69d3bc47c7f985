//! Where the path of a CPU comes into its groups.

ghost use Rattle.std.specs.Prelude.{◌≡◌, ◌<◌, option_map, IfSome, length};
ghost use Rattle.tm_base.specs.Children.{of_cpu};
ghost use Rattle.tree_plan.specs.Paths.{bit_of, cpu_count_of, group_at_of};
ghost use Rattle.walk_rules.specs.Hierarchy.{side};

use shared_cpus::{Run, RunName};
use tm_base::{CpuId, GroupId};
use tree_plan::{Tree, law_edges, law_paths};
use wheel_core::TimerBase;

/// The group of a CPU's path at a level, where it has one.
pub(crate) fn group_at<N: RunName, B: TimerBase>(
    run: &Run<N, B>,
    cpu: CpuId,
    level: u8,
) -> Option<GroupId>
    requires cpu { cpu.0 < length N.opening.cpus }
    ensures path { option_map (λ g. g.0) result ≡ group_at_of N.opening.tree cpu.0 level }
    ensures group { IfSome result (λ g. g.0 < length N.opening.groups) }
{
    law_paths();
    run.tree.cpu_count();
    match run.tree.group_at(cpu, level) {
        Some(group) => Some(group),
        None => None,
    }
}

/// The child number of a CPU in its leaf, 0 where it has none.
fn cpu_side(tree: &Tree, cpu: CpuId) -> u8
    requires { cpu.0 < cpu_count_of tree.now }
    ensures bit { result ≡ bit_of tree.now (of_cpu cpu.0) }
{
    law_edges();
    tree.cpu_count();
    if tree.is_placed(cpu) {
        tree.cpu_bit(cpu)
    } else {
        0
    }
}

/// The child number by which the path of a CPU comes into its group at a level, 0 where it has no
/// such group.
fn side_in(tree: &Tree, cpu: CpuId, level: u8) -> u8
    requires { cpu.0 < cpu_count_of tree.now }
    ensures { result ≡ side tree.now cpu.0 level }
{
    law_edges();
    law_paths();
    tree.cpu_count();
    if level == 0 {
        return cpu_side(tree, cpu);
    }
    match tree.group_at(cpu, level - 1) {
        Some(below) => tree.bit(below),
        None => 0,
    }
}

/// The child number by which the path of a CPU comes into its group at a level of the run's tree.
pub(crate) fn side_on<N: RunName, B: TimerBase>(run: &Run<N, B>, cpu: CpuId, level: u8) -> u8
    requires { cpu.0 < length N.opening.cpus }
    ensures { result ≡ side N.opening.tree cpu.0 level }
{
    side_in(&run.tree, cpu, level)
}
