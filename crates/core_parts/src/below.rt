//! Which CPUs may be below a group: the groups of a level have the placed CPUs in ascending order.

ghost use Rattle.std.specs.Prelude.{◌≡◌, ℕ, ◌+◌, ◌-◌, ◌<◌, ◌≤◌, ◌==◌, not, false};
ghost use Rattle.std.specs.Option.{option_map_or};
ghost use Rattle.core_world.specs.tree_plan.Paths.{IsBelow, cpu_count_of, group_at_of};

use core_world::{Tree, law_below, law_levels, law_paths};
use tm_base::{CpuId, GroupId};

/// Whether the path of a CPU has another group than this one at a level.
fn is_apart(tree: &Tree, cpu: CpuId, level: u8, group: GroupId) -> bool
    requires { cpu.0 < cpu_count_of tree.now }
    ensures { result
        ≡ option_map_or (λ h. not (h == group.0)) (group_at_of tree.now cpu.0 level) false }
{
    match tree.group_at(cpu, level) {
        Some(at) => at.0 != group.0,
        None => false,
    }
}

/// No CPU lower than this one is below the group, as a CPU is. It looks at the CPUs between, and at
/// one more.
pub(crate) fn first_below(tree: &Tree, cpu: CpuId, group: GroupId) -> u16
    requires { IsBelow tree.now cpu.0 group.0 }
    ensures within { result ≤ cpu.0 }
    ensures first { (d : ℕ) → IsBelow tree.now d group.0 → result ≤ d }
{
    law_below();
    law_paths();
    tree.cpu_count();
    let level = tree.level(group);
    let mut first = cpu.0;
    while first > 0 && !is_apart(tree, CpuId(first - 1), level, group) {
        first -= 1;
    }
    first
}

/// No CPU from this one on is below the group, as a CPU is. It looks at the CPUs between.
pub(crate) fn behind_below(tree: &Tree, cpu: CpuId, group: GroupId) -> u16
    requires { IsBelow tree.now cpu.0 group.0 }
    ensures within { result ≤ cpu_count_of tree.now }
    ensures behind { (d : ℕ) → IsBelow tree.now d group.0 → d < result }
{
    law_below();
    law_paths();
    let count = tree.cpu_count();
    let level = tree.level(group);
    let mut behind = cpu.0 + 1;
    while behind < count && !is_apart(tree, CpuId(behind), level, group) {
        behind += 1;
    }
    behind
}
