//! The slot of a CPU in its leaf.

ghost use Rattle.std.specs.Prelude.{◌≡◌, ◌<◌, length};
ghost use Rattle.tree_plan.specs.Paths.{cpu_count_of, group_count_of};
ghost use Rattle.core_world.specs.World.{World};
ghost use Rattle.shared_rule.specs.Whole.{leaf_of};

use event_queue::Event;
use shared_rule::CoreGroup;
use tm_base::CpuId;
use tree_plan::Tree;
use walk_rules::law_hierarchy;

/// What stands in the slot of a CPU in its leaf, None where it is empty or the CPU has no group.
pub(crate) fn leaf(tree: &Tree, groups: &[CoreGroup], cpu: CpuId) -> Option<Event>
    requires cpu { cpu.0 < cpu_count_of tree.now }
    requires groups { length groups.now ≡ group_count_of tree.now }
    ensures { (o : World) → o.tree ≡ tree.now → o.groups ≡ groups.now
        → result ≡ leaf_of o cpu.0 }
{
    law_hierarchy();
    tree.cpu_count();
    let group = tree.group_at(cpu, 0)?;
    groups[usize::from(group.0)].events().get(tree.cpu_bit(cpu))
}
