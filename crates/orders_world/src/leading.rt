//! Where the migrators lead.

ghost use Rattle.std.specs.Prelude.{◌≡◌, ℕ, ◌<◌, IfNone, IfSome};
ghost use Rattle.tm_base.specs.declared.names.Child.{Child};
ghost use Rattle.tree_plan.specs.Paths.{group_count_of, level_of};
ghost use Rattle.coverage.specs.Coverage.{Leads};
ghost use Rattle.core_world.specs.Covered.{machine_of};
ghost use Rattle.orders_world.specs.Seeking.{LooksAfter};

use crate::asking::is_active;
use plain_world::PlainWorld;
use tm_base::{Child, CpuId, GroupId};
use tree_plan::{law_edges, law_levels};

/// The child that is the migrator of a group.
fn migrating_child(world: &PlainWorld, group: GroupId) -> Option<Child>
    ensures some { IfSome result (LooksAfter world.now group.0) }
    ensures none { IfNone result ((z : Child) → LooksAfter world.now group.0 z → ⊥) }
{
    match world.migrator(group) {
        Some(number) => world.tree().child(group, number),
        None => None,
    }
}

/// The active CPU to which the migrators lead from a group that is below so many levels.
fn led_from(world: &PlainWorld, levels: u8, group: GroupId) -> Option<CpuId>
    requires { level_of world.now.tree group.0 < levels }
    ensures leads { IfSome result (λ m. Leads (machine_of world.now) m.0 group.0) }
    ensures none { IfNone result ((m : ℕ) → Leads (machine_of world.now) m group.0 → ⊥) }
{
    law_edges();
    law_levels();
    world.tree();
    let Some(child) = migrating_child(world, group) else {
        return None;
    };
    match child {
        Child::Cpu(cpu) => {
            if is_active(world, cpu) {
                Some(cpu)
            } else {
                None
            }
        },
        Child::Group(below) => led_from(world, levels - 1, below),
    }
}

/// The active CPU to which the migrators lead from a group.
pub(crate) fn led_to(world: &PlainWorld, group: GroupId) -> Option<CpuId>
    requires { group.0 < group_count_of world.now.tree }
    ensures leads { IfSome result (λ m. Leads (machine_of world.now) m.0 group.0) }
    ensures none { IfNone result ((m : ℕ) → Leads (machine_of world.now) m group.0 → ⊥) }
{
    law_levels();
    let tree = world.tree();
    tree.cpu_count();
    led_from(world, tree.levels(), group)
}
