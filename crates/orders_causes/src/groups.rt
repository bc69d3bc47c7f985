//! Groups of a world's tree, by level and place.

ghost use Rattle.std.specs.Prelude.{◌≡◌, ◌-◌};
ghost use Rattle.tree_plan.specs.Paths.{level_of, place_of};
ghost use Rattle.walk_rules.specs.Hierarchy.{group_on};
ghost use Rattle.orders_causes.specs.Groups.{IsGroupOf};

use plain_world::PlainWorld;
use tm_base::{CpuId, GroupId};
use tree_plan::{law_cuts, law_paths};

/// The group of a CPU's path at a level; group 0 stands in where the path has none.
pub(crate) fn group_on(world: &PlainWorld, cpu: CpuId, level: u8) -> GroupId
    ensures group { result.0 ≡ group_on world.now.tree cpu.0 level }
    ensures known { IsGroupOf world.now.tree result.0 }
{
    law_cuts();
    law_paths();
    world.tree();
    match world.group_at(cpu, level) {
        Some(group) => group,
        None => GroupId(0),
    }
}

/// The group one level below, and the leaf at level 0.
pub(crate) fn group_below(world: &PlainWorld, cpu: CpuId, level: u8) -> GroupId
    ensures group { result.0 ≡ group_on world.now.tree cpu.0 (level - 1) }
    ensures known { IsGroupOf world.now.tree result.0 }
{
    group_on(world, cpu, level.saturating_sub(1))
}

/// The level of a group, 0 where the tree has none.
pub(crate) fn level_of(world: &PlainWorld, group: GroupId) -> u8
    requires { IsGroupOf world.now.tree group.0 }
    ensures { result ≡ level_of world.now.tree group.0 }
{
    let tree = world.tree();
    if tree.levels() == 0 {
        return 0;
    }
    tree.level(group)
}

/// The place of a group at its level, 0 where the tree has none.
pub(crate) fn place_of(world: &PlainWorld, group: GroupId) -> u16
    requires { IsGroupOf world.now.tree group.0 }
    ensures { result ≡ place_of world.now.tree group.0 }
{
    let tree = world.tree();
    if tree.levels() == 0 {
        return 0;
    }
    tree.place(group)
}
