//! Groups, and by which child they are awake.

ghost use Rattle.std.specs.Prelude.{◌≡◌, ◌<◌, IfOk, Some};
ghost use Rattle.tree_plan.specs.Paths.{child_at, group_count_of};
ghost use Rattle.orders_sights.specs.Gathering.{gathered};
ghost use Rattle.orders_sights.specs.Seeing.{group_seen, leader_in, leader_of};

use orders_answer::{GroupShown, Leader};
use plain_world::PlainWorld;
use std::alloc::Global;
use tm_base::{Child, GroupId, NoMemory};
use tree_plan::law_edges;

/// A child of a group, as the one by which the group is awake.
fn leader_of(world: &PlainWorld, group: GroupId, number: u8, child: Child) -> Leader
    requires { child_at world.now.tree group.0 number ≡ Some child }
    ensures { result ≡ leader_of world.now.tree child }
{
    law_edges();
    let tree = world.tree();
    match child {
        Child::Cpu(cpu) => Leader::Cpu(cpu),
        Child::Group(below) => Leader::Group {
            level: tree.level(below),
            place: tree.place(below),
        },
    }
}

/// The child by which a group is awake; None where the group sleeps.
fn leader_in(world: &PlainWorld, group: GroupId) -> Option<Leader>
    ensures { result ≡ leader_in world.now group.0 }
{
    let Some(number) = world.migrator(group) else {
        return None;
    };
    let Some(child) = world.tree().child(group, number) else {
        return None;
    };
    Some(leader_of(world, group, number, child))
}

/// A group.
fn group_seen(world: &PlainWorld, group: GroupId) -> GroupShown
    requires { group.0 < group_count_of world.now.tree }
    ensures { result ≡ group_seen world.now group.0 }
{
    let tree = world.tree();
    GroupShown {
        level: tree.level(group),
        place: tree.place(group),
        leader: leader_in(world, group),
    }
}

/// All groups of a world's tree, in the order of their numbers.
pub(crate) fn groups_seen(alloc: Global, world: &PlainWorld) -> Result<Vec<GroupShown>, NoMemory>
    ensures { IfOk result (λ list. list.items
        ≡ gathered (λ g. Some (group_seen world.now g)) (group_count_of world.now.tree)) }
{
    let mut list = Vec::new(alloc);
    for group in 0..world.tree().group_count() {
        list.push(group_seen(world, GroupId(group)))?;
    }
    Ok(list)
}
