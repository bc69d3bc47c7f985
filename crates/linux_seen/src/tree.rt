//! The tree: where groups stand, and the numbers of children.

ghost use Rattle.std.specs.Prelude.{◌≡◌, ◌==◌};
ghost use Rattle.linux_seen.specs.Tree.{bit_fits, cpu_stands, cpus_free, cpu_joining_fault};
ghost use Rattle.linux_seen.specs.Tree.{group_stands, groups_free, is_below, node_fits};
ghost use Rattle.linux_seen.specs.Tree.{parent_fits};
ghost use Rattle.linux_seen.specs.Tree.{group_joining_fault, same_pointer, spot_fault, spot_fits};
ghost use Rattle.linux_seen.specs.Tree.{spot_is};

use crate::Rule;
use crate::seen::{CpuSeen, GroupSeen, Seen, Spot};
use crate::words::same_number;
use linux_lines::{Joining, Place};
use tm_base::{CpuId, GROUP_SIZE};

/// Whether two pointers are there and equal, or both aren't.
pub fn same_pointer(a: Option<u64>, b: Option<u64>) -> bool
    ensures { result ≡ same_pointer a b }
{
    match a {
        Some(n) => match b {
            Some(m) => n == m,
            None => false,
        },
        None => b.is_none(),
    }
}

/// Whether a place is where the group was seen before.
fn spot_is(spot: Option<Spot>, place: &Place) -> bool
    ensures { result ≡ spot_is spot place.now }
{
    match spot {
        Some(spot) => spot.level == place.level && same_pointer(spot.node, place.node),
        None => true,
    }
}

/// Whether a group has the level and the node that it was seen with.
pub fn spot_fits(seen: &Seen, place: &Place) -> bool
    ensures { result ≡ spot_fits seen.now place.now }
{
    let group = seen.group(place.group);
    spot_is(group.spot, place)
}

/// Whether a parent is one level above its child, where its level was seen.
pub fn is_below(level: u8, parent: Option<Spot>) -> bool
    ensures { result ≡ is_below level parent }
{
    match parent {
        Some(spot) => u16::from(level) + 1 == u16::from(spot.level),
        None => true,
    }
}

/// Whether a child is of its parent's node, where that was seen and has one.
pub fn node_fits(node: Option<u64>, parent: Option<Spot>) -> bool
    ensures { result ≡ node_fits node parent }
{
    match parent {
        Some(spot) => match spot.node {
            Some(number) => same_pointer(node, Some(number)),
            None => true,
        },
        None => true,
    }
}

/// Whether a group has the parent that it was seen with; a top may get one.
pub fn parent_fits(known: Option<u64>, parent: u64) -> bool
    ensures { result ≡ parent_fits known parent }
{
    match known {
        Some(pointer) => pointer == 0 || pointer == parent,
        None => true,
    }
}

/// Whether a child has the number that it was seen with.
pub fn bit_fits(known: Option<u8>, bit: u8) -> bool
    ensures { result ≡ bit_fits known bit }
{
    match known {
        Some(number) => number == bit,
        None => true,
    }
}

/// Whether a group hangs below this parent, by this number.
pub fn group_stands(group: &GroupSeen, parent: u64, bit: u8) -> bool
    ensures { result ≡ group_stands group.now parent bit }
{
    same_pointer(group.parent, Some(parent)) && same_number(group.bit, Some(bit))
}

/// Whether a CPU hangs below this leaf, by this number.
pub fn cpu_stands(cpu: &CpuSeen, leaf: u64, bit: u8) -> bool
    ensures { result ≡ cpu_stands cpu.now leaf bit }
{
    same_pointer(cpu.leaf, Some(leaf)) && same_number(cpu.bit, Some(bit))
}

/// Whether no other group has this number in this parent.
pub fn groups_free(groups: &[GroupSeen], parent: u64, bit: u8, child: u64) -> bool
    ensures { result ≡ groups_free groups.now parent bit child }
{
    groups
        .iter()
        .all(|g| g.pointer == child || !group_stands(g, parent, bit))
}

/// Whether no other CPU has this number in this leaf.
pub fn cpus_free(cpus: &[CpuSeen], leaf: u64, bit: u8, cpu: CpuId) -> bool
    ensures { result ≡ cpus_free cpus.now leaf bit cpu }
{
    cpus.iter()
        .all(|c| c.cpu.0 == cpu.0 || !cpu_stands(c, leaf, bit))
}

/// The rule that a new link of a group to its parent breaks (`tmigr_connect_child_parent`).
pub fn group_joining_fault(seen: &Seen, child: u64, joining: &Joining) -> Option<Rule>
    ensures { result ≡ group_joining_fault seen.now child joining.now }
{
    let group = seen.group(child);
    let place = joining.parent;
    if !spot_fits(seen, &place)
        || joining.children > GROUP_SIZE
        || !parent_fits(group.parent, place.group)
        || !groups_free(seen.groups(), place.group, joining.bit, child)
    {
        return Some(Rule::Tree);
    }
    spot_fault(group.spot, place)
}

/// The rule that a child of this spot breaks below this parent.
fn spot_fault(child: Option<Spot>, parent: Place) -> Option<Rule>
    ensures { result ≡ spot_fault child parent }
{
    let Some(spot) = child else {
        return None;
    };
    let above = Some(Spot {
        level: parent.level,
        node: parent.node,
    });
    if !is_below(spot.level, above) {
        Some(Rule::Tree)
    } else if !node_fits(spot.node, above) {
        Some(Rule::Node)
    } else {
        None
    }
}

/// The rule that a new link of a CPU to its leaf breaks (`tmigr_connect_cpu_parent`).
pub fn cpu_joining_fault(seen: &Seen, cpu: CpuId, joining: &Joining) -> Option<Rule>
    ensures { result ≡ cpu_joining_fault seen.now cpu joining.now }
{
    let known = seen.cpu(cpu);
    let place = joining.parent;
    if !spot_fits(seen, &place)
        || place.level != 0
        || joining.children > GROUP_SIZE
        || !parent_fits(known.leaf, place.group)
        || !cpus_free(seen.cpus(), place.group, joining.bit, cpu)
    {
        Some(Rule::Tree)
    } else {
        None
    }
}
