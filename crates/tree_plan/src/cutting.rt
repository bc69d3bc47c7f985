//! How a machine is cut into groups, and how every child is linked to its group.

ghost use Rattle.std.specs.Prelude.{◌≡◌, ◌+◌, ◌*◌, ◌^◌, ◌<◌, ◌≤◌, ◌++◌, length, map, sum};
ghost use Rattle.std.specs.Prelude.{vec_len, slice_get, if◌then◌else◌, None, IfOk, OnOk};
ghost use Rattle.std.specs.FinSet.{contains};
ghost use Rattle.tm_base.specs.declared.limits.TheConstants.{MOST_CPUS_V2};
ghost use Rattle.tree_plan.specs.Shape.{IsWithinLimits, levels_for, node_cpus, placed_from};
ghost use Rattle.tree_plan.specs.Store.{groups_for, row_lengths_at, row_groups, level_of_rows};
ghost use Rattle.tree_plan.specs.Store.{CutsNext, groups_planned, links_to, links_from};
ghost use Rattle.tree_plan.specs.Store.{seat_links, cpu_ids, firsts_from};

use std::alloc::Global;
use tm_base::{CpuId, CpuSet, GROUP_SIZE, GroupId, NoMemory};

/// A group of the tree, without what is active in it.
#[derive(Clone, Copy, Debug)]
pub(crate) struct Group {
    /// The group's level, 0 for a leaf.
    pub(crate) level: u8,
    /// How many groups of its level come before it.
    pub(crate) place: u16,
    /// How many children it has, 1 to 8.
    pub(crate) children: u8,
}

/// The way from a child up to its group.
#[derive(Clone, Copy, Debug)]
pub(crate) struct Link {
    /// The group that has the child.
    pub(crate) parent: GroupId,
    /// The child's number there, below 8.
    pub(crate) bit: u8,
}

/// How many levels of eight to a group bring so many members down to one, ceil(log2up(members) /
/// 3), as the kernel's `tmigr_init` counts them for the CPUs of a node and for the nodes.
pub(crate) fn levels_for(members: u8) -> u8
    ensures { result ≡ levels_for members }
{
    match members {
        0..=1 => 0,
        2..=8 => 1,
        9..=64 => 2,
        _ => 3,
    }
}

/// Appends the groups of one row of members, full ones as far as the row goes and one with what is
/// left. `first` is the place of the first of them in its level; the answer is the place behind the
/// last.
fn cut_row(groups: &mut Vec<Group>, level: u8, first: u16, members: u16) -> Result<u16, NoMemory>
    requires { first + members < 2 ^ 16 }
    ensures groups { OnOk result
        (groups.new.items ≡ groups.old.items ++ row_groups level first members) }
    ensures behind { IfOk result (λ place. place ≡ first + groups_for members) }
{
    let mut place = first;
    let mut left = members;
    while left > 0 {
        let children = left.min(GROUP_SIZE as u16);
        groups.push(Group {
            level,
            place,
            children: children as u8,
        })?;
        place += 1;
        left -= children;
    }
    Ok(place)
}

/// Appends the groups of a level that cuts rows of so many members, at most 512 in all.
fn cut_level(groups: &mut Vec<Group>, level: u8, rows: &[u16]) -> Result<(), NoMemory>
    requires { sum rows.now ≤ MOST_CPUS_V2 }
    ensures { OnOk result (groups.new.items ≡ groups.old.items ++ level_of_rows level rows.now) }
{
    let mut place = 0;
    for row in rows {
        place = cut_row(groups, level, place, *row)?;
    }
    Ok(())
}

/// How many members all rows have.
fn members_of(rows: &[u16]) -> u16
    requires { sum rows.now ≤ MOST_CPUS_V2 }
    ensures { result ≡ sum rows.now }
{
    rows.iter().sum()
}

/// Puts the members of all rows into one from level `inner` on, where groups take their children
/// from all nodes (the kernel's `tmigr_crossnode_level`).
fn merge_across(rows: &mut Vec<u16>, level: u8, inner: u8)
    requires some_row { 0 < vec_len rows.old }
    requires few { sum rows.old.items ≤ MOST_CPUS_V2 }
    ensures { rows.new.items ≡ row_lengths_at inner level rows.old.items }
{
    if level >= inner {
        let members = members_of(rows.as_slice());
        rows.truncate(1);
        rows[0] = members;
    }
}

/// Makes the groups of each row the members of the next level.
fn climb(rows: &mut Vec<u16>)
    ensures { rows.new.items ≡ map groups_for rows.old.items }
{
    for row in rows.iter_mut() {
        *row = row.div_ceil(GROUP_SIZE as u16);
    }
}

/// Appends the groups of the next level, where the nodes have so many members left, and makes these
/// groups the members of the level above.
fn cut_next(
    groups: &mut Vec<Group>,
    level: u8,
    inner: u8,
    rows: &mut Vec<u16>,
) -> Result<(), NoMemory>
    requires some_row { 0 < vec_len rows.old }
    requires few { sum rows.old.items ≤ MOST_CPUS_V2 }
    ensures { OnOk result (CutsNext inner level
        groups.old.items groups.new.items rows.old.items rows.new.items) }
{
    merge_across(rows, level, inner);
    cut_level(groups, level, rows.as_slice())?;
    climb(rows);
    Ok(())
}

/// How many of so many CPUs from this one on are placed.
fn placed_among(first: u16, count: u16, isolated: &CpuSet) -> u16
    requires { first + count < 2 ^ 16 }
    ensures { result ≡ length (placed_from isolated.now first count) }
{
    let mut placed = 0;
    for cpu in first..first + count {
        placed += u16::from(!isolated.has(CpuId(cpu)));
    }
    placed
}

/// The rows with which the cutting begins: how many placed CPUs each node has.
fn node_rows(alloc: Global, nodes: u8, cpus: u8, isolated: &CpuSet) -> Result<Vec<u16>, NoMemory>
    ensures { IfOk result (λ rows. rows.items ≡ map length (node_cpus nodes cpus isolated.now)) }
{
    let mut rows = Vec::new(alloc);
    for node in 0..nodes {
        let first = u16::from(node) * u16::from(cpus);
        rows.push(placed_among(first, u16::from(cpus), isolated))?;
    }
    Ok(rows)
}

/// The groups of the tree in the order of their numbers. As the kernel's `tmigr_setup_groups` it
/// stops at the first level with one group.
pub(crate) fn cut_groups(
    alloc: Global,
    nodes: u8,
    cpus: u8,
    isolated: &CpuSet,
) -> Result<Vec<Group>, NoMemory>
    requires { IsWithinLimits nodes cpus isolated.now }
    ensures { IfOk result (λ groups. groups.items ≡ groups_planned nodes cpus isolated.now) }
{
    let inner = levels_for(cpus);
    let most = inner + levels_for(nodes);
    let mut rows = node_rows(alloc, nodes, cpus, isolated)?;
    let mut groups = Vec::new(alloc);
    for level in 0..most {
        if members_of(rows.as_slice()) == 1 {
            break;
        }
        cut_next(&mut groups, level, inner, &mut rows)?;
    }
    Ok(groups)
}

/// Appends the links of a group's children.
fn link_to(links: &mut Vec<Link>, parent: GroupId, children: u8) -> Result<(), NoMemory>
    ensures { OnOk result (links.new.items ≡ links.old.items ++ links_to parent.0 children) }
{
    for bit in 0..children {
        links.push(Link { parent, bit })?;
    }
    Ok(())
}

/// The link of every child: of the placed CPUs in ascending order, and then of the groups but for
/// the top.
pub(crate) fn link_children(alloc: Global, groups: &[Group]) -> Result<Vec<Link>, NoMemory>
    requires { length groups.now < 2 ^ 16 }
    ensures { IfOk result (λ links. links.items ≡ links_from 0 (map (λ g. g.children) groups.now)) }
{
    let mut links = Vec::new(alloc);
    for (number, group) in groups.iter().enumerate() {
        link_to(&mut links, GroupId(number as u16), group.children)?;
    }
    Ok(links)
}

/// The index of each group's first child, where the children of all groups are counted in the order
/// of their groups.
pub(crate) fn first_children(alloc: Global, groups: &[Group]) -> Result<Vec<usize>, NoMemory>
    requires { length groups.now < 2 ^ 16 }
    ensures { IfOk result (λ firsts.
        firsts.items ≡ firsts_from 0 (map (λ g. g.children) groups.now)) }
{
    let mut firsts = Vec::new(alloc);
    let mut next = 0;
    for group in groups {
        firsts.push(next)?;
        next += usize::from(group.children);
    }
    Ok(firsts)
}

/// Appends a CPU, if it is placed.
fn place(placed: &mut Vec<CpuId>, cpu: u16, isolated: &CpuSet) -> Result<(), NoMemory>
    ensures { OnOk result
        (placed.new.items ≡ placed.old.items ++ cpu_ids (placed_from isolated.now cpu 1)) }
{
    if !isolated.has(CpuId(cpu)) {
        placed.push(CpuId(cpu))?;
    }
    Ok(())
}

/// The placed ones of so many CPUs, in ascending order.
pub(crate) fn placed_cpus(
    alloc: Global,
    count: u16,
    isolated: &CpuSet,
) -> Result<Vec<CpuId>, NoMemory>
    ensures { IfOk result (λ cpus. cpus.items ≡ cpu_ids (placed_from isolated.now 0 count)) }
{
    let mut placed = Vec::new(alloc);
    for cpu in 0..count {
        place(&mut placed, cpu, isolated)?;
    }
    Ok(placed)
}

/// The link of a CPU: a placed one has the next one of `links`, where so many were given out.
fn seat(isolated: &CpuSet, links: &[Link], cpu: u16, next: usize) -> Option<Link>
    ensures { result ≡ (if contains isolated.now cpu then None else slice_get links.now next) }
{
    if isolated.has(CpuId(cpu)) {
        None
    } else {
        links.get(next).copied()
    }
}

/// The link of every CPU by its number, None where it has none.
pub(crate) fn link_cpus(
    alloc: Global,
    count: u16,
    isolated: &CpuSet,
    links: &[Link],
) -> Result<Vec<Option<Link>>, NoMemory>
    ensures { IfOk result (λ seats. seats.items ≡ seat_links isolated.now links.now count) }
{
    let mut seats = Vec::new(alloc);
    let mut next = 0;
    for cpu in 0..count {
        seats.push(seat(isolated, links, cpu, next))?;
        next += usize::from(!isolated.has(CpuId(cpu)));
    }
    Ok(seats)
}
