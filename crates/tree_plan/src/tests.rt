ghost use Rattle.std.specs.Prelude.{◌*◌, ◌<◌, ◌≤◌};

use super::*;
use std::alloc::Global;
use std::process::Abort;
use std::test::Fail;
use tm_base::{Child, CpuId, CpuSet, GroupId, NoMemory};

/// A group: its level, place, number of children, parent and child number there.
type Row = (u8, u16, u8, Option<GroupId>, u8);

/// A CPU: its number, its child number in its leaf, and its groups at the levels 0, 1, 2 and 3.
type Path = (u16, u8, [Option<GroupId>; 4]);

/// The tree of a machine whose lowest CPUs, so many of them, are isolated.
fn planned(alloc: Global, nodes: u8, cpus: u8, isolated: u16) -> Result<Tree, NoMemory>
    requires some_node { 1 ≤ nodes }
    requires few_nodes { nodes ≤ 8 }
    requires some_cpu { 1 ≤ cpus }
    requires few_cpus { cpus ≤ 64 }
    requires some_placed { isolated < nodes * cpus }
    requires few_isolated { isolated ≤ 512 }
{
    let mut set = CpuSet::new();
    for cpu in 0..isolated {
        set.add(CpuId(cpu));
    }
    plan(alloc, nodes, cpus, &set)
}

const fn up(g: u16) -> Option<GroupId> {
    Some(GroupId(g))
}

fn check_groups(rt: &impl Abort, tree: &Tree, levels: u8, rows: &[Row]) {
    assert_eq!(rt; tree.levels(), levels);
    let count = tree.group_count();
    assert_eq!(rt; usize::from(count), rows.len());
    for (g, row) in rows.iter().enumerate() {
        let group = GroupId(g as u16);
        assert_eq!(rt; tree.level(group), row.0, "level of {g}");
        assert_eq!(rt; tree.place(group), row.1, "place of {g}");
        assert_eq!(rt; tree.children(group), row.2, "children of {g}");
        assert_eq!(rt; tree.parent(group), row.3, "parent of {g}");
        assert_eq!(rt; tree.bit(group), row.4, "bit of {g}");
    }
}

fn check_paths(rt: &impl Abort, tree: &Tree, cpus: u16, paths: &[Path]) {
    let count = tree.cpu_count();
    assert_eq!(rt; count, cpus);
    for (c, bit, groups) in paths.iter().copied() {
        assert!(rt; c < count);
        assert!(rt; tree.is_placed(CpuId(c)));
        assert_eq!(rt; tree.cpu_bit(CpuId(c)), bit, "bit of CPU {c}");
        for (level, group) in groups.iter().enumerate() {
            assert_eq!(rt;
                tree.group_at(CpuId(c), level as u8),
                *group,
                "CPU {c} at level {level}"
            );
        }
    }
}

/// These CPUs are isolated, and have no group at any level.
fn check_isolated(rt: &impl Abort, tree: &Tree, cpus: &[u16]) {
    let count = tree.cpu_count();
    for c in cpus.iter().copied() {
        assert!(rt; c < count);
        assert!(rt; !tree.is_placed(CpuId(c)));
        for level in 0..4 {
            assert_eq!(rt;
                tree.group_at(CpuId(c), level),
                None,
                "CPU {c} at level {level}"
            );
        }
    }
}

fn is_shared<T: Send + Sync>(_tree: &T) {}

// Each row of these tests is counted out by hand by the rules of the hierarchy: runs of eight in
// ascending order, within a node below the number of its levels and across nodes above.
#[test]
fn cpus_of_one_node_are_cut_into_leaves_of_eight(rt: HostRuntime) -> Result<(), Fail> {
    let alone = planned(rt.alloc(), 1, 1, 0)?;
    check_groups(&rt, &alone, 0, &[]);
    check_paths(&rt, &alone, 1, &[(0, 0, [None; 4])]);

    let nine = planned(rt.alloc(), 1, 9, 0)?;
    check_groups(
        &rt,
        &nine,
        2,
        &[(0, 0, 8, up(2), 0), (0, 1, 1, up(2), 1), (1, 0, 2, None, 0)],
    );
    check_paths(
        &rt,
        &nine,
        9,
        &[
            (7, 7, [up(0), up(2), None, None]),
            (8, 0, [up(1), up(2), None, None]),
        ],
    );
    is_shared(&nine);
    Ok(())
}

#[test]
fn eight_full_leaves_stand_below_one_top(rt: HostRuntime) -> Result<(), Fail> {
    let groups = [
        (0, 0, 8, up(8), 0),
        (0, 1, 8, up(8), 1),
        (0, 2, 8, up(8), 2),
        (0, 3, 8, up(8), 3),
        (0, 4, 8, up(8), 4),
        (0, 5, 8, up(8), 5),
        (0, 6, 8, up(8), 6),
        (0, 7, 8, up(8), 7),
        (1, 0, 8, None, 0),
    ];
    let paths = [
        (0, 0, [up(0), up(8), None, None]),
        (8, 0, [up(1), up(8), None, None]),
        (63, 7, [up(7), up(8), None, None]),
    ];
    let one_node = planned(rt.alloc(), 1, 64, 0)?;
    check_groups(&rt, &one_node, 2, &groups);
    check_paths(&rt, &one_node, 64, &paths);
    let eight_nodes = planned(rt.alloc(), 8, 8, 0)?;
    check_groups(&rt, &eight_nodes, 2, &groups);
    check_paths(&rt, &eight_nodes, 64, &paths);
    Ok(())
}

#[test]
fn nodes_stay_apart_below_the_levels_across_them(rt: HostRuntime) -> Result<(), Fail> {
    let two_nodes = planned(rt.alloc(), 2, 24, 0)?;
    let groups = [
        (0, 0, 8, up(6), 0),
        (0, 1, 8, up(6), 1),
        (0, 2, 8, up(6), 2),
        (0, 3, 8, up(7), 0),
        (0, 4, 8, up(7), 1),
        (0, 5, 8, up(7), 2),
        (1, 0, 3, up(8), 0),
        (1, 1, 3, up(8), 1),
        (2, 0, 2, None, 0),
    ];
    check_groups(&rt, &two_nodes, 3, &groups);
    let paths = [
        (23, 7, [up(2), up(6), up(8), None]),
        (24, 0, [up(3), up(7), up(8), None]),
        (47, 7, [up(5), up(7), up(8), None]),
    ];
    check_paths(&rt, &two_nodes, 48, &paths);

    let three_nodes = planned(rt.alloc(), 3, 9, 0)?;
    let groups = [
        (0, 0, 8, up(6), 0),
        (0, 1, 1, up(6), 1),
        (0, 2, 8, up(7), 0),
        (0, 3, 1, up(7), 1),
        (0, 4, 8, up(8), 0),
        (0, 5, 1, up(8), 1),
        (1, 0, 2, up(9), 0),
        (1, 1, 2, up(9), 1),
        (1, 2, 2, up(9), 2),
        (2, 0, 3, None, 0),
    ];
    check_groups(&rt, &three_nodes, 3, &groups);
    let paths = [
        (8, 0, [up(1), up(6), up(9), None]),
        (9, 0, [up(2), up(7), up(9), None]),
        (26, 0, [up(5), up(8), up(9), None]),
    ];
    check_paths(&rt, &three_nodes, 27, &paths);

    let single_cpus = planned(rt.alloc(), 8, 1, 0)?;
    check_groups(&rt, &single_cpus, 1, &[(0, 0, 8, None, 0)]);
    check_paths(&rt, &single_cpus, 8, &[(7, 7, [up(0), None, None, None])]);
    Ok(())
}

// Without CPU 0 the other eight of nine fill one leaf, and CPU 1 is its child 0.
#[test]
fn isolated_cpus_stand_outside_the_tree(rt: HostRuntime) -> Result<(), Fail> {
    let eight_of_nine = planned(rt.alloc(), 1, 9, 1)?;
    check_groups(&rt, &eight_of_nine, 1, &[(0, 0, 8, None, 0)]);
    check_isolated(&rt, &eight_of_nine, &[0]);
    let paths = [
        (1, 0, [up(0), None, None, None]),
        (8, 7, [up(0), None, None, None]),
    ];
    check_paths(&rt, &eight_of_nine, 9, &paths);

    assert_eq!(rt;
        eight_of_nine.child(GroupId(0), 0),
        Some(Child::Cpu(CpuId(1)))
    );
    assert_eq!(rt; eight_of_nine.child(GroupId(0), 8), None);

    let one_of_two_nodes = planned(rt.alloc(), 2, 2, 2)?;
    check_groups(&rt, &one_of_two_nodes, 1, &[(0, 0, 2, None, 0)]);
    check_isolated(&rt, &one_of_two_nodes, &[0, 1]);
    check_paths(
        &rt,
        &one_of_two_nodes,
        4,
        &[(3, 1, [up(0), None, None, None])],
    );

    let one_of_two = planned(rt.alloc(), 1, 2, 1)?;
    check_groups(&rt, &one_of_two, 0, &[]);
    check_isolated(&rt, &one_of_two, &[0]);
    check_paths(&rt, &one_of_two, 2, &[(1, 0, [None; 4])]);
    Ok(())
}

// 64 leaves of eight, a group of eight leaves for each node, and the top.
#[test]
fn the_largest_machine_has_73_groups(rt: HostRuntime) -> Result<(), Fail> {
    let largest = planned(rt.alloc(), 8, 64, 0)?;
    assert_eq!(rt; largest.levels(), 3);
    assert_eq!(rt; largest.group_count(), 73);
    assert_eq!(rt; largest.children(GroupId(72)), 8);
    assert_eq!(rt; largest.parent(GroupId(63)), up(71));
    assert_eq!(rt;
        largest.child(GroupId(71), 7),
        Some(Child::Group(GroupId(63)))
    );
    let paths = [
        (0, 0, [up(0), up(64), up(72), None]),
        (511, 7, [up(63), up(71), up(72), None]),
    ];
    check_paths(&rt, &largest, 512, &paths);
    Ok(())
}
