//! Readings of a group's word that an exchange makes stale.

ghost use Rattle.std.specs.Prelude.{◌≡◌, ◌<◌, ◌==◌, false, option_map, slice_set, vec_len};
ghost use Rattle.std.specs.Prelude.{slice_index_or, true};
ghost use Rattle.std.specs.Option.{option_map_or};
ghost use Rattle.tree_plan.specs.Paths.{cpu_count_of, group_at_of};
ghost use Rattle.core_world.specs.World.{is_reading, no_cpu, stale, stale_if, stale_walk};

use crate::cpu::PlainCpu;
use crate::planned::PlannedTree;
use core_parts::CpuStatus;
use tm_base::{CpuId, GroupId};
use walk_rules::{Stage, Walk};

/// Whether a walk has read the group's word and is going to exchange it.
fn is_reading(stage: Stage) -> bool
    ensures { result ≡ is_reading stage }
{
    matches!(stage, Stage::Child | Stage::Swap)
}

/// Whether the path of a CPU has this group at a level.
fn is_at(tree: &PlannedTree, cpu: CpuId, level: u8, group: GroupId) -> bool
    ensures { result ≡ option_map_or (λ h. h == group.0) (group_at_of tree.now cpu.0 level) false }
{
    match tree.group_at(cpu, level) {
        Some(at) => at.0 == group.0,
        None => false,
    }
}

/// The walk of a CPU after another one's exchange.
fn after_exchange(tree: &PlannedTree, cpu: CpuId, group: GroupId, walk: Walk) -> Walk
    ensures { result ≡ stale_walk tree.now group.0 cpu.0 walk }
{
    if is_reading(walk.stage) && is_at(tree, cpu, walk.level, group) {
        Walk {
            fresh: false,
            ..walk
        }
    } else {
        walk
    }
}

/// The walk of a CPU after another one's exchange, where it has one.
fn walk_after(tree: &PlannedTree, cpu: CpuId, group: GroupId, walk: Option<Walk>) -> Option<Walk>
    ensures { result ≡ option_map (stale_walk tree.now group.0 cpu.0) walk }
{
    match walk {
        Some(walk) => Some(after_exchange(tree, cpu, group, walk)),
        None => None,
    }
}

/// A CPU after another one's exchange. One without a walk is left as it is.
fn make_stale(tree: &PlannedTree, cpus: &mut Vec<PlainCpu>, cpu: CpuId, group: GroupId)
    requires { cpu.0 < vec_len cpus.old }
    ensures { cpus.new.items ≡ slice_set cpus.old.items cpu.0
        (stale tree.now group.0 cpu.0 (slice_index_or cpus.old.items cpu.0 no_cpu)) }
{
    let status = cpus[usize::from(cpu.0)].status();
    let walk = walk_after(tree, cpu, group, status.walk);
    cpus[usize::from(cpu.0)].set_status(CpuStatus { walk, ..status });
}

/// Each CPU after an exchange of a group's word, the one that makes it too.
pub(crate) fn make_all_stale(tree: &PlannedTree, cpus: &mut Vec<PlainCpu>, group: GroupId)
    requires { vec_len cpus.old ≡ cpu_count_of tree.now }
    ensures { cpus.new.items ≡ stale_if tree.now true group.0 cpus.old.items }
{
    for cpu in 0..tree.cpu_count() {
        make_stale(tree, cpus, CpuId(cpu), group);
    }
}
