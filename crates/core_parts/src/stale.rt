//! Readings of a group's word that an exchange makes stale.

ghost use Rattle.std.specs.Prelude.{◌≡◌, ◌<◌, option_map, slice_set, vec_len};
ghost use Rattle.std.specs.Prelude.{◌==◌, false, slice_index_or, true};
ghost use Rattle.std.specs.Option.{option_map_or};
ghost use Rattle.core_world.specs.tree_plan.Paths.{IsBelow, cpu_count_of, group_at_of};
ghost use Rattle.core_world.specs.World.{is_reading, no_cpu, stale, stale_if, stale_walk};
ghost use Rattle.core_world.specs.walk_rules.Ranges.{IsInRange, WalkRanges};

use crate::below::{behind_below, first_below};
use crate::cpu::CoreCpu;
use crate::status::CpuStatus;
use core_world::{Stage, Tree, Walk, law_paths};
use tm_base::{CpuId, GroupId};
use wheel_core::TimerBase;

/// Whether a walk has read the group's word and is going to exchange it.
pub(crate) fn is_reading(stage: Stage) -> bool
    ensures { result ≡ is_reading stage }
{
    matches!(stage, Stage::Child | Stage::Swap)
}

/// Whether the path of a CPU has this group at a level.
fn is_at(tree: &Tree, cpu: CpuId, level: u8, group: GroupId) -> bool
    requires { cpu.0 < cpu_count_of tree.now }
    ensures { result ≡ option_map_or (λ h. h == group.0) (group_at_of tree.now cpu.0 level) false }
{
    match tree.group_at(cpu, level) {
        Some(at) => at.0 == group.0,
        None => false,
    }
}

/// The walk of a CPU after another one's exchange.
fn after_exchange(tree: &Tree, cpu: CpuId, group: GroupId, walk: Walk) -> Walk
    requires { cpu.0 < cpu_count_of tree.now }
    ensures walk { result ≡ stale_walk tree.now group.0 cpu.0 walk }
    ensures in_range { WalkRanges walk → WalkRanges result }
{
    if is_reading(walk.stage) && is_at(tree, cpu, walk.level, group) {
        Walk {
            fresh: false,
            ..walk
        }
    } else {
        walk
    }
}

/// The walk of a CPU after another one's exchange, where it has one.
fn walk_after(tree: &Tree, cpu: CpuId, group: GroupId, walk: Option<Walk>) -> Option<Walk>
    requires { cpu.0 < cpu_count_of tree.now }
    ensures walk { result ≡ option_map (stale_walk tree.now group.0 cpu.0) walk }
    ensures in_range { IsInRange walk → IsInRange result }
{
    match walk {
        Some(walk) => Some(after_exchange(tree, cpu, group, walk)),
        None => None,
    }
}

/// A CPU after another one's exchange. One without a reading is left as it is.
fn make_stale<B: TimerBase>(tree: &Tree, cpus: &mut Vec<CoreCpu<B>>, cpu: CpuId, group: GroupId)
    requires cpu { cpu.0 < vec_len cpus.old }
    requires in_tree { cpu.0 < cpu_count_of tree.now }
    ensures { cpus.new.items ≡ slice_set cpus.old.items cpu.0
        (stale tree.now group.0 cpu.0 (slice_index_or cpus.old.items cpu.0 no_cpu)) }
{
    if cpus[usize::from(cpu.0)].reads() {
        let status = cpus[usize::from(cpu.0)].status();
        let walk = walk_after(tree, cpu, group, status.walk);
        cpus[usize::from(cpu.0)].set_status(CpuStatus { walk, ..status });
    }
}

/// Each CPU after an exchange by one of those below the group, the one that makes it too. It goes
/// over the CPUs that may be below the group.
fn make_all_stale<B: TimerBase>(tree: &Tree, cpus: &mut Vec<CoreCpu<B>>, cpu: CpuId, group: GroupId)
    requires each_cpu { vec_len cpus.old ≡ cpu_count_of tree.now }
    requires below { IsBelow tree.now cpu.0 group.0 }
    ensures { cpus.new.items ≡ stale_if tree.now true group.0 cpus.old.items }
{
    law_paths();
    tree.cpu_count();
    let first = first_below(tree, cpu, group);
    let behind = behind_below(tree, cpu, group);
    for below in first..behind {
        make_stale(tree, cpus, CpuId(below), group);
    }
}

/// Each CPU after a step that exchanges a group's word; as it was where the step exchanges nothing.
pub fn if_exchanged<B: TimerBase>(
    tree: &Tree,
    cpus: &mut Vec<CoreCpu<B>>,
    cpu: CpuId,
    group: GroupId,
    exchanges: bool,
)
    requires each_cpu { vec_len cpus.old ≡ cpu_count_of tree.now }
    requires below { exchanges ≡ true → IsBelow tree.now cpu.0 group.0 }
    ensures { cpus.new.items ≡ stale_if tree.now exchanges group.0 cpus.old.items }
{
    if exchanges {
        make_all_stale(tree, cpus, cpu, group);
    }
}
