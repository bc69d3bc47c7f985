//! The stages by which a child leaves an active set.

ghost use Rattle.std.specs.Prelude.{◌≡◌, false, true};
ghost use Rattle.walk_rules.specs.declared.walk.Stage.TheVariants as stages;
ghost use Rattle.core_world.specs.Steps.{swapped, walked};
ghost use Rattle.core_state.specs.core_facts.Stepping.{MayStepAt};
ghost use Rattle.walk_rules.specs.Ranges.{WalkRanges};

use core_state::{Core, GroupChange};
use tm_base::CpuId;
use walk_rules::{Walk, child_next, read_next, swap_next};
use wheel_core::TimerBase;

/// Reads the group's word.
pub(crate) fn read_group<B: TimerBase>(core: &mut Core<B>, cpu: CpuId, walk: Walk)
    requires stands { MayStepAt core.old cpu.0 walk stages.Read }
    requires in_range { WalkRanges walk }
    ensures { core.new ≡ walked core.old cpu.0 walk stages.Read }
{
    core.kept();
    let next = read_next(walk);
    core.set_walk(cpu, Some(next));
}

/// Reads the child's word.
pub(crate) fn read_child<B: TimerBase>(core: &mut Core<B>, cpu: CpuId, walk: Walk)
    requires stands { MayStepAt core.old cpu.0 walk stages.Child }
    requires in_range { WalkRanges walk }
    ensures { core.new ≡ walked core.old cpu.0 walk stages.Child }
{
    core.kept();
    let child_on = core.child_on(cpu, walk.level);
    let next = child_next(child_on, walk);
    core.set_walk(cpu, Some(next));
}

/// The child leaves the group's active set, unless it was found active.
pub(crate) fn exchange<B: TimerBase>(core: &mut Core<B>, cpu: CpuId, walk: Walk)
    requires stands { MayStepAt core.old cpu.0 walk stages.Swap }
    requires in_range { WalkRanges walk }
    requires fresh { walk.fresh ≡ true }
    ensures { core.new ≡ swapped core.old cpu.0 walk true }
{
    core.kept();
    let group = core.group_on(cpu, walk.level);
    let child = core.side(cpu, walk.level);
    let next = swap_next(true, walk);
    core.walk_at(
        group,
        GroupChange::Leave {
            child,
            child_on: walk.child_on,
        },
        cpu,
        Some(next),
        true,
    );
}

/// The exchange fails, and reads the word again.
pub(crate) fn read_again<B: TimerBase>(core: &mut Core<B>, cpu: CpuId, walk: Walk)
    requires stands { MayStepAt core.old cpu.0 walk stages.Swap }
    requires in_range { WalkRanges walk }
    requires stale { walk.fresh ≡ false }
    ensures { core.new ≡ swapped core.old cpu.0 walk false }
{
    core.kept();
    let next = swap_next(false, walk);
    core.set_walk(cpu, Some(next));
}
