//! The stages that take locks and give them back.

ghost use Rattle.std.specs.Prelude.{◌≡◌};
ghost use Rattle.walk_rules.specs.declared.walk.Stage.TheVariants as stages;
ghost use Rattle.core_world.specs.Steps.{walked};
ghost use Rattle.core_state.specs.core_facts.Stepping.{MayStepAt};
ghost use Rattle.walk_rules.specs.Ranges.{WalkRanges};

use core_state::{Core, GroupChange};
use tm_base::CpuId;
use walk_rules::{Stage, Walk, at_stage, first_sight, free_group_next, freed_next};
use wheel_core::TimerBase;

/// Takes the child's lock.
pub(crate) fn lock_child<B: TimerBase>(core: &mut Core<B>, cpu: CpuId, walk: Walk)
    requires stands { MayStepAt core.old cpu.0 walk stages.LockChild }
    requires in_range { WalkRanges walk }
    ensures { core.new ≡ walked core.old cpu.0 walk stages.LockChild }
{
    core.kept();
    let group = core.group_below(cpu, walk.level);
    let next = at_stage(walk, Stage::LockGroup);
    core.walk_at(
        group,
        GroupChange::Lock { cpu: cpu.0 },
        cpu,
        Some(next),
        false,
    );
}

/// Takes the group's lock.
pub(crate) fn lock_group<B: TimerBase>(core: &mut Core<B>, cpu: CpuId, walk: Walk)
    requires stands { MayStepAt core.old cpu.0 walk stages.LockGroup }
    requires in_range { WalkRanges walk }
    ensures { core.new ≡ walked core.old cpu.0 walk stages.LockGroup }
{
    core.kept();
    let group = core.group_on(cpu, walk.level);
    let stage = first_sight(walk.level);
    let next = at_stage(walk, stage);
    core.walk_at(
        group,
        GroupChange::Lock { cpu: cpu.0 },
        cpu,
        Some(next),
        false,
    );
}

/// Gives the group's lock back.
pub(crate) fn free_group<B: TimerBase>(core: &mut Core<B>, cpu: CpuId, walk: Walk)
    requires stands { MayStepAt core.old cpu.0 walk stages.FreeGroup }
    requires in_range { WalkRanges walk }
    ensures { core.new ≡ walked core.old cpu.0 walk stages.FreeGroup }
{
    core.kept();
    let group = core.group_on(cpu, walk.level);
    let next = free_group_next(walk);
    core.walk_at(group, GroupChange::Free, cpu, Some(next), false);
}

/// Gives the child's lock back.
pub(crate) fn free_child<B: TimerBase>(core: &mut Core<B>, cpu: CpuId, walk: Walk)
    requires stands { MayStepAt core.old cpu.0 walk stages.FreeChild }
    requires in_range { WalkRanges walk }
    ensures { core.new ≡ walked core.old cpu.0 walk stages.FreeChild }
{
    core.kept();
    let group = core.group_below(cpu, walk.level);
    let next = freed_next(walk.over, walk);
    core.walk_at(group, GroupChange::Free, cpu, Some(next), false);
}
