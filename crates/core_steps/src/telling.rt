//! The stages that read and write events under locks.

ghost use Rattle.std.specs.Prelude.{◌≡◌};
ghost use Rattle.walk_rules.specs.declared.walk.Stage.TheVariants as stages;
ghost use Rattle.core_world.specs.Steps.{walked};
ghost use Rattle.core_state.specs.core_facts.Stepping.{MayStepAt};
ghost use Rattle.walk_rules.specs.Ranges.{WalkRanges};

use core_state::{Core, GroupChange};
use tm_base::CpuId;
use walk_rules::{
    Walk, first_next, scan_next, see_child_next, see_group_next, store_next, stored_event,
};
use wheel_core::TimerBase;

/// Reads the child's word under its lock.
pub(crate) fn see_child<B: TimerBase>(core: &mut Core<B>, cpu: CpuId, walk: Walk)
    requires stands { MayStepAt core.old cpu.0 walk stages.SeeChild }
    requires in_range { WalkRanges walk }
    ensures { core.new ≡ walked core.old cpu.0 walk stages.SeeChild }
{
    core.kept();
    let child_on = core.child_on(cpu, walk.level);
    let next = see_child_next(child_on, walk);
    core.set_walk(cpu, Some(next));
}

/// Reads the group's word under its lock.
pub(crate) fn see_group<B: TimerBase>(core: &mut Core<B>, cpu: CpuId, walk: Walk)
    requires stands { MayStepAt core.old cpu.0 walk stages.SeeGroup }
    requires in_range { WalkRanges walk }
    ensures { core.new ≡ walked core.old cpu.0 walk stages.SeeGroup }
{
    core.kept();
    let group = core.group_on(cpu, walk.level);
    let on = core.is_on(group);
    let top = core.at_top(cpu, walk.level);
    let next = see_group_next(on, top, walk);
    core.set_walk(cpu, Some(next));
}

/// Reads an event of the child.
pub(crate) fn scan<B: TimerBase>(core: &mut Core<B>, cpu: CpuId, walk: Walk, k: u8)
    requires stands { MayStepAt core.old cpu.0 walk (stages.Scan k) }
    requires in_range { WalkRanges walk }
    ensures { core.new ≡ walked core.old cpu.0 walk (stages.Scan k) }
{
    core.kept();
    let group = core.group_below(cpu, walk.level);
    let event = core.event_of(group, k);
    let next = scan_next(event, k, walk);
    core.set_walk(cpu, Some(next));
}

/// Writes the child's event into the group.
pub(crate) fn store<B: TimerBase>(core: &mut Core<B>, cpu: CpuId, walk: Walk)
    requires stands { MayStepAt core.old cpu.0 walk stages.Store }
    requires in_range { WalkRanges walk }
    ensures { core.new ≡ walked core.old cpu.0 walk stages.Store }
{
    core.kept();
    let group = core.group_on(cpu, walk.level);
    let child = core.side(cpu, walk.level);
    let event = stored_event(cpu, walk);
    let top = core.at_top(cpu, walk.level);
    let next = store_next(top, walk);
    core.walk_at(
        group,
        GroupChange::Store { child, event },
        cpu,
        Some(next),
        false,
    );
}

/// Reads an event of the top.
pub(crate) fn read_first<B: TimerBase>(core: &mut Core<B>, cpu: CpuId, walk: Walk, k: u8)
    requires stands { MayStepAt core.old cpu.0 walk (stages.First k) }
    requires in_range { WalkRanges walk }
    ensures { core.new ≡ walked core.old cpu.0 walk (stages.First k) }
{
    core.kept();
    let group = core.group_on(cpu, walk.level);
    let event = core.event_of(group, k);
    let next = first_next(event, k, walk);
    core.set_walk(cpu, Some(next));
}
