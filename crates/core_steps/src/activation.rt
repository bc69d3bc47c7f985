//! The stages of an activation.

ghost use Rattle.std.specs.Prelude.{◌≡◌, ◌<◌, suc};
ghost use Rattle.walk_rules.specs.declared.walk.Stage.TheVariants as stages;
ghost use Rattle.core_world.specs.Steps.{walked};
ghost use Rattle.core_state.specs.core_facts.Stepping.{MayStepAt};
ghost use Rattle.walk_rules.specs.Ranges.{WalkRanges};

use core_state::{Core, GroupChange};
use tm_base::CpuId;
use walk_rules::{Stage, Walk, at_stage, mark_next, up_next};
use wheel_core::TimerBase;

/// The level above.
fn above(level: u8) -> u8
    requires level { level < 255 }
    ensures above { result ≡ suc level }
{
    level + 1
}

/// Marks the CPU's own event as ignored.
pub(crate) fn pass_own<B: TimerBase>(core: &mut Core<B>, cpu: CpuId, walk: Walk)
    requires stands { MayStepAt core.old cpu.0 walk stages.Own }
    requires in_range { WalkRanges walk }
    ensures { core.new ≡ walked core.old cpu.0 walk stages.Own }
{
    core.kept();
    let group = core.group_on(cpu, 0);
    let child = core.side(cpu, 0);
    let next = at_stage(walk, Stage::Up);
    core.walk_at(group, GroupChange::Mark { child }, cpu, Some(next), false);
}

/// The child joins the group's active set.
pub(crate) fn go_up<B: TimerBase>(core: &mut Core<B>, cpu: CpuId, walk: Walk)
    requires stands { MayStepAt core.old cpu.0 walk stages.Up }
    requires in_range { WalkRanges walk }
    ensures { core.new ≡ walked core.old cpu.0 walk stages.Up }
{
    core.kept();
    let group = core.group_on(cpu, walk.level);
    let child = core.side(cpu, walk.level);
    let more = core.is_off(group);
    let top = core.at_top(cpu, walk.level);
    let next = up_next(top, more, walk);
    core.walk_at(group, GroupChange::Join { child }, cpu, next, true);
}

/// Marks the group's event in its parent as ignored.
pub(crate) fn pass_mark<B: TimerBase>(core: &mut Core<B>, cpu: CpuId, walk: Walk, more: bool)
    requires stands { MayStepAt core.old cpu.0 walk (stages.Mark more) }
    requires in_range { WalkRanges walk }
    ensures { core.new ≡ walked core.old cpu.0 walk (stages.Mark more) }
{
    core.kept();
    let level = above(walk.level);
    let group = core.group_on(cpu, level);
    let child = core.side(cpu, level);
    let next = mark_next(more, walk);
    core.walk_at(group, GroupChange::Mark { child }, cpu, next, false);
}
