//! How a walk ends, and one step of a walk.

ghost use Rattle.std.specs.Prelude.{◌≡◌};
ghost use Rattle.walk_rules.specs.declared.walk.Stage.TheVariants as stages;
ghost use Rattle.core_world.specs.declared.step.Step.TheVariants as steps;
ghost use Rattle.core_world.specs.Enabled.{Enabled};
ghost use Rattle.core_world.specs.Steps.{stepped, walked};
ghost use Rattle.core_state.specs.core_facts.Stepping.{MayStepAt};
ghost use Rattle.core_state.specs.Status.{finished_status};
ghost use Rattle.walk_rules.specs.Ranges.{IsInRange, WalkRanges};
ghost use Rattle.core_state.specs.Status.{handing_walk};

use crate::activation::{go_up, pass_mark, pass_own};
use crate::leaving::{exchange, read_again, read_child, read_group};
use crate::locking::{free_child, free_group, lock_child, lock_group};
use crate::telling::{read_first, scan, see_child, see_group, store};
use core_state::{Core, CpuStatus};
use tm_base::{CpuId, NEVER};
use walk_rules::{Stage, Walk, WalkKind, at_stage};
use wheel_core::TimerBase;

/// The walk of a CPU that went offline ends, or waits for another CPU to take over.
fn handing(walk: Walk) -> Option<Walk>
    requires in_range { WalkRanges walk }
    ensures walk { result ≡ handing_walk walk }
    ensures in_range { IsInRange result }
{
    if walk.first == NEVER {
        None
    } else {
        Some(at_stage(walk, Stage::Handing))
    }
}

/// What a walk leaves in its CPU.
fn finished(status: CpuStatus, walk: Walk) -> CpuStatus
    requires in_range { WalkRanges walk }
    ensures status { result ≡ finished_status status walk walk.kind }
    ensures in_range { IsInRange result.walk }
{
    match walk.kind {
        WalkKind::Activate => CpuStatus {
            walk: None,
            ..status
        },
        WalkKind::Deactivate => CpuStatus {
            wakeup: walk.pin.min(walk.first),
            walk: None,
            ..status
        },
        WalkKind::Offline => CpuStatus {
            walk: handing(walk),
            ..status
        },
        WalkKind::Reeval => CpuStatus {
            wakeup: walk.pin.min(walk.first),
            inside: false,
            walk: None,
            ..status
        },
        WalkKind::Remote { by: _ } => CpuStatus {
            mark: None,
            walk: None,
            ..status
        },
    }
}

/// Writes what came out into the CPU.
fn finish<B: TimerBase>(core: &mut Core<B>, cpu: CpuId, walk: Walk)
    requires stands { MayStepAt core.old cpu.0 walk stages.Finish }
    requires in_range { WalkRanges walk }
    ensures { core.new ≡ walked core.old cpu.0 walk stages.Finish }
{
    core.kept();
    let status = core.status(cpu);
    let left = finished(status, walk);
    core.set(cpu, left);
}

/// Makes the exchange, or finds the word changed.
fn swap<B: TimerBase>(core: &mut Core<B>, cpu: CpuId, walk: Walk)
    requires stands { MayStepAt core.old cpu.0 walk stages.Swap }
    requires in_range { WalkRanges walk }
    ensures { core.new ≡ walked core.old cpu.0 walk stages.Swap }
{
    if walk.fresh {
        exchange(core, cpu, walk);
    } else {
        read_again(core, cpu, walk);
    }
}

/// What the stage of a walk does.
fn walk_from<B: TimerBase>(core: &mut Core<B>, cpu: CpuId, walk: Walk)
    requires stands { MayStepAt core.old cpu.0 walk walk.stage }
    requires in_range { WalkRanges walk }
    ensures { core.new ≡ walked core.old cpu.0 walk walk.stage }
{
    match walk.stage {
        Stage::Own => pass_own(core, cpu, walk),
        Stage::Up => go_up(core, cpu, walk),
        Stage::Mark { more } => pass_mark(core, cpu, walk, more),
        Stage::Read => read_group(core, cpu, walk),
        Stage::Child => read_child(core, cpu, walk),
        Stage::Swap => swap(core, cpu, walk),
        Stage::LockChild => lock_child(core, cpu, walk),
        Stage::LockGroup => lock_group(core, cpu, walk),
        Stage::SeeChild => see_child(core, cpu, walk),
        Stage::SeeGroup => see_group(core, cpu, walk),
        Stage::Scan { k } => scan(core, cpu, walk, k),
        Stage::Store => store(core, cpu, walk),
        Stage::First { k } => read_first(core, cpu, walk, k),
        Stage::FreeGroup => free_group(core, cpu, walk),
        Stage::FreeChild => free_child(core, cpu, walk),
        Stage::Finish => finish(core, cpu, walk),
        Stage::Handing => {}
    }
}

/// The walk of a CPU makes its next step.
pub(crate) fn step_walk<B: TimerBase>(core: &mut Core<B>, cpu: CpuId)
    requires { Enabled core.old (steps.Walk cpu) }
    ensures { core.new ≡ stepped core.old (steps.Walk cpu) }
{
    let status = core.status(cpu);
    let Some(walk) = status.walk else {
        return;
    };
    walk_from(core, cpu, walk);
}
