//! Steps that change what a CPU is, and begin walks.

ghost use Rattle.std.specs.Prelude.{◌≡◌};
ghost use Rattle.core_world.specs.declared.step.Step.TheVariants as steps;
ghost use Rattle.core_world.specs.Enabled.{Enabled};
ghost use Rattle.core_world.specs.Steps.{stepped};

use crate::begin::{begins, begins_with};
use core_state::{Core, CpuStatus};
use tm_base::{CpuId, NEVER};
use walk_rules::{Stage, WalkKind};
use wheel_core::TimerBase;

/// An interrupt begins.
pub(crate) fn enter<B: TimerBase>(core: &mut Core<B>, cpu: CpuId)
    requires { Enabled core.old (steps.Enter cpu) }
    ensures { core.new ≡ stepped core.old (steps.Enter cpu) }
{
    let status = core.status(cpu);
    core.set(
        cpu,
        CpuStatus {
            inside: true,
            ..status
        },
    );
}

/// The interrupt of an active CPU ends.
pub(crate) fn leave<B: TimerBase>(core: &mut Core<B>, cpu: CpuId)
    requires { Enabled core.old (steps.Leave cpu) }
    ensures { core.new ≡ stepped core.old (steps.Leave cpu) }
{
    let status = core.status(cpu);
    core.set(
        cpu,
        CpuStatus {
            inside: false,
            ..status
        },
    );
}

/// A CPU goes idle, and a walk begins that tells its group.
pub(crate) fn go_idle<B: TimerBase>(core: &mut Core<B>, cpu: CpuId)
    requires { Enabled core.old (steps.Idle cpu) }
    ensures { core.new ≡ stepped core.old (steps.Idle cpu) }
{
    let status = core.status(cpu);
    let walk = begins(core, cpu, WalkKind::Deactivate, Stage::Read);
    core.set(
        cpu,
        CpuStatus {
            idle: true,
            walk,
            ..status
        },
    );
}

/// A CPU becomes active, and a walk begins that tells its group.
pub(crate) fn wake<B: TimerBase>(core: &mut Core<B>, cpu: CpuId)
    requires { Enabled core.old (steps.Wake cpu) }
    ensures { core.new ≡ stepped core.old (steps.Wake cpu) }
{
    let status = core.status(cpu);
    let walk = begins(core, cpu, WalkKind::Activate, Stage::Own);
    core.set(
        cpu,
        CpuStatus {
            idle: false,
            wakeup: NEVER,
            walk,
            ..status
        },
    );
}

/// A CPU goes offline, and a walk begins that takes it out of its group.
pub(crate) fn go_offline<B: TimerBase>(core: &mut Core<B>, cpu: CpuId)
    requires { Enabled core.old (steps.Offline cpu) }
    ensures { core.new ≡ stepped core.old (steps.Offline cpu) }
{
    let status = core.status(cpu);
    let walk = begins_with(core, cpu, WalkKind::Offline, Stage::Read, NEVER);
    core.set(
        cpu,
        CpuStatus {
            online: false,
            idle: true,
            walk,
            ..status
        },
    );
}

/// A CPU comes online, and a walk begins that tells its group.
pub(crate) fn come_online<B: TimerBase>(core: &mut Core<B>, cpu: CpuId)
    requires { Enabled core.old (steps.Online cpu) }
    ensures { core.new ≡ stepped core.old (steps.Online cpu) }
{
    let status = core.status(cpu);
    let walk = begins(core, cpu, WalkKind::Activate, Stage::Own);
    core.set(
        cpu,
        CpuStatus {
            online: true,
            idle: false,
            walk,
            ..status
        },
    );
}

/// An idle CPU begins to tell its first timer again.
pub(crate) fn reevaluate<B: TimerBase>(core: &mut Core<B>, cpu: CpuId)
    requires { Enabled core.old (steps.Reeval cpu) }
    ensures { core.new ≡ stepped core.old (steps.Reeval cpu) }
{
    let status = core.status(cpu);
    let walk = begins(core, cpu, WalkKind::Reeval, Stage::LockGroup);
    core.set(cpu, CpuStatus { walk, ..status });
}

/// A CPU marks another one, to run its timers.
pub(crate) fn take<B: TimerBase>(core: &mut Core<B>, cpu: CpuId, by: CpuId)
    requires { Enabled core.old (steps.Take cpu by) }
    ensures { core.new ≡ stepped core.old (steps.Take cpu by) }
{
    let status = core.status(cpu);
    core.set(
        cpu,
        CpuStatus {
            mark: Some(by.0),
            ..status
        },
    );
}

/// The mark is taken away.
pub(crate) fn release<B: TimerBase>(core: &mut Core<B>, cpu: CpuId)
    requires { Enabled core.old (steps.Release cpu) }
    ensures { core.new ≡ stepped core.old (steps.Release cpu) }
{
    let status = core.status(cpu);
    core.set(
        cpu,
        CpuStatus {
            mark: None,
            ..status
        },
    );
}

/// The walk of a CPU that went offline hands on to another one.
pub(crate) fn hand_on<B: TimerBase>(core: &mut Core<B>, cpu: CpuId, to: CpuId)
    requires { Enabled core.old (steps.HandOn cpu to) }
    ensures { core.new ≡ stepped core.old (steps.HandOn cpu to) }
{
    let status = core.status(cpu);
    core.set(
        cpu,
        CpuStatus {
            walk: None,
            ..status
        },
    );
}

/// The first timer of a marked CPU is told again by the marker.
pub(crate) fn carry<B: TimerBase>(core: &mut Core<B>, cpu: CpuId)
    requires { Enabled core.old (steps.Carry cpu) }
    ensures { core.new ≡ stepped core.old (steps.Carry cpu) }
{
    let status = core.status(cpu);
    let by = CpuId(status.mark.unwrap_or(0));
    let walk = begins(core, cpu, WalkKind::Remote { by }, Stage::LockGroup);
    core.set(cpu, CpuStatus { walk, ..status });
}
