//! Steps that change what a CPU is, and begin walks.

ghost use Rattle.std.specs.Prelude.{◌≡◌};
ghost use Rattle.core_world.specs.declared.step.Step.TheVariants as steps;
ghost use Rattle.core_world.specs.Steps.{begins, begins_with, stepped};

use crate::world::PlainWorld;
use core_parts::CpuStatus;
use tm_base::{CpuId, Jiffy, NEVER};
use walk_rules::{Stage, Walk, WalkKind, begun_where};

/// The walk with which a CPU begins, to tell a time, in jiffies.
fn begins_with(
    world: &PlainWorld,
    cpu: CpuId,
    kind: WalkKind,
    stage: Stage,
    next: Jiffy,
) -> Option<Walk>
    ensures { result ≡ begins_with world.now cpu.0 kind stage next }
{
    let pin = world.events_of(cpu).pin;
    begun_where(world.has_group(cpu), kind, stage, pin, next)
}

/// The walk with which a CPU begins, to tell what it has.
fn begins(world: &PlainWorld, cpu: CpuId, kind: WalkKind, stage: Stage) -> Option<Walk>
    ensures { result ≡ begins world.now cpu.0 kind stage }
{
    let next = world.events_of(cpu).next;
    begins_with(world, cpu, kind, stage, next)
}

/// An interrupt begins.
pub(crate) fn enter(world: &mut PlainWorld, cpu: CpuId)
    ensures { world.new ≡ stepped world.old (steps.Enter cpu) }
{
    let status = world.status(cpu);
    world.set(
        cpu,
        CpuStatus {
            inside: true,
            ..status
        },
    );
}

/// The interrupt of an active CPU ends.
pub(crate) fn leave(world: &mut PlainWorld, cpu: CpuId)
    ensures { world.new ≡ stepped world.old (steps.Leave cpu) }
{
    let status = world.status(cpu);
    world.set(
        cpu,
        CpuStatus {
            inside: false,
            ..status
        },
    );
}

/// A CPU goes idle, and a walk begins that tells its group.
pub(crate) fn go_idle(world: &mut PlainWorld, cpu: CpuId)
    ensures { world.new ≡ stepped world.old (steps.Idle cpu) }
{
    let status = world.status(cpu);
    let walk = begins(world, cpu, WalkKind::Deactivate, Stage::Read);
    world.set(
        cpu,
        CpuStatus {
            idle: true,
            walk,
            ..status
        },
    );
}

/// A CPU becomes active, and a walk begins that tells its group.
pub(crate) fn wake(world: &mut PlainWorld, cpu: CpuId)
    ensures { world.new ≡ stepped world.old (steps.Wake cpu) }
{
    let status = world.status(cpu);
    let walk = begins(world, cpu, WalkKind::Activate, Stage::Own);
    world.set(
        cpu,
        CpuStatus {
            idle: false,
            wakeup: NEVER,
            walk,
            ..status
        },
    );
}

/// A CPU goes offline, and a walk begins that takes it out of its group.
pub(crate) fn go_offline(world: &mut PlainWorld, cpu: CpuId)
    ensures { world.new ≡ stepped world.old (steps.Offline cpu) }
{
    let status = world.status(cpu);
    let walk = begins_with(world, cpu, WalkKind::Offline, Stage::Read, NEVER);
    world.set(
        cpu,
        CpuStatus {
            online: false,
            idle: true,
            walk,
            ..status
        },
    );
}

/// A CPU comes online, and a walk begins that tells its group.
pub(crate) fn come_online(world: &mut PlainWorld, cpu: CpuId)
    ensures { world.new ≡ stepped world.old (steps.Online cpu) }
{
    let status = world.status(cpu);
    let walk = begins(world, cpu, WalkKind::Activate, Stage::Own);
    world.set(
        cpu,
        CpuStatus {
            online: true,
            idle: false,
            walk,
            ..status
        },
    );
}

/// An idle CPU begins to tell its first timer again.
pub(crate) fn reevaluate(world: &mut PlainWorld, cpu: CpuId)
    ensures { world.new ≡ stepped world.old (steps.Reeval cpu) }
{
    let status = world.status(cpu);
    let walk = begins(world, cpu, WalkKind::Reeval, Stage::LockGroup);
    world.set(cpu, CpuStatus { walk, ..status });
}

/// A CPU marks another one, to run its timers.
pub(crate) fn take(world: &mut PlainWorld, cpu: CpuId, by: CpuId)
    ensures { world.new ≡ stepped world.old (steps.Take cpu by) }
{
    let status = world.status(cpu);
    world.set(
        cpu,
        CpuStatus {
            mark: Some(by.0),
            ..status
        },
    );
}

/// The mark is taken away.
pub(crate) fn release(world: &mut PlainWorld, cpu: CpuId)
    ensures { world.new ≡ stepped world.old (steps.Release cpu) }
{
    let status = world.status(cpu);
    world.set(
        cpu,
        CpuStatus {
            mark: None,
            ..status
        },
    );
}

/// The walk of a CPU that went offline hands on to another one.
pub(crate) fn hand_on(world: &mut PlainWorld, cpu: CpuId, to: CpuId)
    ensures { world.new ≡ stepped world.old (steps.HandOn cpu to) }
{
    let status = world.status(cpu);
    world.set(
        cpu,
        CpuStatus {
            walk: None,
            ..status
        },
    );
}

/// The first timer of a marked CPU is told again by the marker.
pub(crate) fn carry(world: &mut PlainWorld, cpu: CpuId)
    ensures { world.new ≡ stepped world.old (steps.Carry cpu) }
{
    let status = world.status(cpu);
    let by = CpuId(status.mark.unwrap_or(0));
    let walk = begins(world, cpu, WalkKind::Remote { by }, Stage::LockGroup);
    world.set(cpu, CpuStatus { walk, ..status });
}
