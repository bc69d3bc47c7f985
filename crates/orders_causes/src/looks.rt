//! What forbids that a CPU looks after another one, hands on to it, or makes a step of its walk.

ghost use Rattle.std.specs.Prelude.{◌≡◌, IfNone, IfSome, None, Some};
ghost use Rattle.core_world.specs.Enabled.{MayGoOn, MayHandOn, MayTake, MayWalk};
ghost use Rattle.core_world.specs.World.{cpu_of, group_of};
ghost use Rattle.step_core.specs.Asking.{MayLook};
ghost use Rattle.walk_rules.specs.declared.walk.Walk.{Walk};
ghost use Rattle.walk_rules.specs.declared.walk.Stage.TheVariants as stages;
ghost use Rattle.step_causes.specs.CauseParts.{IsTakenFor};
ghost use Rattle.step_causes.specs.Causes.{IsCause, IsHandingOn};
ghost use Rattle.orders_causes.specs.Groups.{IsGroupOf};

use crate::asking::{is_due_at_leaf, is_reeval};
use crate::flags::{no_active, no_wake};
use crate::groups::{group_below, group_on, level_of, place_of};
use plain_world::PlainWorld;
use step_causes::{Cause, CpuFact};
use tm_base::{CpuId, GroupId};
use walk_rules::{Stage, Walk};

/// What forbids that a CPU looks after others.
fn no_look(world: &PlainWorld, by: CpuId) -> Option<Cause>
    ensures none { IfNone result (MayLook world.now by.0) }
    ensures named { IfSome result (IsCause world.now (λ w. MayLook w by.0)) }
{
    if by.0 >= world.count() {
        return Some(Cause::Cpu(by, CpuFact::Missing));
    }
    if !world.is_placed(by) {
        return Some(Cause::Cpu(by, CpuFact::Isolated));
    }
    let status = world.status(by);
    if !status.inside {
        return Some(Cause::Cpu(by, CpuFact::Outside));
    }
    if is_reeval(status.walk) {
        return Some(Cause::Cpu(by, CpuFact::Reevaluates));
    }
    None
}

pub(crate) fn no_take(world: &PlainWorld, cpu: CpuId, by: CpuId) -> Option<Cause>
    ensures none { IfNone result (MayTake world.now cpu.0 by.0) }
    ensures named { IfSome result (IsCause world.now (λ w. MayTake w cpu.0 by.0)) }
{
    if let Some(cause) = no_look(world, by) {
        return Some(cause);
    }
    if let Some(cause) = no_wake(world, cpu) {
        return Some(cause);
    }
    if let Some(marker) = world.status(cpu).mark {
        return Some(Cause::Marked {
            cpu,
            by: CpuId(marker),
        });
    }
    if !is_due_at_leaf(world, cpu) {
        return Some(Cause::Cpu(cpu, CpuFact::EventNotDue));
    }
    None
}

/// What forbids that a CPU's walk hands on.
fn no_handing(world: &PlainWorld, cpu: CpuId) -> Option<Cause>
    ensures none { IfNone result (IsHandingOn world.now cpu.0) }
    ensures named { IfSome result (IsCause world.now (λ w. IsHandingOn w cpu.0)) }
{
    let Some(walk) = world.status(cpu).walk else {
        return Some(Cause::Cpu(cpu, CpuFact::HasNoWalk));
    };
    if matches!(walk.stage, Stage::Handing) {
        None
    } else {
        Some(Cause::Cpu(cpu, CpuFact::WalksOn))
    }
}

pub(crate) fn no_hand_on(world: &PlainWorld, cpu: CpuId, to: CpuId) -> Option<Cause>
    ensures none { IfNone result (MayHandOn world.now cpu.0 to.0) }
    ensures named { IfSome result (IsCause world.now (λ w. MayHandOn w cpu.0 to.0)) }
{
    if cpu.0 >= world.count() {
        return Some(Cause::Cpu(cpu, CpuFact::Missing));
    }
    if to.0 >= world.count() {
        return Some(Cause::Cpu(to, CpuFact::Missing));
    }
    if to.0 == cpu.0 {
        return Some(Cause::ToItself { cpu });
    }
    if let Some(cause) = no_handing(world, cpu) {
        return Some(cause);
    }
    if !world.is_placed(to) {
        return Some(Cause::Cpu(to, CpuFact::Isolated));
    }
    no_active(world, to)
}

/// The CPU whose walk has a lock, as the cause why the walk of another CPU waits.
fn no_lock(world: &PlainWorld, cpu: CpuId, group: GroupId) -> Option<Cause>
    requires { IsGroupOf world.now.tree group.0 }
    ensures none { IfNone result ((group_of world.now group.0).lock ≡ None) }
    ensures taken { IfSome result (IsTakenFor world.now cpu group.0) }
{
    match world.lock_of(group) {
        Some(holder) => Some(Cause::LockTaken {
            cpu,
            level: level_of(world, group),
            place: place_of(world, group),
            by: CpuId(holder),
        }),
        None => None,
    }
}

/// What forbids the next step of a walk.
fn no_next(world: &PlainWorld, cpu: CpuId, walk: Walk) -> Option<Cause>
    requires walk { (cpu_of world.now cpu.0).walk ≡ Some walk }
    ensures none { IfNone result (MayGoOn world.now cpu.0 walk walk.stage) }
    ensures named { IfSome result (IsCause world.now (λ w. MayWalk w cpu.0)) }
{
    match walk.stage {
        Stage::LockChild => {
            let group = group_below(world, cpu, walk.level);
            no_lock(world, cpu, group)
        },
        Stage::LockGroup => {
            let group = group_on(world, cpu, walk.level);
            no_lock(world, cpu, group)
        },
        Stage::Handing => Some(Cause::Cpu(cpu, CpuFact::WaitsToHandOn)),
        Stage::Own
        | Stage::Up
        | Stage::Mark { more: _ }
        | Stage::Read
        | Stage::Child
        | Stage::Swap
        | Stage::SeeChild
        | Stage::SeeGroup
        | Stage::Scan { k: _ }
        | Stage::Store
        | Stage::First { k: _ }
        | Stage::FreeGroup
        | Stage::FreeChild
        | Stage::Finish => None,
    }
}

pub(crate) fn no_walk(world: &PlainWorld, cpu: CpuId) -> Option<Cause>
    ensures none { IfNone result (MayWalk world.now cpu.0) }
    ensures named { IfSome result (IsCause world.now (λ w. MayWalk w cpu.0)) }
{
    if cpu.0 >= world.count() {
        return Some(Cause::Cpu(cpu, CpuFact::Missing));
    }
    match world.status(cpu).walk {
        Some(walk) => no_next(world, cpu, walk),
        None => Some(Cause::Cpu(cpu, CpuFact::HasNoWalk)),
    }
}
