//! What forbids that a CPU looks after another one, hands on to it, or makes a step of its walk.

ghost use Rattle.std.specs.Prelude.{◌≡◌, ◌<◌, IfNone, IfSome, None, Some, length};
ghost use Rattle.core_world.specs.Enabled.{MayGoOn, MayHandOn, MayTake, MayWalk};
ghost use Rattle.core_world.specs.World.{cpu_of, group_of};
ghost use Rattle.step_core.specs.Asking.{MayLook};
ghost use Rattle.walk_rules.specs.declared.walk.Walk.{Walk};
ghost use Rattle.walk_rules.specs.declared.walk.Stage.TheVariants as stages;
ghost use Rattle.step_causes.specs.CauseParts.{IsTakenFor};
ghost use Rattle.step_causes.specs.Causes.{IsCause, IsHandingOn};

use crate::cause_flags::{no_active, no_wake};
use crate::causes::{Cause, CpuFact};
use step_core::{Core, CpuStatus, is_due_at_leaf, is_reeval};
use tm_base::{CpuId, GroupId};
use walk_rules::{Stage, Walk};
use wheel_core::TimerBase;

/// What forbids that a CPU looks after others.
fn no_look<B: TimerBase>(core: &Core<B>, by: CpuId) -> Option<Cause>
    ensures none { IfNone result (MayLook core.now by.0) }
    ensures named { IfSome result (IsCause core.now (λ w. MayLook w by.0)) }
{
    if by.0 >= core.count() {
        return Some(Cause::Cpu(by, CpuFact::Missing));
    }
    if !core.is_placed(by) {
        return Some(Cause::Cpu(by, CpuFact::Isolated));
    }
    let status = core.status(by);
    if !status.inside {
        return Some(Cause::Cpu(by, CpuFact::Outside));
    }
    if is_reeval(status.walk) {
        return Some(Cause::Cpu(by, CpuFact::Reevaluates));
    }
    None
}

pub(crate) fn no_take<B: TimerBase>(core: &Core<B>, cpu: CpuId, by: CpuId) -> Option<Cause>
    ensures none { IfNone result (MayTake core.now cpu.0 by.0) }
    ensures named { IfSome result (IsCause core.now (λ w. MayTake w cpu.0 by.0)) }
{
    if let Some(cause) = no_look(core, by) {
        return Some(cause);
    }
    if let Some(cause) = no_wake(core, cpu) {
        return Some(cause);
    }
    if let Some(marker) = core.status(cpu).mark {
        return Some(Cause::Marked {
            cpu,
            by: CpuId(marker),
        });
    }
    if !is_due_at_leaf(core, cpu) {
        return Some(Cause::Cpu(cpu, CpuFact::EventNotDue));
    }
    None
}

/// What forbids that a CPU's walk hands on.
fn no_handing<B: TimerBase>(core: &Core<B>, cpu: CpuId) -> Option<Cause>
    requires { cpu.0 < length core.now.cpus }
    ensures none { IfNone result (IsHandingOn core.now cpu.0) }
    ensures named { IfSome result (IsCause core.now (λ w. IsHandingOn w cpu.0)) }
{
    let Some(walk) = core.status(cpu).walk else {
        return Some(Cause::Cpu(cpu, CpuFact::HasNoWalk));
    };
    if matches!(walk.stage, Stage::Handing) {
        None
    } else {
        Some(Cause::Cpu(cpu, CpuFact::WalksOn))
    }
}

pub(crate) fn no_hand_on<B: TimerBase>(core: &Core<B>, cpu: CpuId, to: CpuId) -> Option<Cause>
    ensures none { IfNone result (MayHandOn core.now cpu.0 to.0) }
    ensures named { IfSome result (IsCause core.now (λ w. MayHandOn w cpu.0 to.0)) }
{
    if cpu.0 >= core.count() {
        return Some(Cause::Cpu(cpu, CpuFact::Missing));
    }
    if to.0 >= core.count() {
        return Some(Cause::Cpu(to, CpuFact::Missing));
    }
    if to.0 == cpu.0 {
        return Some(Cause::ToItself { cpu });
    }
    if let Some(cause) = no_handing(core, cpu) {
        return Some(cause);
    }
    if !core.is_placed(to) {
        return Some(Cause::Cpu(to, CpuFact::Isolated));
    }
    no_active(core, to)
}

/// The CPU whose walk has a lock, as the cause why the walk of another CPU waits.
fn no_lock<B: TimerBase>(core: &Core<B>, cpu: CpuId, group: GroupId) -> Option<Cause>
    requires { group.0 < length core.now.groups }
    ensures none { IfNone result ((group_of core.now group.0).lock ≡ None) }
    ensures taken { IfSome result (IsTakenFor core.now cpu group.0) }
{
    let tree = core.tree();
    match core.lock_of(group) {
        Some(holder) => Some(Cause::LockTaken {
            cpu,
            level: tree.level(group),
            place: tree.place(group),
            by: holder,
        }),
        None => None,
    }
}

/// What forbids the next step of a walk.
fn no_next<B: TimerBase>(core: &Core<B>, cpu: CpuId, walk: Walk) -> Option<Cause>
    requires cpu { cpu.0 < length core.now.cpus }
    requires walk { (cpu_of core.now cpu.0).walk ≡ Some walk }
    ensures none { IfNone result (MayGoOn core.now cpu.0 walk walk.stage) }
    ensures named { IfSome result (IsCause core.now (λ w. MayWalk w cpu.0)) }
{
    core.kept();
    match walk.stage {
        Stage::LockChild => {
            let group = core.group_below(cpu, walk.level);
            no_lock(core, cpu, group)
        },
        Stage::LockGroup => {
            let group = core.group_on(cpu, walk.level);
            no_lock(core, cpu, group)
        },
        Stage::Handing => Some(Cause::Cpu(cpu, CpuFact::WaitsToHandOn)),
        Stage::Own
        | Stage::Up
        | Stage::Mark { more: _ }
        | Stage::Read
        | Stage::Child
        | Stage::Swap
        | Stage::SeeChild
        | Stage::SeeGroup
        | Stage::Scan { k: _ }
        | Stage::Store
        | Stage::First { k: _ }
        | Stage::FreeGroup
        | Stage::FreeChild
        | Stage::Finish => None,
    }
}

pub(crate) fn no_walk<B: TimerBase>(core: &Core<B>, cpu: CpuId) -> Option<Cause>
    ensures none { IfNone result (MayWalk core.now cpu.0) }
    ensures named { IfSome result (IsCause core.now (λ w. MayWalk w cpu.0)) }
{
    if cpu.0 >= core.count() {
        return Some(Cause::Cpu(cpu, CpuFact::Missing));
    }
    match core.status(cpu).walk {
        Some(walk) => no_next(core, cpu, walk),
        None => Some(Cause::Cpu(cpu, CpuFact::HasNoWalk)),
    }
}
