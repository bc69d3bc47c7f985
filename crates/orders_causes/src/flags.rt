//! What forbids steps that change what a CPU is.

ghost use Rattle.std.specs.Prelude.{◌≡◌, IfNone, IfSome, true};
ghost use Rattle.core_world.specs.Enabled.{IsFree, MayCarry};
ghost use Rattle.core_world.specs.Enabled.{MayComeOnline, MayEnter, MayGoOffline, MayIdle};
ghost use Rattle.core_world.specs.Enabled.{MayLeave, MayReeval, MayRelease, MayTime};
ghost use Rattle.core_world.specs.Enabled.{MayWake};
ghost use Rattle.core_world.specs.World.{cpu_of, is_active};
ghost use Rattle.step_causes.specs.Causes.{IsCause};

use crate::asking::{has_marked, is_soon, may_be_missed};
use plain_world::PlainWorld;
use step_causes::{Cause, CpuFact};
use tm_base::{CpuId, Jiffy, TIME_LIMIT};

/// What forbids that a CPU is there and has no walk.
pub(crate) fn no_free(world: &PlainWorld, cpu: CpuId) -> Option<Cause>
    ensures none { IfNone result (IsFree world.now cpu.0) }
    ensures named { IfSome result (IsCause world.now (λ w. IsFree w cpu.0)) }
{
    if cpu.0 >= world.count() {
        return Some(Cause::Cpu(cpu, CpuFact::Missing));
    }
    match world.status(cpu).walk {
        Some(_) => Some(Cause::Cpu(cpu, CpuFact::HasWalk)),
        None => None,
    }
}

/// What forbids that a CPU is active.
pub(crate) fn no_active(world: &PlainWorld, cpu: CpuId) -> Option<Cause>
    ensures none { IfNone result (is_active (cpu_of world.now cpu.0) ≡ true) }
    ensures named { IfSome result (IsCause world.now (λ w. is_active (cpu_of w cpu.0) ≡ true)) }
{
    let status = world.status(cpu);
    if !status.online {
        return Some(Cause::Cpu(cpu, CpuFact::Offline));
    }
    if status.idle {
        return Some(Cause::Cpu(cpu, CpuFact::Idle));
    }
    None
}

pub(crate) fn no_time(world: &PlainWorld, now: Jiffy) -> Option<Cause>
    ensures none { IfNone result (MayTime world.now now) }
    ensures named { IfSome result (IsCause world.now (λ w. MayTime w now)) }
{
    if now < world.now() {
        return Some(Cause::Past { at: now });
    }
    if now >= TIME_LIMIT - 2 {
        return Some(Cause::TooLate {
            at: now,
            limit: TIME_LIMIT - 2,
        });
    }
    None
}

pub(crate) fn no_enter(world: &PlainWorld, cpu: CpuId) -> Option<Cause>
    ensures none { IfNone result (MayEnter world.now cpu.0) }
    ensures named { IfSome result (IsCause world.now (λ w. MayEnter w cpu.0)) }
{
    if let Some(cause) = no_free(world, cpu) {
        return Some(cause);
    }
    let status = world.status(cpu);
    if !status.online {
        return Some(Cause::Cpu(cpu, CpuFact::Offline));
    }
    if status.inside {
        return Some(Cause::Cpu(cpu, CpuFact::Inside));
    }
    None
}

pub(crate) fn no_leave(world: &PlainWorld, cpu: CpuId) -> Option<Cause>
    ensures none { IfNone result (MayLeave world.now cpu.0) }
    ensures named { IfSome result (IsCause world.now (λ w. MayLeave w cpu.0)) }
{
    if let Some(cause) = no_free(world, cpu) {
        return Some(cause);
    }
    let status = world.status(cpu);
    if !status.inside {
        return Some(Cause::Cpu(cpu, CpuFact::Outside));
    }
    if status.idle {
        return Some(Cause::Cpu(cpu, CpuFact::Idle));
    }
    if has_marked(world, cpu) {
        return Some(Cause::Cpu(cpu, CpuFact::Marks));
    }
    None
}

pub(crate) fn no_idle(world: &PlainWorld, cpu: CpuId) -> Option<Cause>
    ensures none { IfNone result (MayIdle world.now cpu.0) }
    ensures named { IfSome result (IsCause world.now (λ w. MayIdle w cpu.0)) }
{
    if let Some(cause) = no_free(world, cpu) {
        return Some(cause);
    }
    if let Some(cause) = no_active(world, cpu) {
        return Some(cause);
    }
    if world.status(cpu).inside {
        return Some(Cause::Cpu(cpu, CpuFact::Inside));
    }
    let events = world.events_of(cpu);
    let at = events.pin.min(events.first_global);
    if is_soon(world.now(), at) {
        return Some(Cause::EventSoon { cpu, at });
    }
    None
}

pub(crate) fn no_wake(world: &PlainWorld, cpu: CpuId) -> Option<Cause>
    ensures none { IfNone result (MayWake world.now cpu.0) }
    ensures named { IfSome result (IsCause world.now (λ w. MayWake w cpu.0)) }
{
    if let Some(cause) = no_free(world, cpu) {
        return Some(cause);
    }
    let status = world.status(cpu);
    if !status.online {
        return Some(Cause::Cpu(cpu, CpuFact::Offline));
    }
    if !status.idle {
        return Some(Cause::Cpu(cpu, CpuFact::NotIdle));
    }
    None
}

pub(crate) fn no_offline(world: &PlainWorld, cpu: CpuId) -> Option<Cause>
    ensures none { IfNone result (MayGoOffline world.now cpu.0) }
    ensures named { IfSome result (IsCause world.now (λ w. MayGoOffline w cpu.0)) }
{
    if let Some(cause) = no_free(world, cpu) {
        return Some(cause);
    }
    if let Some(cause) = no_active(world, cpu) {
        return Some(cause);
    }
    if world.status(cpu).inside {
        return Some(Cause::Cpu(cpu, CpuFact::Inside));
    }
    if !may_be_missed(world, cpu) {
        return Some(Cause::Cpu(cpu, CpuFact::LastOnline));
    }
    None
}

pub(crate) fn no_online(world: &PlainWorld, cpu: CpuId) -> Option<Cause>
    ensures none { IfNone result (MayComeOnline world.now cpu.0) }
    ensures named { IfSome result (IsCause world.now (λ w. MayComeOnline w cpu.0)) }
{
    if let Some(cause) = no_free(world, cpu) {
        return Some(cause);
    }
    if world.status(cpu).online {
        return Some(Cause::Cpu(cpu, CpuFact::Online));
    }
    None
}

pub(crate) fn no_reeval(world: &PlainWorld, cpu: CpuId) -> Option<Cause>
    ensures none { IfNone result (MayReeval world.now cpu.0) }
    ensures named { IfSome result (IsCause world.now (λ w. MayReeval w cpu.0)) }
{
    if let Some(cause) = no_wake(world, cpu) {
        return Some(cause);
    }
    if !world.status(cpu).inside {
        return Some(Cause::Cpu(cpu, CpuFact::Outside));
    }
    if has_marked(world, cpu) {
        return Some(Cause::Cpu(cpu, CpuFact::Marks));
    }
    None
}

pub(crate) fn no_carry(world: &PlainWorld, cpu: CpuId) -> Option<Cause>
    ensures none { IfNone result (MayCarry world.now cpu.0) }
    ensures named { IfSome result (IsCause world.now (λ w. MayCarry w cpu.0)) }
{
    if let Some(cause) = no_wake(world, cpu) {
        return Some(cause);
    }
    match world.status(cpu).mark {
        Some(_) => None,
        None => Some(Cause::Cpu(cpu, CpuFact::Unmarked)),
    }
}

pub(crate) fn no_release(world: &PlainWorld, cpu: CpuId) -> Option<Cause>
    ensures none { IfNone result (MayRelease world.now cpu.0) }
    ensures named { IfSome result (IsCause world.now (λ w. MayRelease w cpu.0)) }
{
    if let Some(cause) = no_free(world, cpu) {
        return Some(cause);
    }
    let status = world.status(cpu);
    if status.mark.is_none() {
        return Some(Cause::Cpu(cpu, CpuFact::Unmarked));
    }
    if status.online && status.idle {
        return Some(Cause::Cpu(cpu, CpuFact::OnlineIdle));
    }
    None
}
