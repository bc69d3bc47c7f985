//! What forbids steps that change what a CPU is.

ghost use Rattle.std.specs.Prelude.{◌≡◌, ◌<◌, IfNone, IfSome, Some, length, true};
ghost use Rattle.core_world.specs.Enabled.{IsFree, MayCarry};
ghost use Rattle.core_world.specs.Enabled.{MayComeOnline, MayEnter, MayGoOffline, MayIdle};
ghost use Rattle.core_world.specs.Enabled.{MayLeave, MayReeval, MayRelease, MayTime};
ghost use Rattle.core_world.specs.Enabled.{MayWake};
ghost use Rattle.core_world.specs.World.{cpu_of, is_active};
ghost use Rattle.walk_rules.specs.declared.walk.WalkKind.TheVariants as kinds;
ghost use Rattle.step_causes.specs.Causes.{IsCause};

use crate::causes::{Cause, CpuFact};
use step_core::{Core, CpuStatus, may_be_missed};
use tm_base::{CpuId, Jiffy, TIME_LIMIT};
use walk_rules::{Walk, WalkKind};
use wheel_core::TimerBase;

/// What forbids that a CPU is there and has no walk.
pub(crate) fn no_free<B: TimerBase>(core: &Core<B>, cpu: CpuId) -> Option<Cause>
    ensures none { IfNone result (IsFree core.now cpu.0) }
    ensures named { IfSome result (IsCause core.now (λ w. IsFree w cpu.0)) }
{
    if cpu.0 >= core.count() {
        return Some(Cause::Cpu(cpu, CpuFact::Missing));
    }
    match core.status(cpu).walk {
        Some(_) => Some(Cause::Cpu(cpu, CpuFact::HasWalk)),
        None => None,
    }
}

/// What forbids that a CPU is active.
pub(crate) fn no_active<B: TimerBase>(core: &Core<B>, cpu: CpuId) -> Option<Cause>
    requires { cpu.0 < length core.now.cpus }
    ensures none { IfNone result (is_active (cpu_of core.now cpu.0) ≡ true) }
    ensures named { IfSome result (IsCause core.now (λ w. is_active (cpu_of w cpu.0) ≡ true)) }
{
    let status = core.status(cpu);
    if !status.online {
        return Some(Cause::Cpu(cpu, CpuFact::Offline));
    }
    if status.idle {
        return Some(Cause::Cpu(cpu, CpuFact::Idle));
    }
    None
}

pub(crate) fn no_time<B: TimerBase>(core: &Core<B>, now: Jiffy) -> Option<Cause>
    ensures none { IfNone result (MayTime core.now now) }
    ensures named { IfSome result (IsCause core.now (λ w. MayTime w now)) }
{
    if now < core.now() {
        return Some(Cause::Past { at: now });
    }
    if now >= TIME_LIMIT - 2 {
        return Some(Cause::TooLate {
            at: now,
            limit: TIME_LIMIT - 2,
        });
    }
    None
}

pub(crate) fn no_enter<B: TimerBase>(core: &Core<B>, cpu: CpuId) -> Option<Cause>
    ensures none { IfNone result (MayEnter core.now cpu.0) }
    ensures named { IfSome result (IsCause core.now (λ w. MayEnter w cpu.0)) }
{
    if let Some(cause) = no_free(core, cpu) {
        return Some(cause);
    }
    let status = core.status(cpu);
    if !status.online {
        return Some(Cause::Cpu(cpu, CpuFact::Offline));
    }
    if status.inside {
        return Some(Cause::Cpu(cpu, CpuFact::Inside));
    }
    None
}

pub(crate) fn no_leave<B: TimerBase>(core: &Core<B>, cpu: CpuId) -> Option<Cause>
    ensures none { IfNone result (MayLeave core.now cpu.0) }
    ensures named { IfSome result (IsCause core.now (λ w. MayLeave w cpu.0)) }
{
    if let Some(cause) = no_free(core, cpu) {
        return Some(cause);
    }
    let status = core.status(cpu);
    if !status.inside {
        return Some(Cause::Cpu(cpu, CpuFact::Outside));
    }
    if status.idle {
        return Some(Cause::Cpu(cpu, CpuFact::Idle));
    }
    if core.has_marked(cpu) {
        return Some(Cause::Cpu(cpu, CpuFact::Marks));
    }
    None
}

pub(crate) fn no_idle<B: TimerBase>(core: &Core<B>, cpu: CpuId) -> Option<Cause>
    ensures none { IfNone result (MayIdle core.now cpu.0) }
    ensures named { IfSome result (IsCause core.now (λ w. MayIdle w cpu.0)) }
{
    if let Some(cause) = no_free(core, cpu) {
        return Some(cause);
    }
    if let Some(cause) = no_active(core, cpu) {
        return Some(cause);
    }
    if core.status(cpu).inside {
        return Some(Cause::Cpu(cpu, CpuFact::Inside));
    }
    let events = core.events_of(cpu);
    let at = events.pin.min(events.first_global);
    core.kept();
    if at <= core.now() + 1 {
        return Some(Cause::EventSoon { cpu, at });
    }
    None
}

pub(crate) fn no_wake<B: TimerBase>(core: &Core<B>, cpu: CpuId) -> Option<Cause>
    ensures none { IfNone result (MayWake core.now cpu.0) }
    ensures named { IfSome result (IsCause core.now (λ w. MayWake w cpu.0)) }
{
    if let Some(cause) = no_free(core, cpu) {
        return Some(cause);
    }
    let status = core.status(cpu);
    if !status.online {
        return Some(Cause::Cpu(cpu, CpuFact::Offline));
    }
    if !status.idle {
        return Some(Cause::Cpu(cpu, CpuFact::NotIdle));
    }
    None
}

pub(crate) fn no_offline<B: TimerBase>(core: &Core<B>, cpu: CpuId) -> Option<Cause>
    ensures none { IfNone result (MayGoOffline core.now cpu.0) }
    ensures named { IfSome result (IsCause core.now (λ w. MayGoOffline w cpu.0)) }
{
    if let Some(cause) = no_free(core, cpu) {
        return Some(cause);
    }
    if let Some(cause) = no_active(core, cpu) {
        return Some(cause);
    }
    if core.status(cpu).inside {
        return Some(Cause::Cpu(cpu, CpuFact::Inside));
    }
    if !may_be_missed(core, cpu) {
        return Some(Cause::Cpu(cpu, CpuFact::LastOnline));
    }
    None
}

pub(crate) fn no_online<B: TimerBase>(core: &Core<B>, cpu: CpuId) -> Option<Cause>
    ensures none { IfNone result (MayComeOnline core.now cpu.0) }
    ensures named { IfSome result (IsCause core.now (λ w. MayComeOnline w cpu.0)) }
{
    if let Some(cause) = no_free(core, cpu) {
        return Some(cause);
    }
    if core.status(cpu).online {
        return Some(Cause::Cpu(cpu, CpuFact::Online));
    }
    None
}

pub(crate) fn no_reeval<B: TimerBase>(core: &Core<B>, cpu: CpuId) -> Option<Cause>
    ensures none { IfNone result (MayReeval core.now cpu.0) }
    ensures named { IfSome result (IsCause core.now (λ w. MayReeval w cpu.0)) }
{
    if let Some(cause) = no_wake(core, cpu) {
        return Some(cause);
    }
    if !core.status(cpu).inside {
        return Some(Cause::Cpu(cpu, CpuFact::Outside));
    }
    if core.has_marked(cpu) {
        return Some(Cause::Cpu(cpu, CpuFact::Marks));
    }
    None
}

pub(crate) fn no_carry<B: TimerBase>(core: &Core<B>, cpu: CpuId) -> Option<Cause>
    ensures none { IfNone result (MayCarry core.now cpu.0) }
    ensures named { IfSome result (IsCause core.now (λ w. MayCarry w cpu.0)) }
{
    if let Some(cause) = no_wake(core, cpu) {
        return Some(cause);
    }
    match core.status(cpu).mark {
        Some(_) => None,
        None => Some(Cause::Cpu(cpu, CpuFact::Unmarked)),
    }
}

pub(crate) fn no_release<B: TimerBase>(core: &Core<B>, cpu: CpuId) -> Option<Cause>
    ensures none { IfNone result (MayRelease core.now cpu.0) }
    ensures named { IfSome result (IsCause core.now (λ w. MayRelease w cpu.0)) }
{
    if let Some(cause) = no_free(core, cpu) {
        return Some(cause);
    }
    let status = core.status(cpu);
    if status.mark.is_none() {
        return Some(Cause::Cpu(cpu, CpuFact::Unmarked));
    }
    if status.online && status.idle {
        return Some(Cause::Cpu(cpu, CpuFact::OnlineIdle));
    }
    None
}
