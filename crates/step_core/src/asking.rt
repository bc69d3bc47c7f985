//! Where steps that change what a CPU is are enabled.

ghost use Rattle.std.specs.Prelude.{◌≡◌, ◌↔◌, ◌<◌, Some, length, IsTrue};
ghost use Rattle.core_world.specs.Enabled.{IsDueAtLeaf, IsFree, MayBeMissed};
ghost use Rattle.core_world.specs.Enabled.{MayCarry, MayComeOnline, MayEnter};
ghost use Rattle.core_world.specs.Enabled.{MayGoOffline, MayHandOn, MayIdle, MayLeave, MayReeval};
ghost use Rattle.core_world.specs.Enabled.{MayRelease, MayTake, MayTime, MayWake};
ghost use Rattle.core_world.specs.World.{cpu_of, is_active};
ghost use Rattle.step_core.specs.Asking.{MayLook};
ghost use Rattle.walk_rules.specs.declared.walk.Walk.{Walk};
ghost use Rattle.walk_rules.specs.declared.walk.WalkKind.TheVariants as kinds;
ghost use Rattle.walk_rules.specs.declared.walk.Stage.TheVariants as stages;

use core_steps::{Core, CpuStatus};
use tm_base::{CpuId, Jiffy, TIME_LIMIT};
use walk_rules::{Stage, Walk, WalkKind};
use wheel_core::TimerBase;

/// Whether a mark names this CPU.
pub(crate) fn names(mark: Option<u16>, cpu: CpuId) -> bool
    ensures { IsTrue result ↔ (mark ≡ Some cpu.0) }
{
    match mark {
        Some(number) => number == cpu.0,
        None => false,
    }
}

/// Whether a walk is a re-evaluation.
pub fn is_reeval(walk: Option<Walk>) -> bool
    ensures { IsTrue result ↔ ((k : Walk) × (walk ≡ Some k) × (k.kind ≡ kinds.Reeval)) }
{
    match walk {
        Some(walk) => matches!(walk.kind, WalkKind::Reeval),
        None => false,
    }
}

/// Whether a walk stands at Handing.
fn is_handing(walk: Option<Walk>) -> bool
    ensures { IsTrue result ↔ ((k : Walk) × (walk ≡ Some k) × (k.stage ≡ stages.Handing)) }
{
    match walk {
        Some(walk) => matches!(walk.stage, Stage::Handing),
        None => false,
    }
}

/// Whether a CPU is there and has no walk.
pub(crate) fn is_free<B: TimerBase>(core: &Core<B>, cpu: CpuId) -> bool
    ensures { IsTrue result ↔ IsFree core.now cpu.0 }
{
    if cpu.0 >= core.count() {
        return false;
    }
    core.status(cpu).walk.is_none()
}

pub(crate) fn is_active<B: TimerBase>(core: &Core<B>, cpu: CpuId) -> bool
    requires { cpu.0 < length core.now.cpus }
    ensures { result ≡ is_active (cpu_of core.now cpu.0) }
{
    let status = core.status(cpu);
    status.online && !status.idle
}

pub(crate) fn may_time<B: TimerBase>(core: &Core<B>, now: Jiffy) -> bool
    ensures { IsTrue result ↔ MayTime core.now now }
{
    core.now() <= now && now < TIME_LIMIT - 2
}

pub(crate) fn may_enter<B: TimerBase>(core: &Core<B>, cpu: CpuId) -> bool
    ensures { IsTrue result ↔ MayEnter core.now cpu.0 }
{
    if !is_free(core, cpu) {
        return false;
    }
    let status = core.status(cpu);
    status.online && !status.inside
}

pub(crate) fn may_wake<B: TimerBase>(core: &Core<B>, cpu: CpuId) -> bool
    ensures { IsTrue result ↔ MayWake core.now cpu.0 }
{
    if !is_free(core, cpu) {
        return false;
    }
    let status = core.status(cpu);
    status.online && status.idle
}

/// Whether the CPU is isolated, or another placed CPU is online.
pub fn may_be_missed<B: TimerBase>(core: &Core<B>, cpu: CpuId) -> bool
    requires { cpu.0 < length core.now.cpus }
    ensures { IsTrue result ↔ MayBeMissed core.now cpu.0 }
{
    if !core.is_placed(cpu) {
        return true;
    }
    core.others_online(cpu)
}

pub(crate) fn may_leave<B: TimerBase>(core: &Core<B>, cpu: CpuId) -> bool
    ensures { IsTrue result ↔ MayLeave core.now cpu.0 }
{
    if !is_free(core, cpu) {
        return false;
    }
    let status = core.status(cpu);
    status.inside && !status.idle && !core.has_marked(cpu)
}

pub(crate) fn may_idle<B: TimerBase>(core: &Core<B>, cpu: CpuId) -> bool
    ensures { IsTrue result ↔ MayIdle core.now cpu.0 }
{
    if !is_free(core, cpu) {
        return false;
    }
    let events = core.events_of(cpu);
    let first = events.pin.min(events.first_global);
    core.kept();
    is_active(core, cpu) && !core.status(cpu).inside && core.now() + 1 < first
}

pub(crate) fn may_go_offline<B: TimerBase>(core: &Core<B>, cpu: CpuId) -> bool
    ensures { IsTrue result ↔ MayGoOffline core.now cpu.0 }
{
    if !is_free(core, cpu) {
        return false;
    }
    is_active(core, cpu) && !core.status(cpu).inside && may_be_missed(core, cpu)
}

pub(crate) fn may_come_online<B: TimerBase>(core: &Core<B>, cpu: CpuId) -> bool
    ensures { IsTrue result ↔ MayComeOnline core.now cpu.0 }
{
    if !is_free(core, cpu) {
        return false;
    }
    !core.status(cpu).online
}

pub(crate) fn may_reevaluate<B: TimerBase>(core: &Core<B>, cpu: CpuId) -> bool
    ensures { IsTrue result ↔ MayReeval core.now cpu.0 }
{
    if !is_free(core, cpu) {
        return false;
    }
    let status = core.status(cpu);
    status.online && status.idle && status.inside && !core.has_marked(cpu)
}

/// Whether a CPU's event in its leaf is due.
pub fn is_due_at_leaf<B: TimerBase>(core: &Core<B>, cpu: CpuId) -> bool
    requires { cpu.0 < length core.now.cpus }
    ensures { IsTrue result ↔ IsDueAtLeaf core.now cpu.0 }
{
    if !core.has_group(cpu) {
        return false;
    }
    let leaf = core.group_on(cpu, 0);
    let child = core.side(cpu, 0);
    match core.event_of(leaf, child) {
        Some(event) => !event.ignored && event.expiry <= core.now(),
        None => false,
    }
}

/// Whether a CPU may look after others.
pub(crate) fn may_look<B: TimerBase>(core: &Core<B>, by: CpuId) -> bool
    ensures { IsTrue result ↔ MayLook core.now by.0 }
{
    if by.0 >= core.count() {
        return false;
    }
    let status = core.status(by);
    core.is_placed(by) && status.inside && !is_reeval(status.walk)
}

pub(crate) fn may_take<B: TimerBase>(core: &Core<B>, cpu: CpuId, by: CpuId) -> bool
    ensures { IsTrue result ↔ MayTake core.now cpu.0 by.0 }
{
    if !is_free(core, cpu) || !may_look(core, by) {
        return false;
    }
    let status = core.status(cpu);
    status.online && status.idle && status.mark.is_none() && is_due_at_leaf(core, cpu)
}

pub(crate) fn may_carry<B: TimerBase>(core: &Core<B>, cpu: CpuId) -> bool
    ensures { IsTrue result ↔ MayCarry core.now cpu.0 }
{
    if !is_free(core, cpu) {
        return false;
    }
    let status = core.status(cpu);
    status.mark.is_some() && status.online && status.idle
}

pub(crate) fn may_release<B: TimerBase>(core: &Core<B>, cpu: CpuId) -> bool
    ensures { IsTrue result ↔ MayRelease core.now cpu.0 }
{
    if !is_free(core, cpu) {
        return false;
    }
    let status = core.status(cpu);
    status.mark.is_some() && (!status.online || !status.idle)
}

pub(crate) fn may_hand_on<B: TimerBase>(core: &Core<B>, cpu: CpuId, to: CpuId) -> bool
    ensures { IsTrue result ↔ MayHandOn core.now cpu.0 to.0 }
{
    if cpu.0 >= core.count() || to.0 >= core.count() {
        return false;
    }
    to.0 != cpu.0 && is_handing(core.status(cpu).walk) && core.is_placed(to) && is_active(core, to)
}
