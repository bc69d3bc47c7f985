//! Where steps that change what a CPU is are enabled, in any world.

ghost use Rattle.std.specs.Prelude.{◌≡◌, ◌↔◌, ◌+◌, ◌<◌, Some, IsFalse, IsTrue};
ghost use Rattle.core_world.specs.Enabled.{IsDueAtLeaf, IsFree, MarksNobody, MayBeMissed};
ghost use Rattle.core_world.specs.Enabled.{MayCarry, MayComeOnline, MayEnter};
ghost use Rattle.core_world.specs.Enabled.{MayGoOffline, MayHandOn, MayIdle, MayLeave, MayReeval};
ghost use Rattle.core_world.specs.Enabled.{MayRelease, MayTake, MayTime, MayWake};
ghost use Rattle.core_world.specs.World.{cpu_of, is_active};
ghost use Rattle.orders_world.specs.Asking.{IsOtherOnline, MayLook, OthersOnline};
ghost use Rattle.walk_rules.specs.declared.walk.Walk.{Walk};
ghost use Rattle.walk_rules.specs.declared.walk.WalkKind.TheVariants as kinds;
ghost use Rattle.walk_rules.specs.declared.walk.Stage.TheVariants as stages;

use plain_world::PlainWorld;
use tm_base::{CpuId, Jiffy, TIME_LIMIT};
use walk_rules::{Stage, Walk, WalkKind};

/// Whether a walk is a re-evaluation.
fn is_reeval(walk: Option<Walk>) -> bool
    ensures { IsTrue result ↔ ((k : Walk) × (walk ≡ Some k) × (k.kind ≡ kinds.Reeval)) }
{
    match walk {
        Some(walk) => matches!(walk.kind, WalkKind::Reeval),
        None => false,
    }
}

/// Whether a walk stands at Handing.
fn is_handing(walk: Option<Walk>) -> bool
    ensures { IsTrue result ↔ ((k : Walk) × (walk ≡ Some k) × (k.stage ≡ stages.Handing)) }
{
    match walk {
        Some(walk) => matches!(walk.stage, Stage::Handing),
        None => false,
    }
}

/// Whether a CPU is there and has no walk.
pub(crate) fn is_free(world: &PlainWorld, cpu: CpuId) -> bool
    ensures { IsTrue result ↔ IsFree world.now cpu.0 }
{
    cpu.0 < world.count() && world.status(cpu).walk.is_none()
}

/// Whether a CPU is online and not idle; one that isn't there is not.
pub(crate) fn is_active(world: &PlainWorld, cpu: CpuId) -> bool
    ensures { result ≡ is_active (cpu_of world.now cpu.0) }
{
    let status = world.status(cpu);
    status.online && !status.idle
}

/// Whether a number is that of a CPU.
pub(crate) fn is_number(number: Option<u16>, cpu: CpuId) -> bool
    ensures { IsTrue result ↔ (number ≡ Some cpu.0) }
{
    match number {
        Some(number) => number == cpu.0,
        None => false,
    }
}

/// Whether one CPU has the mark of another one.
fn is_marked_by(world: &PlainWorld, other: CpuId, cpu: CpuId) -> bool
    ensures { IsTrue result ↔ ((cpu_of world.now other.0).mark ≡ Some cpu.0) }
{
    is_number(world.status(other).mark, cpu)
}

/// Whether a CPU has marked another one, to run its timers. It looks at each CPU.
fn has_marked(world: &PlainWorld, cpu: CpuId) -> bool
    ensures { IsFalse result ↔ MarksNobody world.now cpu.0 }
{
    for other in 0..world.count() {
        if is_marked_by(world, CpuId(other), cpu) {
            return true;
        }
    }
    false
}

/// Whether a CPU is placed and online, and another one than this.
fn is_other_online(world: &PlainWorld, other: CpuId, cpu: CpuId) -> bool
    ensures { IsTrue result ↔ IsOtherOnline world.now cpu.0 other.0 }
{
    other.0 != cpu.0 && world.is_placed(other) && world.status(other).online
}

/// Whether another placed CPU is online. It looks at each CPU.
fn others_online(world: &PlainWorld, cpu: CpuId) -> bool
    ensures { IsTrue result ↔ OthersOnline world.now cpu.0 }
{
    for other in 0..world.count() {
        if is_other_online(world, CpuId(other), cpu) {
            return true;
        }
    }
    false
}

pub(crate) fn may_time(world: &PlainWorld, now: Jiffy) -> bool
    ensures { IsTrue result ↔ MayTime world.now now }
{
    world.now() <= now && now < TIME_LIMIT - 2
}

pub(crate) fn may_enter(world: &PlainWorld, cpu: CpuId) -> bool
    ensures { IsTrue result ↔ MayEnter world.now cpu.0 }
{
    if !is_free(world, cpu) {
        return false;
    }
    let status = world.status(cpu);
    status.online && !status.inside
}

pub(crate) fn may_wake(world: &PlainWorld, cpu: CpuId) -> bool
    ensures { IsTrue result ↔ MayWake world.now cpu.0 }
{
    if !is_free(world, cpu) {
        return false;
    }
    let status = world.status(cpu);
    status.online && status.idle
}

/// Whether the CPU is isolated, or another placed CPU is online.
fn may_be_missed(world: &PlainWorld, cpu: CpuId) -> bool
    ensures { IsTrue result ↔ MayBeMissed world.now cpu.0 }
{
    if !world.is_placed(cpu) {
        return true;
    }
    others_online(world, cpu)
}

pub(crate) fn may_leave(world: &PlainWorld, cpu: CpuId) -> bool
    ensures { IsTrue result ↔ MayLeave world.now cpu.0 }
{
    if !is_free(world, cpu) {
        return false;
    }
    let status = world.status(cpu);
    status.inside && !status.idle && !has_marked(world, cpu)
}

/// Whether an event is more than a jiffy ahead of a time.
fn is_ahead(now: Jiffy, first: Jiffy) -> bool
    ensures { IsTrue result ↔ (now + 1 < first) }
{
    now < first && first - now > 1
}

pub(crate) fn may_idle(world: &PlainWorld, cpu: CpuId) -> bool
    ensures { IsTrue result ↔ MayIdle world.now cpu.0 }
{
    if !is_free(world, cpu) {
        return false;
    }
    let events = world.events_of(cpu);
    let first = events.pin.min(events.first_global);
    is_active(world, cpu) && !world.status(cpu).inside && is_ahead(world.now(), first)
}

pub(crate) fn may_go_offline(world: &PlainWorld, cpu: CpuId) -> bool
    ensures { IsTrue result ↔ MayGoOffline world.now cpu.0 }
{
    if !is_free(world, cpu) {
        return false;
    }
    is_active(world, cpu) && !world.status(cpu).inside && may_be_missed(world, cpu)
}

pub(crate) fn may_come_online(world: &PlainWorld, cpu: CpuId) -> bool
    ensures { IsTrue result ↔ MayComeOnline world.now cpu.0 }
{
    if !is_free(world, cpu) {
        return false;
    }
    !world.status(cpu).online
}

pub(crate) fn may_reevaluate(world: &PlainWorld, cpu: CpuId) -> bool
    ensures { IsTrue result ↔ MayReeval world.now cpu.0 }
{
    if !is_free(world, cpu) {
        return false;
    }
    let status = world.status(cpu);
    status.online && status.idle && status.inside && !has_marked(world, cpu)
}

/// Whether a CPU's event in its leaf is due.
fn is_due_at_leaf(world: &PlainWorld, cpu: CpuId) -> bool
    ensures { IsTrue result ↔ IsDueAtLeaf world.now cpu.0 }
{
    let Some(leaf) = world.group_at(cpu, 0) else {
        return false;
    };
    match world.event_of(leaf, world.side(cpu, 0)) {
        Some(event) => !event.ignored && event.expiry <= world.now(),
        None => false,
    }
}

/// Whether a CPU may look after others.
fn may_look(world: &PlainWorld, by: CpuId) -> bool
    ensures { IsTrue result ↔ MayLook world.now by.0 }
{
    if by.0 >= world.count() {
        return false;
    }
    let status = world.status(by);
    world.is_placed(by) && status.inside && !is_reeval(status.walk)
}

pub(crate) fn may_take(world: &PlainWorld, cpu: CpuId, by: CpuId) -> bool
    ensures { IsTrue result ↔ MayTake world.now cpu.0 by.0 }
{
    if !is_free(world, cpu) || !may_look(world, by) {
        return false;
    }
    let status = world.status(cpu);
    status.online && status.idle && status.mark.is_none() && is_due_at_leaf(world, cpu)
}

pub(crate) fn may_carry(world: &PlainWorld, cpu: CpuId) -> bool
    ensures { IsTrue result ↔ MayCarry world.now cpu.0 }
{
    if !is_free(world, cpu) {
        return false;
    }
    let status = world.status(cpu);
    status.mark.is_some() && status.online && status.idle
}

pub(crate) fn may_release(world: &PlainWorld, cpu: CpuId) -> bool
    ensures { IsTrue result ↔ MayRelease world.now cpu.0 }
{
    if !is_free(world, cpu) {
        return false;
    }
    let status = world.status(cpu);
    status.mark.is_some() && (!status.online || !status.idle)
}

pub(crate) fn may_hand_on(world: &PlainWorld, cpu: CpuId, to: CpuId) -> bool
    ensures { IsTrue result ↔ MayHandOn world.now cpu.0 to.0 }
{
    if cpu.0 >= world.count() || to.0 >= world.count() {
        return false;
    }
    to.0 != cpu.0
        && is_handing(world.status(cpu).walk)
        && world.is_placed(to)
        && is_active(world, to)
}
