//! Where steps of timers and walks are enabled, in any world.

ghost use Rattle.std.specs.Prelude.{◌≡◌, ◌↔◌, ◌<◌, Some, length, IsTrue};
ghost use Rattle.tm_base.specs.declared.names.Class.TheVariants.{Global};
ghost use Rattle.wheel_core.specs.declared.item.Item.{Item};
ghost use Rattle.core_world.specs.Enabled.{MayArm, MayCancel, MayGoOn, MayHand, MayMove, MayRun};
ghost use Rattle.core_world.specs.Enabled.{MayTick, MayWalk};
ghost use Rattle.orders_world.specs.Asking.{IsNowhere, MayGo};

use crate::asking::{is_active, is_free, is_number};
use plain_world::PlainWorld;
use tm_base::{Class, CpuId, Jiffy, TIME_LIMIT, TimerId};
use walk_rules::{Stage, Walk};
use wheel_core::Item;

/// Whether an item is a timer's.
fn is_of(item: Option<Item>, timer: TimerId) -> bool
    ensures { IsTrue result ↔ ((i : Item) × (item ≡ Some i) × (i.id ≡ timer.0)) }
{
    match item {
        Some(item) => item.id == u32::from(timer.0),
        None => false,
    }
}

/// Whether an id is a timer's.
fn is_id(id: Option<u32>, timer: TimerId) -> bool
    ensures { IsTrue result ↔ (id ≡ Some timer.0) }
{
    match id {
        Some(id) => id == u32::from(timer.0),
        None => false,
    }
}

/// Whether any CPU may run timers of a class.
fn is_global(class: Class) -> bool
    ensures { IsTrue result ↔ (class ≡ Global) }
{
    matches!(class, Class::Global)
}

/// Whether a timer is queued on no CPU. It looks at each CPU.
fn is_nowhere(world: &PlainWorld, timer: TimerId) -> bool
    ensures { IsTrue result ↔ IsNowhere world.now timer.0 }
{
    for cpu in 0..world.count() {
        if world.class_of(CpuId(cpu), timer).is_some() {
            return false;
        }
    }
    true
}

/// Whether the runner may run timers of a class of a CPU.
fn may_run(world: &PlainWorld, cpu: CpuId, class: Class, runner: CpuId) -> bool
    ensures { IsTrue result ↔ MayRun world.now cpu.0 class runner.0 }
{
    let status = world.status(cpu);
    if runner.0 == cpu.0 && status.inside {
        return true;
    }
    is_global(class) && is_number(status.mark, runner)
}

pub(crate) fn may_arm(
    world: &PlainWorld,
    cpu: CpuId,
    timer: TimerId,
    class: Class,
    expires: Jiffy,
) -> bool
    ensures { IsTrue result ↔ MayArm world.now cpu.0 timer.0 class expires }
{
    if !is_free(world, cpu) || !world.knows(timer) {
        return false;
    }
    let status = world.status(cpu);
    if !status.online || (status.idle && !status.inside) {
        return false;
    }
    is_nowhere(world, timer)
        && world.now() <= expires
        && expires < TIME_LIMIT
        && world.none_behind(cpu, class)
}

pub(crate) fn may_cancel(world: &PlainWorld, cpu: CpuId, timer: TimerId) -> bool
    ensures { IsTrue result ↔ MayCancel world.now cpu.0 timer.0 }
{
    if !is_free(world, cpu) {
        return false;
    }
    world.class_of(cpu, timer).is_some()
}

pub(crate) fn may_hand(world: &PlainWorld, cpu: CpuId, timer: TimerId, runner: CpuId) -> bool
    ensures { IsTrue result ↔ MayHand world.now cpu.0 timer.0 runner.0 }
{
    if !is_free(world, cpu) {
        return false;
    }
    let Some(class) = world.class_of(cpu, timer) else {
        return false;
    };
    let next = world.next_out(cpu, class);
    is_of(next, timer) && may_run(world, cpu, class, runner)
}

pub(crate) fn may_tick(world: &PlainWorld, cpu: CpuId, class: Class, runner: CpuId) -> bool
    ensures { IsTrue result ↔ MayTick world.now cpu.0 class runner.0 }
{
    if !is_free(world, cpu) {
        return false;
    }
    let next = world.next_out(cpu, class);
    next.is_none() && may_run(world, cpu, class, runner)
}

/// Whether a timer is the first to move from a CPU to another one.
fn may_go(world: &PlainWorld, from: CpuId, to: CpuId, timer: TimerId) -> bool
    requires from { from.0 < length world.now.cpus }
    requires to { to.0 < length world.now.cpus }
    ensures { IsTrue result ↔ MayGo world.now from.0 to.0 timer.0 }
{
    let Some(class) = world.class_to_move(from) else {
        return false;
    };
    is_id(world.oldest(from, class), timer) && world.none_behind(to, class)
}

pub(crate) fn may_move(world: &PlainWorld, from: CpuId, to: CpuId, timer: TimerId) -> bool
    ensures { IsTrue result ↔ MayMove world.now from.0 to.0 timer.0 }
{
    if !is_free(world, from) || !is_free(world, to) {
        return false;
    }
    let taker = world.status(to);
    !world.status(from).online
        && world.is_placed(to)
        && is_active(world, to)
        && !taker.inside
        && may_go(world, from, to, timer)
}

/// Whether a walk's step waits for no lock.
fn may_go_on(world: &PlainWorld, cpu: CpuId, walk: Walk) -> bool
    ensures { IsTrue result ↔ MayGoOn world.now cpu.0 walk walk.stage }
{
    match walk.stage {
        Stage::LockChild => world.is_unlocked(world.group_below(cpu, walk.level)),
        Stage::LockGroup => world.is_unlocked(world.group_on(cpu, walk.level)),
        Stage::Handing => false,
        Stage::Own
        | Stage::Up
        | Stage::Mark { more: _ }
        | Stage::Read
        | Stage::Child
        | Stage::Swap
        | Stage::SeeChild
        | Stage::SeeGroup
        | Stage::Scan { k: _ }
        | Stage::Store
        | Stage::First { k: _ }
        | Stage::FreeGroup
        | Stage::FreeChild
        | Stage::Finish => true,
    }
}

pub(crate) fn may_walk(world: &PlainWorld, cpu: CpuId) -> bool
    ensures { IsTrue result ↔ MayWalk world.now cpu.0 }
{
    if cpu.0 >= world.count() {
        return false;
    }
    match world.status(cpu).walk {
        Some(walk) => may_go_on(world, cpu, walk),
        None => false,
    }
}
