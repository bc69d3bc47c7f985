//! Where steps of timers and walks are enabled.

ghost use Rattle.std.specs.Prelude.{◌≡◌, ◌↔◌, ◌<◌, ℕ, None, Some, length, IsTrue};
ghost use Rattle.tm_base.specs.declared.names.Class.TheVariants.{Global};
ghost use Rattle.cpu_bases.specs.CpuBases.{class_in};
ghost use Rattle.wheel_core.specs.declared.item.Item.{Item};
ghost use Rattle.core_world.specs.Enabled.{MayArm, MayCancel, MayGoOn, MayHand, MayMove, MayRun};
ghost use Rattle.core_world.specs.Enabled.{MayTick, MayWalk};
ghost use Rattle.core_world.specs.World.{cpu_of};
ghost use Rattle.step_core.specs.Asking.{MayGo};

use crate::asking::{is_active, is_free, names};
use core_steps::Core;
use tm_base::{Class, CpuId, GroupId, Jiffy, TIME_LIMIT, TimerId};
use walk_rules::{Stage, Walk};
use wheel_core::{Item, TimerBase};

/// Whether an item is a timer's.
fn is_of(item: Option<Item>, timer: TimerId) -> bool
    ensures { IsTrue result ↔ ((i : Item) × (item ≡ Some i) × (i.id ≡ timer.0)) }
{
    match item {
        Some(item) => item.id == u32::from(timer.0),
        None => false,
    }
}

/// Whether an id is a timer's.
pub fn is_id(id: Option<u32>, timer: TimerId) -> bool
    ensures { IsTrue result ↔ (id ≡ Some timer.0) }
{
    match id {
        Some(id) => id == u32::from(timer.0),
        None => false,
    }
}

/// Whether any CPU may run timers of a class.
fn is_global(class: Class) -> bool
    ensures { IsTrue result ↔ (class ≡ Global) }
{
    matches!(class, Class::Global)
}

/// Whether a timer is queued nowhere.
fn is_nowhere<B: TimerBase>(core: &Core<B>, timer: TimerId) -> bool
    requires { timer.0 < core.now.timers }
    ensures { IsTrue result ↔ ((d : ℕ) → class_in timer.0 (cpu_of core.now d).bases ≡ None) }
{
    core.queued_on(timer).is_none()
}

/// Whether the runner may run timers of a class of a CPU.
pub fn may_run<B: TimerBase>(core: &Core<B>, cpu: CpuId, class: Class, runner: CpuId) -> bool
    requires { cpu.0 < length core.now.cpus }
    ensures { IsTrue result ↔ MayRun core.now cpu.0 class runner.0 }
{
    let status = core.status(cpu);
    if runner.0 == cpu.0 && status.inside {
        return true;
    }
    is_global(class) && names(status.mark, runner)
}

pub(crate) fn may_arm<B: TimerBase>(
    core: &Core<B>,
    cpu: CpuId,
    timer: TimerId,
    class: Class,
    expires: Jiffy,
) -> bool
    ensures { IsTrue result ↔ MayArm core.now cpu.0 timer.0 class expires }
{
    if !is_free(core, cpu) || !core.knows(timer) {
        return false;
    }
    let status = core.status(cpu);
    if !status.online || (status.idle && !status.inside) {
        return false;
    }
    is_nowhere(core, timer)
        && core.now() <= expires
        && expires < TIME_LIMIT
        && core.none_behind(cpu, class)
}

pub(crate) fn may_cancel<B: TimerBase>(core: &Core<B>, cpu: CpuId, timer: TimerId) -> bool
    ensures { IsTrue result ↔ MayCancel core.now cpu.0 timer.0 }
{
    if !is_free(core, cpu) {
        return false;
    }
    core.class_of(cpu, timer).is_some()
}

pub(crate) fn may_hand<B: TimerBase>(
    core: &Core<B>,
    cpu: CpuId,
    timer: TimerId,
    runner: CpuId,
) -> bool
    ensures { IsTrue result ↔ MayHand core.now cpu.0 timer.0 runner.0 }
{
    if !is_free(core, cpu) {
        return false;
    }
    let Some(class) = core.class_of(cpu, timer) else {
        return false;
    };
    let next = core.next_out(cpu, class);
    is_of(next, timer) && may_run(core, cpu, class, runner)
}

pub(crate) fn may_tick<B: TimerBase>(
    core: &Core<B>,
    cpu: CpuId,
    class: Class,
    runner: CpuId,
) -> bool
    ensures { IsTrue result ↔ MayTick core.now cpu.0 class runner.0 }
{
    if !is_free(core, cpu) {
        return false;
    }
    let next = core.next_out(cpu, class);
    next.is_none() && may_run(core, cpu, class, runner)
}

/// Whether a timer is the first to move from a CPU to another one.
fn may_go<B: TimerBase>(core: &Core<B>, from: CpuId, to: CpuId, timer: TimerId) -> bool
    requires from { from.0 < length core.now.cpus }
    requires to { to.0 < length core.now.cpus }
    ensures { IsTrue result ↔ MayGo core.now from.0 to.0 timer.0 }
{
    let Some(class) = core.class_to_move(from) else {
        return false;
    };
    is_id(core.oldest(from, class), timer) && core.none_behind(to, class)
}

pub(crate) fn may_move<B: TimerBase>(core: &Core<B>, from: CpuId, to: CpuId, timer: TimerId) -> bool
    ensures { IsTrue result ↔ MayMove core.now from.0 to.0 timer.0 }
{
    if !is_free(core, from) || !is_free(core, to) {
        return false;
    }
    let taker = core.status(to);
    !core.status(from).online
        && core.is_placed(to)
        && is_active(core, to)
        && !taker.inside
        && may_go(core, from, to, timer)
}

/// Whether a walk's step waits for no lock.
fn may_go_on<B: TimerBase>(core: &Core<B>, cpu: CpuId, walk: Walk) -> bool
    requires cpu { cpu.0 < length core.now.cpus }
    requires walk { (cpu_of core.now cpu.0).walk ≡ Some walk }
    ensures { IsTrue result ↔ MayGoOn core.now cpu.0 walk walk.stage }
{
    core.kept();
    match walk.stage {
        Stage::LockChild => {
            let group = core.group_below(cpu, walk.level);
            core.is_unlocked(group)
        },
        Stage::LockGroup => {
            let group = core.group_on(cpu, walk.level);
            core.is_unlocked(group)
        },
        Stage::Handing => false,
        Stage::Own
        | Stage::Up
        | Stage::Mark { more: _ }
        | Stage::Read
        | Stage::Child
        | Stage::Swap
        | Stage::SeeChild
        | Stage::SeeGroup
        | Stage::Scan { k: _ }
        | Stage::Store
        | Stage::First { k: _ }
        | Stage::FreeGroup
        | Stage::FreeChild
        | Stage::Finish => true,
    }
}

pub(crate) fn may_walk<B: TimerBase>(core: &Core<B>, cpu: CpuId) -> bool
    ensures { IsTrue result ↔ MayWalk core.now cpu.0 }
{
    if cpu.0 >= core.count() {
        return false;
    }
    match core.status(cpu).walk {
        Some(walk) => may_go_on(core, cpu, walk),
        None => false,
    }
}
