//! What forbids steps of timers.

ghost use Rattle.std.specs.Prelude.{◌≡◌, ◌<◌, IfNone, IfSome, None, Some, length};
ghost use Rattle.wheel_core.specs.declared.item.Item.{Item};
ghost use Rattle.cpu_bases.specs.CpuBases.{class_in};
ghost use Rattle.core_world.specs.Enabled.{MayArm, MayCancel, MayHand, MayMove};
ghost use Rattle.core_world.specs.Enabled.{MayTick};
ghost use Rattle.core_world.specs.Steps.{first_moved};
ghost use Rattle.core_world.specs.World.{cpu_of};
ghost use Rattle.step_core.specs.Asking.{MayGo};
ghost use Rattle.step_causes.specs.CauseParts.{CanBeArmed, IsNext, IsReadyToArm, IsReadyToTake};
ghost use Rattle.step_causes.specs.Causes.{IsCause, MovesNotFirst};

use crate::asking_timers::{is_id, may_run, queued_on};
use crate::flags::{no_active, no_free, no_online};
use plain_world::PlainWorld;
use step_causes::{Cause, CpuFact};
use tm_base::{Class, CpuId, Jiffy, TIME_LIMIT, TimerId};
use wheel_core::Item;

/// What forbids that a CPU arms a timer, whatever that is.
fn no_more(world: &PlainWorld, cpu: CpuId) -> Option<Cause>
    ensures none { IfNone result (IsReadyToArm world.now cpu.0) }
    ensures named { IfSome result (IsCause world.now (λ w. IsReadyToArm w cpu.0)) }
{
    if let Some(cause) = no_free(world, cpu) {
        return Some(cause);
    }
    let status = world.status(cpu);
    if !status.online {
        return Some(Cause::Cpu(cpu, CpuFact::Offline));
    }
    if status.idle && !status.inside {
        return Some(Cause::Cpu(cpu, CpuFact::IdleOutside));
    }
    None
}

/// What forbids that a timer is armed, wherever that is.
fn no_arming(world: &PlainWorld, timer: TimerId, expires: Jiffy) -> Option<Cause>
    ensures none { IfNone result (CanBeArmed world.now timer.0 expires) }
    ensures named { IfSome result (IsCause world.now (λ w. CanBeArmed w timer.0 expires)) }
{
    if !world.knows(timer) {
        return Some(Cause::NoSuchTimer { timer });
    }
    if let Some(on) = queued_on(world, timer) {
        return Some(Cause::Queued { timer, on });
    }
    if expires < world.now() {
        return Some(Cause::Past { at: expires });
    }
    if expires >= TIME_LIMIT {
        return Some(Cause::TooLate {
            at: expires,
            limit: TIME_LIMIT,
        });
    }
    None
}

pub(crate) fn no_arm(
    world: &PlainWorld,
    cpu: CpuId,
    timer: TimerId,
    class: Class,
    expires: Jiffy,
) -> Option<Cause>
    ensures none { IfNone result (MayArm world.now cpu.0 timer.0 class expires) }
    ensures named { IfSome result
        (IsCause world.now (λ w. MayArm w cpu.0 timer.0 class expires)) }
{
    if let Some(cause) = no_more(world, cpu) {
        return Some(cause);
    }
    if let Some(cause) = no_arming(world, timer, expires) {
        return Some(cause);
    }
    if !world.none_behind(cpu, class) {
        return Some(Cause::Behind { cpu, class });
    }
    None
}

pub(crate) fn no_cancel(world: &PlainWorld, cpu: CpuId, timer: TimerId, by: CpuId) -> Option<Cause>
    ensures none { IfNone result
        (MayCancel world.now cpu.0 timer.0 × (by.0 < length world.now.cpus)) }
    ensures named { IfSome result
        (IsCause world.now (λ w. MayCancel w cpu.0 timer.0 × (by.0 < length w.cpus))) }
{
    if let Some(cause) = no_free(world, cpu) {
        return Some(cause);
    }
    if world.class_of(cpu, timer).is_none() {
        return Some(Cause::NotQueued { timer, cpu });
    }
    if by.0 >= world.count() {
        return Some(Cause::Cpu(by, CpuFact::Missing));
    }
    None
}

/// What forbids that a timer goes out next of the class in which it is queued.
fn no_next_out(world: &PlainWorld, cpu: CpuId, timer: TimerId, class: Class) -> Option<Cause>
    requires queued { class_in timer.0 (cpu_of world.now cpu.0).bases ≡ Some class }
    ensures none { IfNone result (IsNext world.now cpu.0 timer.0) }
    ensures named { IfSome result (IsCause world.now (λ w. IsNext w cpu.0 timer.0)) }
{
    let Some(next) = world.next_out(cpu, class) else {
        return Some(Cause::NoneDue { timer, cpu });
    };
    if next.id != u32::from(timer.0) {
        return Some(Cause::NotNext {
            timer,
            cpu,
            first: next.id,
        });
    }
    None
}

pub(crate) fn no_hand(
    world: &PlainWorld,
    cpu: CpuId,
    timer: TimerId,
    runner: CpuId,
) -> Option<Cause>
    ensures none { IfNone result (MayHand world.now cpu.0 timer.0 runner.0) }
    ensures named { IfSome result (IsCause world.now (λ w. MayHand w cpu.0 timer.0 runner.0)) }
{
    if let Some(cause) = no_free(world, cpu) {
        return Some(cause);
    }
    let Some(class) = world.class_of(cpu, timer) else {
        return Some(Cause::NotQueued { timer, cpu });
    };
    if let Some(cause) = no_next_out(world, cpu, timer, class) {
        return Some(cause);
    }
    if !may_run(world, cpu, class, runner) {
        return Some(Cause::NoRunnerOf { timer, cpu, runner });
    }
    None
}

pub(crate) fn no_tick(world: &PlainWorld, cpu: CpuId, class: Class, runner: CpuId) -> Option<Cause>
    ensures none { IfNone result (MayTick world.now cpu.0 class runner.0) }
    ensures named { IfSome result (IsCause world.now (λ w. MayTick w cpu.0 class runner.0)) }
{
    if let Some(cause) = no_free(world, cpu) {
        return Some(cause);
    }
    if let Some(due) = world.next_out(cpu, class) {
        return Some(Cause::Due {
            cpu,
            class,
            timer: due.id,
        });
    }
    if !may_run(world, cpu, class, runner) {
        return Some(Cause::NoRunner { cpu, class, runner });
    }
    None
}

/// The class of a timer that is the first to move from a CPU.
fn class_first(world: &PlainWorld, from: CpuId, timer: TimerId) -> Option<Class>
    ensures first { IfSome result (λ class. (item : Item)
        × (first_moved (cpu_of world.now from.0).bases ≡ Some (class, item))
        × (item.id ≡ timer.0)) }
    ensures none { IfNone result (MovesNotFirst world.now from.0 timer.0) }
{
    let Some(class) = world.class_to_move(from) else {
        return None;
    };
    if !is_id(world.oldest(from, class), timer) {
        return None;
    }
    Some(class)
}

/// What forbids that a timer goes from a CPU to another one.
fn no_going(world: &PlainWorld, from: CpuId, to: CpuId, timer: TimerId) -> Option<Cause>
    ensures none { IfNone result (MayGo world.now from.0 to.0 timer.0) }
    ensures named { IfSome result (IsCause world.now (λ w. MayGo w from.0 to.0 timer.0)) }
{
    let Some(class) = class_first(world, from, timer) else {
        return Some(Cause::NotFirst { timer, cpu: from });
    };
    if !world.none_behind(to, class) {
        return Some(Cause::BehindThere { from, to });
    }
    None
}

/// What forbids that a CPU takes timers in.
fn no_taker(world: &PlainWorld, to: CpuId) -> Option<Cause>
    ensures none { IfNone result (IsReadyToTake world.now to.0) }
    ensures named { IfSome result (IsCause world.now (λ w. IsReadyToTake w to.0)) }
{
    if let Some(cause) = no_free(world, to) {
        return Some(cause);
    }
    if !world.is_placed(to) {
        return Some(Cause::Cpu(to, CpuFact::Isolated));
    }
    if let Some(cause) = no_active(world, to) {
        return Some(cause);
    }
    if world.status(to).inside {
        return Some(Cause::Cpu(to, CpuFact::Inside));
    }
    None
}

pub(crate) fn no_move(world: &PlainWorld, from: CpuId, to: CpuId, timer: TimerId) -> Option<Cause>
    ensures none { IfNone result (MayMove world.now from.0 to.0 timer.0) }
    ensures named { IfSome result (IsCause world.now (λ w. MayMove w from.0 to.0 timer.0)) }
{
    if let Some(cause) = no_online(world, from) {
        return Some(cause);
    }
    if let Some(cause) = no_taker(world, to) {
        return Some(cause);
    }
    no_going(world, from, to, timer)
}
