//! What forbids steps of timers.

ghost use Rattle.std.specs.Prelude.{◌≡◌, ◌<◌, IfNone, IfSome, None, Some, length};
ghost use Rattle.wheel_core.specs.declared.item.Item.{Item};
ghost use Rattle.cpu_bases.specs.CpuBases.{class_in};
ghost use Rattle.core_world.specs.Enabled.{MayArm, MayCancel, MayHand, MayMove};
ghost use Rattle.core_world.specs.Enabled.{MayTick};
ghost use Rattle.core_world.specs.Steps.{first_moved};
ghost use Rattle.core_world.specs.World.{cpu_of};
ghost use Rattle.step_core.specs.Asking.{MayGo};
ghost use Rattle.step_causes.specs.CauseParts.{CanBeArmed, IsNext, IsReadyToArm, IsReadyToTake};
ghost use Rattle.step_causes.specs.Causes.{IsCause, MovesNotFirst};

use crate::cause_flags::{no_active, no_free, no_online};
use crate::causes::{Cause, CpuFact};
use step_core::{Core, is_id, may_run};
use tm_base::{Class, CpuId, Jiffy, TIME_LIMIT, TimerId};
use wheel_core::{Item, TimerBase};

/// What forbids that a CPU arms a timer, whatever that is.
fn no_more<B: TimerBase>(core: &Core<B>, cpu: CpuId) -> Option<Cause>
    ensures none { IfNone result (IsReadyToArm core.now cpu.0) }
    ensures named { IfSome result (IsCause core.now (λ w. IsReadyToArm w cpu.0)) }
{
    if let Some(cause) = no_free(core, cpu) {
        return Some(cause);
    }
    let status = core.status(cpu);
    if !status.online {
        return Some(Cause::Cpu(cpu, CpuFact::Offline));
    }
    if status.idle && !status.inside {
        return Some(Cause::Cpu(cpu, CpuFact::IdleOutside));
    }
    None
}

/// What forbids that a timer is armed, wherever that is.
fn no_arming<B: TimerBase>(core: &Core<B>, timer: TimerId, expires: Jiffy) -> Option<Cause>
    ensures none { IfNone result (CanBeArmed core.now timer.0 expires) }
    ensures named { IfSome result (IsCause core.now (λ w. CanBeArmed w timer.0 expires)) }
{
    if !core.knows(timer) {
        return Some(Cause::NoSuchTimer { timer });
    }
    if let Some(on) = core.queued_on(timer) {
        return Some(Cause::Queued { timer, on });
    }
    if expires < core.now() {
        return Some(Cause::Past { at: expires });
    }
    if expires >= TIME_LIMIT {
        return Some(Cause::TooLate {
            at: expires,
            limit: TIME_LIMIT,
        });
    }
    None
}

pub(crate) fn no_arm<B: TimerBase>(
    core: &Core<B>,
    cpu: CpuId,
    timer: TimerId,
    class: Class,
    expires: Jiffy,
) -> Option<Cause>
    ensures none { IfNone result (MayArm core.now cpu.0 timer.0 class expires) }
    ensures named { IfSome result
        (IsCause core.now (λ w. MayArm w cpu.0 timer.0 class expires)) }
{
    if let Some(cause) = no_more(core, cpu) {
        return Some(cause);
    }
    if let Some(cause) = no_arming(core, timer, expires) {
        return Some(cause);
    }
    if !core.none_behind(cpu, class) {
        return Some(Cause::Behind { cpu, class });
    }
    None
}

pub(crate) fn no_cancel<B: TimerBase>(
    core: &Core<B>,
    cpu: CpuId,
    timer: TimerId,
    by: CpuId,
) -> Option<Cause>
    ensures none { IfNone result
        (MayCancel core.now cpu.0 timer.0 × (by.0 < length core.now.cpus)) }
    ensures named { IfSome result
        (IsCause core.now (λ w. MayCancel w cpu.0 timer.0 × (by.0 < length w.cpus))) }
{
    if let Some(cause) = no_free(core, cpu) {
        return Some(cause);
    }
    if core.class_of(cpu, timer).is_none() {
        return Some(Cause::NotQueued { timer, cpu });
    }
    if by.0 >= core.count() {
        return Some(Cause::Cpu(by, CpuFact::Missing));
    }
    None
}

/// What forbids that a timer goes out next of the class in which it is queued.
fn no_next_out<B: TimerBase>(
    core: &Core<B>,
    cpu: CpuId,
    timer: TimerId,
    class: Class,
) -> Option<Cause>
    requires cpu { cpu.0 < length core.now.cpus }
    requires queued { class_in timer.0 (cpu_of core.now cpu.0).bases ≡ Some class }
    ensures none { IfNone result (IsNext core.now cpu.0 timer.0) }
    ensures named { IfSome result (IsCause core.now (λ w. IsNext w cpu.0 timer.0)) }
{
    let Some(next) = core.next_out(cpu, class) else {
        return Some(Cause::NoneDue { timer, cpu });
    };
    if next.id != u32::from(timer.0) {
        return Some(Cause::NotNext {
            timer,
            cpu,
            first: next.id,
        });
    }
    None
}

pub(crate) fn no_hand<B: TimerBase>(
    core: &Core<B>,
    cpu: CpuId,
    timer: TimerId,
    runner: CpuId,
) -> Option<Cause>
    ensures none { IfNone result (MayHand core.now cpu.0 timer.0 runner.0) }
    ensures named { IfSome result (IsCause core.now (λ w. MayHand w cpu.0 timer.0 runner.0)) }
{
    if let Some(cause) = no_free(core, cpu) {
        return Some(cause);
    }
    let Some(class) = core.class_of(cpu, timer) else {
        return Some(Cause::NotQueued { timer, cpu });
    };
    if let Some(cause) = no_next_out(core, cpu, timer, class) {
        return Some(cause);
    }
    if !may_run(core, cpu, class, runner) {
        return Some(Cause::NoRunnerOf { timer, cpu, runner });
    }
    None
}

pub(crate) fn no_tick<B: TimerBase>(
    core: &Core<B>,
    cpu: CpuId,
    class: Class,
    runner: CpuId,
) -> Option<Cause>
    ensures none { IfNone result (MayTick core.now cpu.0 class runner.0) }
    ensures named { IfSome result (IsCause core.now (λ w. MayTick w cpu.0 class runner.0)) }
{
    if let Some(cause) = no_free(core, cpu) {
        return Some(cause);
    }
    if let Some(due) = core.next_out(cpu, class) {
        return Some(Cause::Due {
            cpu,
            class,
            timer: due.id,
        });
    }
    if !may_run(core, cpu, class, runner) {
        return Some(Cause::NoRunner { cpu, class, runner });
    }
    None
}

/// The class of a timer that is the first to move from a CPU.
fn class_first<B: TimerBase>(core: &Core<B>, from: CpuId, timer: TimerId) -> Option<Class>
    requires { from.0 < length core.now.cpus }
    ensures first { IfSome result (λ class. (item : Item)
        × (first_moved (cpu_of core.now from.0).bases ≡ Some (class, item))
        × (item.id ≡ timer.0)) }
    ensures none { IfNone result (MovesNotFirst core.now from.0 timer.0) }
{
    let Some(class) = core.class_to_move(from) else {
        return None;
    };
    if !is_id(core.oldest(from, class), timer) {
        return None;
    }
    Some(class)
}

/// What forbids that a timer goes from a CPU to another one.
fn no_going<B: TimerBase>(core: &Core<B>, from: CpuId, to: CpuId, timer: TimerId) -> Option<Cause>
    requires from { from.0 < length core.now.cpus }
    requires to { to.0 < length core.now.cpus }
    ensures none { IfNone result (MayGo core.now from.0 to.0 timer.0) }
    ensures named { IfSome result (IsCause core.now (λ w. MayGo w from.0 to.0 timer.0)) }
{
    let Some(class) = class_first(core, from, timer) else {
        return Some(Cause::NotFirst { timer, cpu: from });
    };
    if !core.none_behind(to, class) {
        return Some(Cause::BehindThere { from, to });
    }
    None
}

/// What forbids that a CPU takes timers in.
fn no_taker<B: TimerBase>(core: &Core<B>, to: CpuId) -> Option<Cause>
    ensures none { IfNone result (IsReadyToTake core.now to.0) }
    ensures named { IfSome result (IsCause core.now (λ w. IsReadyToTake w to.0)) }
{
    if let Some(cause) = no_free(core, to) {
        return Some(cause);
    }
    if !core.is_placed(to) {
        return Some(Cause::Cpu(to, CpuFact::Isolated));
    }
    if let Some(cause) = no_active(core, to) {
        return Some(cause);
    }
    if core.status(to).inside {
        return Some(Cause::Cpu(to, CpuFact::Inside));
    }
    None
}

pub(crate) fn no_move<B: TimerBase>(
    core: &Core<B>,
    from: CpuId,
    to: CpuId,
    timer: TimerId,
) -> Option<Cause>
    ensures none { IfNone result (MayMove core.now from.0 to.0 timer.0) }
    ensures named { IfSome result (IsCause core.now (λ w. MayMove w from.0 to.0 timer.0)) }
{
    if let Some(cause) = no_online(core, from) {
        return Some(cause);
    }
    if let Some(cause) = no_taker(core, to) {
        return Some(cause);
    }
    no_going(core, from, to, timer)
}
