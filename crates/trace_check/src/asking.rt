//! Who answers for a timer.

ghost use Rattle.std.specs.Prelude.{◌<◌, IfNone, IfSome, length};
ghost use Rattle.coverage.specs.Coverage.{Held, WakesItself, Woken};
ghost use Rattle.core_world.specs.Covered.{Covered, machine_of};
ghost use Rattle.trace_check.specs.Reasons.{HasNoReason, IsAsked, IsCarriedIn, IsFirstReason};
ghost use Rattle.trace_check.specs.Reasons.{IsReason, WakesAt};
ghost use Rattle.trace_check.specs.Told.{IsLeft, IsReach};

use crate::carrying::{is_busy, is_seen_to};
use crate::leading::led_to;
use crate::reach::{End, Reach, climb};
use crate::reason::Reason;
use crate::waking::{first_waker, kept_wakeup};
use step_core::{Core, law_covered};
use tm_base::{Class, CpuId, Jiffy, TimerId};
use wheel_core::{Item, TimerBase};

/// The migrator that holds a wheel expiry, which was told so far.
fn holder_of<B: TimerBase>(core: &Core<B>, cpu: CpuId, wheel: Jiffy, reach: Reach) -> Option<Reason>
    requires { IsReach core.now cpu.0 wheel reach }
    ensures first { IfSome result (IsFirstReason core.now cpu.0 wheel) }
    ensures none { IfNone result (Held (machine_of core.now) cpu.0 wheel → ⊥) }
{
    match reach.end {
        End::Active(group) => match led_to(core, group) {
            Some(runner) => Some(Reason::Held { group, cpu: runner }),
            None => None,
        },
        End::Top(_) => None,
        End::Untold => None,
    }
}

/// The lowest CPU that wakes for the top, where a wheel expiry was told so far.
fn waker_above<B: TimerBase>(
    core: &Core<B>,
    cpu: CpuId,
    wheel: Jiffy,
    reach: Reach,
) -> Option<Reason>
    requires reach { IsReach core.now cpu.0 wheel reach }
    requires not_held { Held (machine_of core.now) cpu.0 wheel → ⊥ }
    requires not_itself { WakesItself (machine_of core.now) cpu.0 wheel → ⊥ }
    ensures first { IfSome result (IsFirstReason core.now cpu.0 wheel) }
    ensures none { IfNone result (Woken (machine_of core.now) cpu.0 wheel → ⊥) }
{
    match reach.end {
        End::Top(time) => match first_waker(core, time) {
            Some(waker) => Some(Reason::Woken {
                cpu: waker.cpu,
                at: waker.at,
            }),
            None => None,
        },
        End::Active(_) => None,
        End::Untold => None,
    }
}

/// When a CPU wakes by itself for a wheel expiry, in jiffies.
fn own_wakeup<B: TimerBase>(core: &Core<B>, cpu: CpuId, wheel: Jiffy) -> Option<Jiffy>
    requires { cpu.0 < length core.now.cpus }
    ensures wakes { IfSome result (λ at. WakesAt core.now cpu.0 wheel cpu.0 at) }
    ensures none { IfNone result (WakesItself (machine_of core.now) cpu.0 wheel → ⊥) }
{
    let Some(at) = kept_wakeup(core, cpu) else {
        return None;
    };
    if at > wheel {
        return None;
    }
    Some(at)
}

/// The case in which a wheel expiry is carried that is neither held nor woken for.
fn case_for<B: TimerBase>(core: &Core<B>, cpu: CpuId, wheel: Jiffy, reach: Reach) -> u8
    requires cpu { cpu.0 < length core.now.cpus }
    requires reach { IsReach core.now cpu.0 wheel reach }
    requires left { IsLeft core.now cpu.0 wheel }
    ensures { IsCarriedIn core.now cpu.0 wheel result }
{
    core.kept();
    if is_busy(core, cpu) {
        return 1;
    }
    if is_seen_to(core, cpu, reach.level) {
        return 2;
    }
    match reach.end {
        End::Active(_) => 3,
        End::Top(_) => 4,
        End::Untold => 4,
    }
}

/// Who answers for a wheel expiry, in jiffies.
fn first_for<B: TimerBase>(core: &Core<B>, cpu: CpuId, wheel: Jiffy) -> Reason
    requires cpu { cpu.0 < length core.now.cpus }
    requires covered { Covered core.now cpu.0 wheel }
    ensures { IsFirstReason core.now cpu.0 wheel result }
{
    let reach = climb(core, cpu, wheel);
    if let Some(held) = holder_of(core, cpu, wheel, reach) {
        return held;
    }
    if let Some(at) = own_wakeup(core, cpu, wheel) {
        return Reason::Woken { cpu, at };
    }
    if let Some(woken) = waker_above(core, cpu, wheel, reach) {
        return woken;
    }
    Reason::Carried {
        case: case_for(core, cpu, wheel, reach),
    }
}

/// The item of a global timer that is queued on an online idle CPU.
fn waiting<B: TimerBase>(core: &Core<B>, cpu: CpuId, timer: TimerId) -> Option<Item>
    requires { cpu.0 < length core.now.cpus }
    ensures asked { IfSome result (IsAsked core.now cpu.0 timer.0) }
    ensures none { IfNone result (HasNoReason core.now cpu.0 timer.0) }
{
    let status = core.status(cpu);
    if !status.online || !status.idle {
        return None;
    }
    core.bases(cpu).base(Class::Global).get(u32::from(timer.0))
}

/// Who answers for a timer: the first of Held, Woken and Carried that holds for its wheel expiry.
/// None exactly where the CPU isn't online and idle, or the timer isn't in its global base. It
/// follows the CPU's path, and then goes at most once over all CPUs for those that wake, and once
/// for their walks; that a walk or an interrupt carries what nobody else answers for is the
/// headline.
pub fn why<B: TimerBase>(core: &Core<B>, cpu: CpuId, timer: TimerId) -> Option<Reason>
    requires { cpu.0 < length core.now.cpus }
    ensures reason { IfSome result (IsReason core.now cpu.0 timer.0) }
    ensures none { IfNone result (HasNoReason core.now cpu.0 timer.0) }
{
    core.tree();
    law_covered();
    let Some(item) = waiting(core, cpu, timer) else {
        return None;
    };
    Some(first_for(core, cpu, item.wheel))
}
