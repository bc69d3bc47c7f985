//! Who wakes by a time.

ghost use Rattle.std.specs.Prelude.{◌≡◌, ℕ, ◌<◌, ◌≤◌, IfNone, IfSome, Some, length, true};
ghost use Rattle.tree_plan.specs.Paths.{is_placed_in};
ghost use Rattle.core_world.specs.Covered.{kept_wakeup};
ghost use Rattle.core_world.specs.Wakeups.{is_undisturbed};
ghost use Rattle.core_world.specs.World.{cpu_of};
ghost use Rattle.trace_check.specs.Told.{IsFirstWaker, WakesIn};

use step_core::Core;
use tm_base::{CpuId, Jiffy};
use walk_rules::{Walk, WalkKind};
use wheel_core::TimerBase;

/// Whether a CPU has no walk, or one that another CPU makes for it.
pub(crate) fn is_undisturbed(walk: Option<Walk>) -> bool
    ensures { result ≡ is_undisturbed walk }
{
    match walk {
        Some(walk) => match walk.kind {
            WalkKind::Remote { by: _ } => true,
            WalkKind::Activate => false,
            WalkKind::Deactivate => false,
            WalkKind::Offline => false,
            WalkKind::Reeval => false,
        },
        None => true,
    }
}

/// The wakeup that a CPU keeps, in jiffies.
pub(crate) fn kept_wakeup<B: TimerBase>(core: &Core<B>, cpu: CpuId) -> Option<Jiffy>
    requires { cpu.0 < length core.now.cpus }
    ensures { result ≡ kept_wakeup (cpu_of core.now cpu.0) }
{
    let status = core.status(cpu);
    if status.online && (status.idle && (!status.inside && is_undisturbed(status.walk))) {
        Some(status.wakeup)
    } else {
        None
    }
}

/// The wakeup of a placed CPU that it keeps by a time, in jiffies.
fn wakeup_by<B: TimerBase>(core: &Core<B>, time: Jiffy, cpu: CpuId) -> Option<Jiffy>
    requires { cpu.0 < length core.now.cpus }
    ensures placed { IfSome result (λ at. is_placed_in core.now.tree cpu.0 ≡ true) }
    ensures keeps { IfSome result (λ at. kept_wakeup (cpu_of core.now cpu.0) ≡ Some at) }
    ensures in_time { IfSome result (λ at. at ≤ time) }
    ensures none { IfNone result (WakesIn core.now time cpu.0 → ⊥) }
{
    if !core.is_placed(cpu) {
        return None;
    }
    let Some(at) = kept_wakeup(core, cpu) else {
        return None;
    };
    if at > time {
        return None;
    }
    Some(at)
}

/// A CPU, and when it wakes, in jiffies.
#[derive(Clone, Copy)]
pub(crate) struct Waker {
    pub cpu: CpuId,
    pub at: Jiffy,
}

/// The lowest placed CPU that keeps a wakeup by a time, in jiffies.
pub(crate) fn first_waker<B: TimerBase>(core: &Core<B>, time: Jiffy) -> Option<Waker>
    ensures first { IfSome result (λ x. IsFirstWaker core.now time x.cpu.0 x.at) }
    ensures none { IfNone result ((d : ℕ) → WakesIn core.now time d → ⊥) }
{
    core.kept();
    for cpu in 0..core.count() {
        if let Some(at) = wakeup_by(core, time, CpuId(cpu)) {
            return Some(Waker {
                cpu: CpuId(cpu),
                at,
            });
        }
    }
    None
}
