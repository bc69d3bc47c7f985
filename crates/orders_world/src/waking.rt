//! Who wakes by a time.

ghost use Rattle.std.specs.Prelude.{◌≡◌, ℕ, IfNone, IfSome};
ghost use Rattle.coverage.specs.Coverage.{WakesItself};
ghost use Rattle.core_world.specs.Covered.{kept_wakeup, machine_of};
ghost use Rattle.core_world.specs.Wakeups.{is_undisturbed};
ghost use Rattle.core_world.specs.World.{cpu_of};
ghost use Rattle.orders_world.specs.Answering.{WakesItselfAt};
ghost use Rattle.orders_world.specs.Seeking.{IsLowestBy, KeepsBy};

use plain_world::PlainWorld;
use tm_base::{CpuId, Jiffy};
use walk_rules::{Walk, WalkKind};

/// Whether a CPU has no walk, or one that another CPU makes for it.
fn is_undisturbed(walk: Option<Walk>) -> bool
    ensures { result ≡ is_undisturbed walk }
{
    match walk {
        Some(walk) => matches!(walk.kind, WalkKind::Remote { by: _ }),
        None => true,
    }
}

/// The wakeup that a CPU keeps, in jiffies.
fn kept_wakeup(world: &PlainWorld, cpu: CpuId) -> Option<Jiffy>
    ensures { result ≡ kept_wakeup (cpu_of world.now cpu.0) }
{
    let status = world.status(cpu);
    if status.online && (status.idle && (!status.inside && is_undisturbed(status.walk))) {
        Some(status.wakeup)
    } else {
        None
    }
}

/// When a CPU wakes by itself for a wheel expiry, in jiffies.
pub(crate) fn own_wakeup(world: &PlainWorld, cpu: CpuId, wheel: Jiffy) -> Option<Jiffy>
    ensures wakes { IfSome result (λ at. WakesItselfAt world.now cpu.0 wheel cpu.0 at) }
    ensures none { IfNone result (WakesItself (machine_of world.now) cpu.0 wheel → ⊥) }
{
    let Some(at) = kept_wakeup(world, cpu) else {
        return None;
    };
    if at > wheel {
        return None;
    }
    Some(at)
}

/// The wakeup of a placed CPU that it keeps by a time, in jiffies.
fn wakeup_by(world: &PlainWorld, time: Jiffy, cpu: CpuId) -> Option<Jiffy>
    ensures keeps { IfSome result (λ at. KeepsBy world.now time cpu.0 at) }
    ensures none { IfNone result ((at : ℕ) → KeepsBy world.now time cpu.0 at → ⊥) }
{
    if !world.is_placed(cpu) {
        return None;
    }
    let Some(at) = kept_wakeup(world, cpu) else {
        return None;
    };
    if at > time {
        return None;
    }
    Some(at)
}

/// A CPU, and when it wakes, in jiffies.
#[derive(Clone, Copy)]
pub(crate) struct Waker {
    pub cpu: CpuId,
    pub at: Jiffy,
}

/// The lowest placed CPU that keeps a wakeup by a time, in jiffies.
pub(crate) fn lowest_waker(world: &PlainWorld, time: Jiffy) -> Option<Waker>
    ensures lowest { IfSome result (λ x. IsLowestBy world.now time x.cpu.0 x.at) }
    ensures none { IfNone result ((d at : ℕ) → KeepsBy world.now time d at → ⊥) }
{
    for cpu in 0..world.count() {
        if let Some(at) = wakeup_by(world, time, CpuId(cpu)) {
            return Some(Waker {
                cpu: CpuId(cpu),
                at,
            });
        }
    }
    None
}
