//! What is queued in a plain world, as causes ask.

ghost use Rattle.std.specs.Prelude.{◌≡◌, ◌↔◌, ℕ, IfNone, IfSome, IsTrue, None, Some};
ghost use Rattle.cpu_bases.specs.CpuBases.{class_in};
ghost use Rattle.core_world.specs.Enabled.{MayRun};
ghost use Rattle.core_world.specs.World.{cpu_of};
ghost use Rattle.tm_base.specs.declared.names.Class.TheVariants.{Global};

use crate::asking::is_number;
use plain_world::PlainWorld;
use tm_base::{Class, CpuId, TimerId};

/// Whether an id is a timer's.
pub(crate) fn is_id(id: Option<u32>, timer: TimerId) -> bool
    ensures { IsTrue result ↔ (id ≡ Some timer.0) }
{
    match id {
        Some(id) => id == u32::from(timer.0),
        None => false,
    }
}

/// Whether any CPU may run timers of a class.
fn is_global(class: Class) -> bool
    ensures { IsTrue result ↔ (class ≡ Global) }
{
    matches!(class, Class::Global)
}

/// A CPU on which a timer is queued. It looks at each CPU.
pub(crate) fn queued_on(world: &PlainWorld, timer: TimerId) -> Option<CpuId>
    ensures there { IfSome result
        (λ d. class_in timer.0 (cpu_of world.now d.0).bases ≡ None → ⊥) }
    ensures nowhere { IfNone result
        ((d : ℕ) → class_in timer.0 (cpu_of world.now d).bases ≡ None) }
{
    for cpu in 0..world.count() {
        if world.class_of(CpuId(cpu), timer).is_some() {
            return Some(CpuId(cpu));
        }
    }
    None
}

/// Whether the runner may run timers of a class of a CPU.
pub(crate) fn may_run(world: &PlainWorld, cpu: CpuId, class: Class, runner: CpuId) -> bool
    ensures { IsTrue result ↔ MayRun world.now cpu.0 class runner.0 }
{
    let status = world.status(cpu);
    if runner.0 == cpu.0 && status.inside {
        return true;
    }
    is_global(class) && is_number(status.mark, runner)
}
