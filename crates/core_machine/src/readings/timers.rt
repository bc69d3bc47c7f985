//! Where a core's timers are queued.

ghost use Rattle.std.specs.Prelude.{◌≡◌, ◌<◌, IfSome, length, option_map};
ghost use Rattle.cpu_bases.specs.CpuBases.{found_in};
ghost use Rattle.play_rules.specs.Timers.{count_on, where_queued};
ghost use Rattle.core_world.specs.World.{cpu_of};
ghost use Rattle.step_play.specs.Rules.Seen.{state_of};

use core_steps::Core;
use play_rules::Queued;
use tm_base::{Class, CpuId, TimerId};
use wheel_core::{Item, TimerBase};

/// The CPU on which a timer is queued; None exactly where it is queued nowhere. It costs no search.
pub fn holder<B: TimerBase>(core: &Core<B>, timer: TimerId) -> Option<CpuId>
    requires { timer.0 < core.now.timers }
    ensures holder { result
        ≡ option_map (λ held. held.cpu) (where_queued (state_of core.now) timer.0) }
    ensures in_range { IfSome result (λ cpu. cpu.0 < length core.now.cpus) }
{
    core.tree();
    core.queued_on(timer)
}

/// The class and item of a timer on a CPU.
fn found<B: TimerBase>(core: &Core<B>, cpu: CpuId, timer: TimerId) -> Option<(Class, Item)>
    requires { cpu.0 < length core.now.cpus }
    ensures { result ≡ found_in timer.0 (cpu_of core.now cpu.0).bases }
{
    let Some(class) = core.class_of(cpu, timer) else {
        return None;
    };
    let Some(item) = core.bases(cpu).base(class).get(u32::from(timer.0)) else {
        return None;
    };
    Some((class, item))
}

/// Where a timer is queued, with its class and wheel expiry, in jiffies; None exactly where it is
/// queued nowhere. It costs no search of CPUs.
pub fn queued<B: TimerBase>(core: &Core<B>, timer: TimerId) -> Option<Queued>
    requires { timer.0 < core.now.timers }
    ensures { result ≡ where_queued (state_of core.now) timer.0 }
{
    core.tree();
    let Some(cpu) = core.queued_on(timer) else {
        return None;
    };
    let Some((class, item)) = found(core, cpu, timer) else {
        return None;
    };
    Some(Queued {
        cpu,
        class,
        wheel: item.wheel,
    })
}

/// How many timers are queued on a CPU.
pub fn count_queued<B: TimerBase>(core: &Core<B>, cpu: CpuId) -> usize
    requires { cpu.0 < length core.now.cpus }
    ensures { result ≡ count_on (state_of core.now) cpu.0 }
{
    core.timers_kept(cpu);
    let bases = core.bases(cpu);
    bases.base(Class::Pinned).len()
        + (bases.base(Class::Global).len() + bases.base(Class::Deferrable).len())
}
