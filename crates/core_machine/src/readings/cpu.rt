//! What a core says of one CPU.

ghost use Rattle.std.specs.Prelude.{◌≡◌, ◌<◌, ◌&&◌, length, true};
ghost use Rattle.tree_plan.specs.Paths.{is_placed_in};
ghost use Rattle.play_rules.specs.Hierarchy.{first_event};
ghost use Rattle.play_rules.specs.Play.{has_interrupt};
ghost use Rattle.play_rules.specs.State.{cpu_at, is_active};
ghost use Rattle.core_world.specs.World.{cpu_of};
ghost use Rattle.step_play.specs.Rules.Seen.{state_of};

use core_steps::Core;
use tm_base::{CpuId, Jiffy};
use wheel_core::TimerBase;

/// Whether a CPU is online.
#[tactic(auto, using(crate::proofs::Views::Seen::online_seen))]
pub fn is_online<B: TimerBase>(core: &Core<B>, cpu: CpuId) -> bool
    requires { cpu.0 < length core.now.cpus }
    ensures online { result ≡ (cpu_of core.now cpu.0).online }
    ensures seen { result ≡ (cpu_at (state_of core.now) cpu.0).online }
{
    core.status(cpu).online
}

/// Whether a CPU is idle, or offline.
#[tactic(auto, using(crate::proofs::Views::Seen::idle_seen))]
pub fn is_idle<B: TimerBase>(core: &Core<B>, cpu: CpuId) -> bool
    requires { cpu.0 < length core.now.cpus }
    ensures idle { result ≡ (cpu_of core.now cpu.0).idle }
    ensures seen { result ≡ (cpu_at (state_of core.now) cpu.0).idle }
{
    core.status(cpu).idle
}

/// Whether a CPU is online and idle.
pub(crate) fn sleeps<B: TimerBase>(core: &Core<B>, cpu: CpuId) -> bool
    requires { cpu.0 < length core.now.cpus }
    ensures { result ≡ ((cpu_of core.now cpu.0).online && (cpu_of core.now cpu.0).idle) }
{
    let status = core.status(cpu);
    status.online && status.idle
}

/// The programmed wakeup of a CPU, in jiffies; `NEVER` where there is none.
#[tactic(auto, using(crate::proofs::Views::Seen::wakeup_seen))]
pub fn wakeup<B: TimerBase>(core: &Core<B>, cpu: CpuId) -> Jiffy
    requires { cpu.0 < length core.now.cpus }
    ensures wakeup { result ≡ (cpu_of core.now cpu.0).wakeup }
    ensures seen { result ≡ (cpu_at (state_of core.now) cpu.0).wakeup }
{
    core.status(cpu).wakeup
}

/// Whether a CPU is placed in the tree, and not isolated.
pub fn is_placed<B: TimerBase>(core: &Core<B>, cpu: CpuId) -> bool
    requires { cpu.0 < length core.now.cpus }
    ensures { result ≡ is_placed_in core.now.tree cpu.0 }
{
    core.is_placed(cpu)
}

/// Whether a CPU is online and not idle.
pub fn is_active<B: TimerBase>(core: &Core<B>, cpu: CpuId) -> bool
    requires { cpu.0 < length core.now.cpus }
    ensures { result ≡ is_active (state_of core.now) cpu.0 }
{
    is_online(core, cpu) && !is_idle(core, cpu)
}

/// Whether a CPU has an interrupt now; it is online then.
pub fn has_interrupt<B: TimerBase>(core: &Core<B>, cpu: CpuId) -> bool
    requires { cpu.0 < length core.now.cpus }
    ensures has { result ≡ has_interrupt (state_of core.now) cpu.0 }
    ensures online { result ≡ true → (cpu_of core.now cpu.0).online ≡ true }
{
    is_online(core, cpu) && (!is_idle(core, cpu) || wakeup(core, cpu) <= core.now())
}

/// The first event of a CPU, in jiffies; `NEVER` where there is none.
#[tactic(auto, using(crate::proofs::Views::Seen::first_seen))]
pub fn first_event<B: TimerBase>(core: &Core<B>, cpu: CpuId) -> Jiffy
    requires { cpu.0 < length core.now.cpus }
    ensures { result ≡ first_event (state_of core.now) cpu.0 }
{
    let events = core.events_of(cpu);
    events.pin.min(events.first_global)
}
