//! Whether a CPU's walk is alone.

ghost use Rattle.std.specs.Prelude.{◌≡◌, ◌↔◌, ◌<◌, ◌≢◌, false, length, IsTrue};
ghost use Rattle.core_world.specs.World.{cpu_of};
ghost use Rattle.step_play.specs.Rules.Alone.{goes_on};
ghost use Rattle.step_play.specs.Rules.Lone.{IsLone};

use core_steps::Core;
use tm_base::CpuId;
use walk_rules::Stage;
use wheel_core::TimerBase;

/// Whether a CPU has a walk that goes on: one that doesn't stand at `Handing`.
pub fn goes_on<B: TimerBase>(core: &Core<B>, cpu: CpuId) -> bool
    requires { cpu.0 < length core.now.cpus }
    ensures { result ≡ goes_on (cpu_of core.now cpu.0).walk }
{
    match core.walk(cpu) {
        Some(walk) => !matches!(walk.stage, Stage::Handing),
        None => false,
    }
}

/// Whether a CPU is this one, or has no walk that goes on.
fn leaves_alone<B: TimerBase>(core: &Core<B>, other: CpuId, cpu: CpuId) -> bool
    requires { other.0 < length core.now.cpus }
    ensures { IsTrue result ↔ (other.0 ≢ cpu.0 → goes_on (cpu_of core.now other.0).walk ≡ false) }
{
    other.0 == cpu.0 || !goes_on(core, other)
}

/// Whether no walk goes on but that of this CPU. It looks at each CPU.
pub fn is_alone<B: TimerBase>(core: &Core<B>, cpu: CpuId) -> bool
    ensures { IsTrue result ↔ IsLone core.now cpu.0 }
{
    for other in 0..core.count() {
        if !leaves_alone(core, CpuId(other), cpu) {
            return false;
        }
    }
    true
}
