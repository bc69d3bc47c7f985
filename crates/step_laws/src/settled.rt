//! Whether anything is under way.

ghost use Rattle.std.specs.Prelude.{◌≡◌, ◌↔◌, ◌<◌, None, false, length, true, IsTrue};
ghost use Rattle.core_world.specs.Covered.{IsSettled};
ghost use Rattle.core_world.specs.World.{cpu_of};

use step_core::Core;
use tm_base::CpuId;
use wheel_core::TimerBase;

/// Whether a CPU has no walk and is outside its interrupt.
fn rests<B: TimerBase>(core: &Core<B>, cpu: CpuId) -> bool
    requires { cpu.0 < length core.now.cpus }
    ensures free { result ≡ true → (cpu_of core.now cpu.0).walk ≡ None }
    ensures outside { result ≡ true → (cpu_of core.now cpu.0).inside ≡ false }
    ensures no { (cpu_of core.now cpu.0).walk ≡ None → (cpu_of core.now cpu.0).inside ≡ false →
        result ≡ true }
{
    let status = core.status(cpu);
    status.walk.is_none() && !status.inside
}

/// Whether no walk and no interrupt is under way. It looks at each CPU.
pub fn is_settled<B: TimerBase>(core: &Core<B>) -> bool
    ensures { IsTrue result ↔ IsSettled core.now }
{
    for cpu in 0..core.count() {
        if !rests(core, CpuId(cpu)) {
            return false;
        }
    }
    true
}
