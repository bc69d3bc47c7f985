//! Whether any queued timer is behind the clock of its base.

ghost use Rattle.std.specs.Prelude.{◌↔◌, ◌<◌, length, IsTrue};
ghost use Rattle.core_world.specs.World.{cpu_of};
ghost use Rattle.hotplug.specs.Settled.{AllWhole, AreBasesWhole};

use core_machine::Core;
use tm_base::{Class, CpuId};
use wheel_core::TimerBase;

/// Whether in no base of a CPU a queued wheel expiry is below the base's clock.
fn is_whole_on<B: TimerBase>(core: &Core<B>, cpu: CpuId) -> bool
    requires { cpu.0 < length core.now.cpus }
    ensures { IsTrue result ↔ AreBasesWhole (cpu_of core.now cpu.0).bases }
{
    if !core.none_behind(cpu, Class::Pinned) {
        return false;
    }
    if !core.none_behind(cpu, Class::Global) {
        return false;
    }
    core.none_behind(cpu, Class::Deferrable)
}

/// Whether in no base of any CPU a queued wheel expiry is below the base's clock. It looks at each
/// CPU.
pub fn is_whole<B: TimerBase>(core: &Core<B>) -> bool
    ensures { IsTrue result ↔ AllWhole core.now }
{
    for cpu in 0..core.count() {
        if !is_whole_on(core, CpuId(cpu)) {
            return false;
        }
    }
    true
}
