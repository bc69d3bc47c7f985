//! What the timers of a core's CPUs say.

ghost use Rattle.std.specs.Prelude.{◌≡◌, ◌<◌, ◌↔◌, IsTrue, length};
ghost use Rattle.wheel_core.specs.PlainBase.{NoneBehind, next_out, oldest_of};
ghost use Rattle.cpu_bases.specs.CpuBases.{base_of, class_in};
ghost use Rattle.core_parts.specs.core_world.World.{cpu_of};

use crate::machine::Core;
use tm_base::{Class, CpuId, TimerId};
use wheel_core::{Item, TimerBase};

impl<B: TimerBase> Core<B> {
    /// The class in which a timer is queued on a CPU.
    pub fn class_of(&self, cpu: CpuId, timer: TimerId) -> Option<Class>
        requires { cpu.0 < length self.now.cpus }
        ensures { result ≡ class_in timer.0 (cpu_of self.now cpu.0).bases }
    {
        self.cpus[usize::from(cpu.0)].class_of(timer)
    }

    /// Whether nothing of a class is behind the clock of its base on a CPU.
    pub fn none_behind(&self, cpu: CpuId, class: Class) -> bool
        requires { cpu.0 < length self.now.cpus }
        ensures { IsTrue result ↔ NoneBehind (base_of class (cpu_of self.now cpu.0).bases) }
    {
        self.cpus[usize::from(cpu.0)].none_behind(class)
    }

    /// The next timer of a class on a CPU that is due now.
    pub fn next_out(&self, cpu: CpuId, class: Class) -> Option<Item>
        requires { cpu.0 < length self.now.cpus }
        ensures { result ≡ next_out self.now.clock (base_of class (cpu_of self.now cpu.0).bases) }
    {
        let now = self.clock;
        self.cpus[usize::from(cpu.0)].next_out(now, class)
    }

    /// The id of the first timer of a class on a CPU, in arming order.
    pub fn oldest(&self, cpu: CpuId, class: Class) -> Option<u32>
        requires { cpu.0 < length self.now.cpus }
        ensures { result ≡ oldest_of (base_of class (cpu_of self.now cpu.0).bases).items }
    {
        self.cpus[usize::from(cpu.0)].oldest(class)
    }

    /// Whether a timer is one of the core's.
    pub fn knows(&self, timer: TimerId) -> bool
        ensures { IsTrue result ↔ (timer.0 < self.now.timers) }
    {
        usize::from(timer.0) < self.holders.len()
    }
}
