//! What the timers of a world's CPUs say.

ghost use Rattle.std.specs.Prelude.{◌≡◌, ◌<◌, ◌↔◌, IsTrue, None};
ghost use Rattle.std.specs.Prelude.{option_map, true};
ghost use Rattle.wheel_core.specs.PlainBase.{NoneBehind, least, next_out, oldest_of};
ghost use Rattle.cpu_bases.specs.CpuBases.{base_of, class_in, events_of, item_in};
ghost use Rattle.core_world.specs.Steps.{first_moved};
ghost use Rattle.core_world.specs.World.{cpu_of};

use crate::world::PlainWorld;
use cpu_bases::NextEvents;
use tm_base::{Class, CpuId, Jiffy, NEVER, TimerId};
use wheel_core::Item;

/// What stands for the first events of a CPU that isn't there.
const NO_EVENTS: NextEvents = NextEvents {
    pin: NEVER,
    first_global: NEVER,
    next: NEVER,
};

impl PlainWorld {
    /// The first events of a CPU.
    pub fn events_of(&self, cpu: CpuId) -> NextEvents
        ensures { result ≡ events_of (cpu_of self.now cpu.0).bases }
    {
        match self.cpus.get(usize::from(cpu.0)) {
            Some(found) => found.timers().events(),
            None => NO_EVENTS,
        }
    }

    /// The class in which a timer is queued on a CPU.
    pub fn class_of(&self, cpu: CpuId, timer: TimerId) -> Option<Class>
        ensures { result ≡ class_in timer.0 (cpu_of self.now cpu.0).bases }
    {
        match self.cpus.get(usize::from(cpu.0)) {
            Some(found) => found.timers().class_of(timer),
            None => None,
        }
    }

    /// The item of a timer that is queued on a CPU.
    pub fn item_of(&self, cpu: CpuId, timer: TimerId) -> Option<Item>
        ensures { result ≡ item_in timer.0 (cpu_of self.now cpu.0).bases }
    {
        match self.cpus.get(usize::from(cpu.0)) {
            Some(found) => found.timers().item_of(timer),
            None => None,
        }
    }

    /// The least wheel expiry of a class on a CPU, in jiffies; None exactly where nothing of the
    /// class is queued there.
    pub fn first_of(&self, cpu: CpuId, class: Class) -> Option<Jiffy>
        ensures { result ≡ least (base_of class (cpu_of self.now cpu.0).bases).items }
    {
        match self.cpus.get(usize::from(cpu.0)) {
            Some(found) => found.timers().base(class).first(),
            None => None,
        }
    }

    /// Whether nothing of a class is behind the clock of its base on a CPU.
    pub fn none_behind(&self, cpu: CpuId, class: Class) -> bool
        ensures { IsTrue result ↔ NoneBehind (base_of class (cpu_of self.now cpu.0).bases) }
    {
        match self.cpus.get(usize::from(cpu.0)) {
            Some(found) => found.timers().base(class).none_behind(),
            None => true,
        }
    }

    /// The next timer of a class on a CPU that is due now.
    pub fn next_out(&self, cpu: CpuId, class: Class) -> Option<Item>
        ensures { result ≡ next_out self.now.clock (base_of class (cpu_of self.now cpu.0).bases) }
    {
        match self.cpus.get(usize::from(cpu.0)) {
            Some(found) => found.timers().base(class).next_out(self.clock),
            None => None,
        }
    }

    /// The first of a class on a CPU, in arming order.
    pub fn oldest(&self, cpu: CpuId, class: Class) -> Option<u32>
        ensures { result ≡ oldest_of (base_of class (cpu_of self.now cpu.0).bases).items }
    {
        match self.cpus.get(usize::from(cpu.0)) {
            Some(found) => found.timers().base(class).oldest_id(),
            None => None,
        }
    }

    /// The class and item of the timer that moves first from a CPU.
    pub fn first_to_move(&self, cpu: CpuId) -> Option<(Class, Item)>
        ensures { result ≡ first_moved (cpu_of self.now cpu.0).bases }
    {
        match self.cpus.get(usize::from(cpu.0)) {
            Some(found) => found.timers().first_to_move(),
            None => None,
        }
    }

    /// The class of the timer that moves first from a CPU.
    pub fn class_to_move(&self, cpu: CpuId) -> Option<Class>
        ensures { result
            ≡ option_map (λ first. first.0) (first_moved (cpu_of self.now cpu.0).bases) }
    {
        match self.first_to_move(cpu) {
            Some((class, _)) => Some(class),
            None => None,
        }
    }
}
