//! What the timers of a CPU say.

ghost use Rattle.std.specs.Prelude.{◌≡◌, ◌↔◌, IsTrue};
ghost use Rattle.wheel_core.specs.PlainBase.{NoneBehind, next_out, oldest_of};
ghost use Rattle.core_world.specs.cpu_bases.CpuBases.{base_of, class_in};

use crate::cpu::CoreCpu;
use tm_base::{Class, Jiffy, TimerId};
use wheel_core::{Item, TimerBase};

impl<B: TimerBase> CoreCpu<B> {
    /// The class in which a timer is queued on it.
    pub fn class_of(&self, timer: TimerId) -> Option<Class>
        ensures { result ≡ class_in timer.0 self.now.bases }
    {
        self.bases.where_is(timer)
    }

    /// Whether nothing of a class is behind the clock of its base.
    pub fn none_behind(&self, class: Class) -> bool
        ensures { IsTrue result ↔ NoneBehind (base_of class self.now.bases) }
    {
        let base = self.bases.base(class);
        match base.first() {
            Some(first) => base.clock() <= first,
            None => true,
        }
    }

    /// The next timer of a class that is due at a time, in jiffies.
    pub fn next_out(&self, now: Jiffy, class: Class) -> Option<Item>
        ensures { result ≡ next_out now (base_of class self.now.bases) }
    {
        self.bases.base(class).peek_next(now)
    }

    /// The first of a class in arming order.
    pub fn oldest(&self, class: Class) -> Option<u32>
        ensures { result ≡ oldest_of (base_of class self.now.bases).items }
    {
        self.bases.base(class).oldest()
    }
}
