//! The sleepers of a device in the order of their wakeups.

ghost use Rattle.std.specs.Prelude.{◌≡◌, ◌<◌, ◌≤◌, length, take, drop, slice_index_or};
ghost use Rattle.deep_idle.specs.Order.{After, AreDescending, IsIn, NotAfter};
ghost use Rattle.deep_idle.specs.declared.order.Sleeper.{Sleeper};

use tm_base::{CpuId, Jiffy};

/// A CPU that sleeps.
#[derive(Clone, Copy)]
pub(crate) struct Sleeper {
    /// When it wakes, in jiffies.
    pub(crate) wakeup: Jiffy,
    pub(crate) cpu: CpuId,
}

/// The place in a queue before which all wake after a time, and from which on none does. It looks
/// at those that wake first, as many as make way for one that is put there.
pub(crate) fn index_for(queue: &[Sleeper], wakeup: Jiffy) -> usize
    requires { AreDescending queue.now }
    ensures within { result ≤ length queue.now }
    ensures before { After wakeup (take result queue.now) }
    ensures behind { NotAfter wakeup (drop result queue.now) }
{
    let mut place = queue.len();
    while place > 0 {
        if queue[place - 1].wakeup > wakeup {
            return place;
        }
        place -= 1;
    }
    place
}

/// The place of a CPU that is in a queue. It looks at those that wake first, as many as move when
/// it is taken out.
pub(crate) fn place_with(queue: &[Sleeper], cpu: CpuId) -> usize
    requires { IsIn cpu.0 queue.now }
    ensures within { result < length queue.now }
    ensures cpu { (d : Sleeper) → (slice_index_or queue.now result d).cpu.0 ≡ cpu.0 }
{
    let mut place = queue.len() - 1;
    while queue[place].cpu.0 != cpu.0 {
        place -= 1;
    }
    place
}
