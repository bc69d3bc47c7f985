//! What a timer base is.

use crate::{Item, NoRoom};

/// A base of timers: items in arming order, under a clock in jiffies (the kernel's
/// `struct timer_base`). Nothing is said of how it keeps them. No call but `reserve` takes memory.
///
/// Forwarding, adding, removing and hand-out are the plain base's `forwarded`, `added`, `removed`,
/// `next_out` and `taken`. The clauses beside these say what follows for the callers.
pub trait TimerBase: Drop {
    ghost use Rattle.std.specs.Prelude.{◌≡◌, ◌+◌, ◌^◌, ◌<◌, ◌≤◌, length, max};
    ghost use Rattle.std.specs.Prelude.{None, IfNone, IfSome, OnSome, IsOk, OnOk, OnErr};
    ghost use Rattle.wheel_core.specs.WheelExpiry.{KeepsTime};
    ghost use Rattle.wheel_core.specs.PlainBase.{RoomyBase, on_plain, reserved};
    ghost use Rattle.wheel_core.specs.PlainBase.{IsSound, NoneBehind, NoneSooner, OutIsDue};
    ghost use Rattle.wheel_core.specs.PlainBase.{OneFewer, added, forwarded, item_of, least};
    ghost use Rattle.wheel_core.specs.PlainBase.{next_out, oldest_of, item_added, removed, taken};

    /// The items in arming order, the clock, and how many items there is memory for.
    ghost base: { Self → RoomyBase };

    /// The clock, in jiffies.
    fn clock(&self) -> u64
        ensures clock { result ≡ (base self.now).plain.clock }

        // What every base keeps.
        ensures sound { IsSound (base self.now).plain.items }
        ensures fits { length (base self.now).plain.items ≤ (base self.now).capacity };

    /// How many items are queued.
    fn len(&self) -> usize
        ensures { result ≡ length (base self.now).plain.items };

    /// The queued item of an id; None exactly where the id isn't queued.
    fn get(&self, id: u32) -> Option<Item>
        ensures { result ≡ item_of id (base self.now).plain.items };

    /// The least wheel expiry, in jiffies; None exactly where nothing is queued.
    fn first(&self) -> Option<u64>
        ensures least { result ≡ least (base self.now).plain.items }
        ensures bounds { IfSome result (λ first. NoneSooner first (base self.now).plain.items) };

    /// Brings the clock up to a time before a timer is added at it, but not past a queued wheel
    /// expiry that isn't past that time (the kernel's `forward_timer_base`). In the middle of a
    /// drain, where the clock is one past the expiry that is drained, forwarding to a later time
    /// sets it back by that one, as the kernel doesn't; who drains whole never sees it.
    fn forward(&mut self, now: u64)
        ensures base { base self.new ≡ on_plain (forwarded now) (base self.old) }
        ensures none_behind { NoneBehind (base self.old).plain → NoneBehind (base self.new).plain }
        ensures clock { (base self.new).plain.clock ≤ max (base self.old).plain.clock now };

    /// Queues a timer that isn't queued, at the end of the arming order, and answers its item (the
    /// kernel's `internal_add_timer`: `calc_wheel_index` and `enqueue_timer`). Its asked expiry and
    /// the clock are below 2^47 jiffies, and no queued wheel expiry is below the clock.
    fn add(&mut self, id: u32, expires: u64, job: u8, arg: u32) -> Item
        requires room { length (base self.old).plain.items < (base self.old).capacity }
        requires not_queued { item_of id (base self.old).plain.items ≡ None }
        requires expires_in_time { expires < 2 ^ 47 }
        requires clock_in_time { (base self.old).plain.clock < 2 ^ 47 }
        requires none_behind { NoneBehind (base self.old).plain }
        ensures item { result ≡ item_added (base self.old).plain.clock id expires job arg }
        ensures base { base self.new ≡ on_plain (added id expires job arg) (base self.old) }
        ensures none_behind { NoneBehind (base self.new).plain }
        ensures clock { (base self.new).plain.clock ≡ (base self.old).plain.clock }
        ensures keeps_time { KeepsTime expires (base self.old).plain.clock };

    /// Takes the item of an id out, and answers it (the kernel's `timer_delete`); None, with
    /// nothing changed, exactly where the id isn't queued.
    fn remove(&mut self, id: u32) -> Option<Item>
        ensures item { result ≡ item_of id (base self.old).plain.items }
        ensures base { base self.new ≡ on_plain (removed id) (base self.old) }
        ensures none { IfNone result (base self.new ≡ base self.old) }
        ensures gone { item_of id (base self.new).plain.items ≡ None }
        ensures one_fewer { OnSome result (OneFewer (base self.old).plain (base self.new).plain) }
        ensures none_behind { NoneBehind (base self.old).plain → NoneBehind (base self.new).plain }
        ensures clock { (base self.new).plain.clock ≡ (base self.old).plain.clock };

    /// The item that `take_next` would take out; None exactly where none is due.
    fn peek_next(&self, now: u64) -> Option<Item>
        ensures item { result ≡ next_out now (base self.now).plain }
        ensures due { OutIsDue now (base self.now).plain.items result };

    /// The id of the first item in arming order; None exactly where nothing is queued.
    fn oldest(&self) -> Option<u32>
        ensures { result ≡ oldest_of (base self.now).plain.items };

    /// Takes out the next item that goes out at a time, and puts the clock past its wheel expiry;
    /// None, with nothing changed, exactly where none is due. It is the kernel's `__run_timers`,
    /// one timer at a time: there `collect_expired_timers` brings the clock to the wheel expiry,
    /// `__run_timers` puts it one past that, and `expire_timers` goes from the highest level down.
    fn take_next(&mut self, now: u64) -> Option<Item>
        ensures item { result ≡ next_out now (base self.old).plain }
        ensures due { OutIsDue now (base self.old).plain.items result }
        ensures base { base self.new ≡ on_plain (taken now) (base self.old) }
        ensures none { IfNone result (base self.new ≡ base self.old) }
        ensures gone { IfSome result (λ item. item_of item.id (base self.new).plain.items ≡ None) }
        ensures one_fewer { OnSome result (OneFewer (base self.old).plain (base self.new).plain) }
        ensures none_behind { IfNone result
            ((base self.new).plain.clock ≤ now + 1 → NoneBehind (base self.new).plain) }
        ensures clock { (base self.new).plain.clock ≤ max (base self.old).plain.clock (now + 1) };

    /// Takes memory for `n` more items than are queued, where there is less. Want of memory leaves
    /// all as before.
    fn reserve(&mut self, n: usize) -> Result<(), NoRoom>
        ensures enough { length (base self.old).plain.items + n ≤ (base self.old).capacity
            → IsOk result }
        ensures ok { OnOk result (base self.new ≡ reserved n (base self.old)) }
        ensures err { OnErr result (base self.new ≡ base self.old) };
}
