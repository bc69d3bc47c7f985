//! A timer into the wheel and into a slot, and out of both.

ghost use Rattle.std.specs.Prelude.{◌≡◌, ℕ, ◌+◌, ◌-◌, ◌^◌, ◌<◌, ◌≤◌, None, Some, length};
ghost use Rattle.slab.specs.Slab.{HasRoomFor, Updates, get, slab_len};
ghost use Rattle.wheel_core.specs.PlainBase.{NoneBehind, NoneSooner, added, item_of, on_plain};
ghost use Rattle.wheel_core.specs.WheelExpiry.{KeepsTime, wheel_expiry_of};
ghost use Rattle.timer_queue.specs.Kept.{HasSlot, filed};

use crate::timer::{LAST_TICK, Timer};
use slab::Slab;
use wheel_base::WheelBase;
use wheel_core::{TimerBase, wheel_expiry};

/// Puts a timer into a vacant slot and the wheel, and answers the slot. Its moment is what the
/// wheel gives.
#[inline(always)]
pub(crate) fn file<T>(wheel: &mut WheelBase, timers: &mut Slab<Timer<T>>, timer: Timer<T>) -> u32
    requires room { HasRoomFor timers.old 1 }
    requires slots { HasSlot timers.old }
    requires wheel_room { length wheel.old.plain.items < wheel.old.capacity }
    requires vacant { (slot : ℕ) → get timers.old slot ≡ None
        → item_of slot wheel.old.plain.items ≡ None }
    requires expires { timer.expires ≤ LAST_TICK }
    requires clock { wheel.old.plain.clock ≤ LAST_TICK + 1 }
    requires started { 1 ≤ wheel.old.plain.clock }
    requires behind { NoneBehind wheel.old.plain }
    ensures slot { result ≡ timers.old.vacant_key }
    ensures was_vacant { get timers.old result ≡ None }
    ensures wheel { wheel.new ≡ on_plain (added result timer.expires 0 0) wheel.old }
    ensures behind { NoneBehind wheel.new.plain }
    ensures updates { Updates timers.old timers.new result
        (Some (filed wheel.old.plain.clock timer)) }
    ensures len { slab_len timers.new ≡ slab_len timers.old + 1 }
    ensures capacity { timers.new.capacity ≡ timers.old.capacity }
    ensures keeps_time { KeepsTime timer.expires wheel.old.plain.clock }
{
    let expires = timer.expires;
    let (moment, _) = wheel_expiry(expires, wheel.clock());
    let Timer {
        number,
        armed,
        value,
        ..
    } = timer;
    let slot = timers.insert_reserved(Timer {
        number,
        expires,
        armed,
        moment: moment - 1,
        value,
    }) as u32;
    wheel.add(slot, expires, 0, 0);
    slot
}

/// Brings the clock back to the least wheel expiry, where that is behind.
#[inline(always)]
pub(crate) fn settle(wheel: &mut WheelBase)
    requires in_time { wheel.old.plain.clock < 2 ^ 64 - 1 }
    ensures items { wheel.new.plain.items ≡ wheel.old.plain.items }
    ensures capacity { wheel.new.capacity ≡ wheel.old.capacity }
    ensures behind { NoneBehind wheel.new.plain }
    ensures clock { wheel.new.plain.clock ≤ wheel.old.plain.clock }
    ensures from { (low : ℕ) → low ≤ wheel.old.plain.clock
        → NoneSooner low wheel.old.plain.items → low ≤ wheel.new.plain.clock }
{
    let clock = wheel.clock();
    let Some(first) = wheel.first() else {
        return;
    };
    if first < clock {
        wheel.forward(clock + 1);
    }
}
