//! The queue.

ghost use Rattle.std.specs.Prelude.{◌≡◌, ℕ, ◌+◌, ◌-◌, ◌^◌, ◌<◌, ◌≤◌, ◌==◌, min, max, None, Some};
ghost use Rattle.std.specs.Prelude.{[], IfErr, IfNone, IfOk, IfSome, IsOk, OnErr, OnOk, OnSome};
ghost use Rattle.std.specs.Prelude.{is_some, option_map, true};
ghost use Rattle.wheel_core.specs.PlainBase.{NoneBehind};
ghost use Rattle.timer_queue.specs.Queues.{Asked, CanInsert, CanReset, HasMoment, IsEntry};
ghost use Rattle.timer_queue.specs.Queues.{IsLawful, IsReason, IsResetReason, KeptBut, KeptIssued};
ghost use Rattle.timer_queue.specs.Queues.{NoneDue, NoneLate};
ghost use Rattle.timer_queue.specs.Queues.{NoneSooner, NotAfter, asked_of, count, entry, value_of};
ghost use Rattle.timer_queue.specs.Turns.{IsTurned};

use crate::file::{file, settle};
use crate::timer::{LAST_TICK, MOST_TIMERS, Timer};
use crate::{Key, QueueError, Refused};
use slab::Slab;
use std::alloc::Global;
use std::fmt::{self, Debug, Formatter};
use std::marker::Model;
use wheel_base::WheelBase;
use wheel_core::TimerBase;

/// Timers with values of any type, each for a tick that its caller names. A tick is any unit of
/// time, from 0 to [`LAST_TICK`]. To a caller the queue is a map from its keys to the asked ticks
/// and the values, under a clock.
///
/// A timer goes out never before the tick that it asks for. It goes out in that tick where the tick
/// is at most [`EXACT_TICKS`](crate::EXACT_TICKS) ahead of the clock as it is put in, and else
/// later by at most 8 in 63 of the way.
/// No call has a condition, and none but `with_capacity`, `reserve`, and `insert` into a full queue
/// takes memory.
#[derive(Drop)]
pub struct TimerQueue<T> {
    wheel: WheelBase,
    timers: Slab<Timer<T>>,
    issued: u64,
}

impl<T> Model for TimerQueue<T> {
    ghost use Rattle.timer_queue.specs.Queues.{Queue};
    ghost use Rattle.timer_queue.specs.Kept.{KeepsQueue, queue_of};

    ghost Value = { Queue T };

    ghost view = { λ q. queue_of q.wheel q.timers q.issued };

    ghost invariant = { λ q. KeepsQueue q.wheel q.timers q.issued };
}

/// What one turn of the queue gave.
#[derive(Drop)]
pub(crate) enum Turn<T> {
    /// A timer went out: its key, the tick that it asked for, its value.
    Out(Key, u64, T),
    /// A timer for a far tick was put in anew.
    Again,
    /// Nothing is due.
    Nothing,
}

impl<T> TimerQueue<T> {
    /// An empty queue at tick 0 with memory for so many timers. It takes some 5,000 bytes besides.
    /// More than [`MOST_TIMERS`] are refused as want of memory is.
    pub fn with_capacity(alloc: Global, capacity: usize) -> Result<TimerQueue<T>, QueueError>
    where
        T: Drop,
        ensures empty { IfOk result (λ queue. (key : Key) → entry queue key ≡ None) }
        ensures count { IfOk result (λ queue. count queue ≡ 0) }
        ensures clock { IfOk result (λ queue. queue.clock ≡ 0) }
        ensures issued { IfOk result (λ queue. queue.issued ≡ 0) }
        ensures room { IfOk result (λ queue. capacity ≤ queue.room) }
        ensures err { IfErr result (λ error. error ≡ QueueError.NoMemory) }
    {
        let timers = Slab::with_capacity(alloc, capacity)?;
        if timers.capacity() > MOST_TIMERS {
            return Err(QueueError::NoMemory);
        }
        let mut wheel = WheelBase::new(alloc)?;
        wheel.reserve(capacity)?;
        wheel.forward(1);
        Ok(TimerQueue {
            wheel,
            timers,
            issued: 0,
        })
    }

    /// How many timers are queued.
    pub fn len(&self) -> usize
        ensures count { result ≡ count self.now }
        ensures lawful { IsLawful self.now }
    {
        self.timers.len()
    }

    /// Whether no timer is queued.
    pub fn is_empty(&self) -> bool
        ensures counted { result ≡ (count self.now == 0) }
        ensures empty { result ≡ true → (key : Key) → entry self.now key ≡ None }
    {
        self.timers.is_empty()
    }

    /// The queue's clock: the tick that `pop_due` has come to, or the one behind it. It never goes
    /// back. What is put in for an earlier tick goes out at the clock.
    pub fn clock(&self) -> u64
        ensures { result ≡ self.now.clock }
    {
        self.wheel.clock() - 1
    }

    /// Whether a key names a timer.
    pub fn contains(&self, key: Key) -> bool
        ensures { result ≡ is_some (entry self.now key) }
    {
        match self.timers.get(key.slot as usize) {
            Some(timer) => timer.number == key.number,
            None => false,
        }
    }

    /// The tick that a timer asks for; None exactly where the key names no timer.
    pub fn expires(&self, key: Key) -> Option<u64>
        ensures { result ≡ option_map (λ (a : Asked T). a.expires) (entry self.now key) }
    {
        match self.timers.get(key.slot as usize) {
            Some(timer) => {
                if timer.number == key.number {
                    Some(timer.expires)
                } else {
                    None
                }
            }
            None => None,
        }
    }

    /// Takes memory for so many more timers, where there is less. Want of memory leaves all timers
    /// as they were.
    pub fn reserve(&mut self, more: usize) -> Result<(), QueueError>
        ensures ok { OnOk result (count self.old + more ≤ self.new.room) }
        ensures enough { 0 < more → count self.old + more ≤ self.old.room → IsOk result }
        ensures had { 0 < more → count self.old + more ≤ self.old.room → self.new ≡ self.old }
        ensures timers { self.new ≡ record self.old { room = self.new.room } }
        ensures err { IfErr result (λ error. error ≡ QueueError.NoMemory) }
    {
        self.timers.reserve(more)?;
        if self.timers.capacity() > MOST_TIMERS {
            return Err(QueueError::NoMemory);
        }
        self.wheel.reserve(more)?;
        Ok(())
    }

    /// Whether a timer may ask for a tick now.
    fn is_in_reach(&self, expires: u64) -> bool
        ensures can { result ≡ true → CanReset expires self.now }
        ensures cannot { CanReset expires self.now → result ≡ true }
    {
        expires <= LAST_TICK && self.clock() <= LAST_TICK
    }

    /// Makes sure that a timer can be put in.
    fn admit(&mut self, expires: u64) -> Result<(), QueueError>
        ensures ok { OnOk result (CanInsert expires self.new) }
        ensures timers { self.new ≡ record self.old { room = self.new.room } }
        ensures had { CanInsert expires self.old → self.new ≡ self.old }
        ensures accepts { CanInsert expires self.old → IsOk result }
        ensures why { IfErr result (λ error. IsReason error expires self.old) }
    {
        if !self.is_in_reach(expires) {
            return Err(QueueError::PastReach);
        }
        if self.issued == u64::MAX {
            return Err(QueueError::KeysSpent);
        }
        self.reserve(1)
    }

    /// Puts a timer in, and answers its key, which no timer of this queue had or will have. Where
    /// there is no memory or the times are past reach, the value comes back in the error.
    pub fn insert(&mut self, expires: u64, value: T) -> Result<Key, Refused<T>>
        // It is in the map, for the tick and with the value, and the rest of the map is as it was.
        ensures inserted { IfOk result (λ key.
            entry self.new key ≡ Some (asked_of self.old.clock expires value)) }
        ensures others { IfOk result (λ key. KeptBut key self.old self.new) }
        ensures count { OnOk result (count self.new ≡ count self.old + 1) }

        // Its key is new: it named nothing, and each key that was given out before names what it
        // named.
        ensures fresh { IfOk result (λ key. entry self.old key ≡ None) }
        ensures number { IfOk result (λ key. key.number ≡ self.old.issued) }
        ensures stale { KeptIssued self.old self.new }
        ensures issued { OnOk result (self.new.issued ≡ self.old.issued + 1) }
        ensures clock { self.new.clock ≡ self.old.clock }

        // It is refused for one of four reasons, with the value. There is room again after a
        // timer went.
        ensures accepts { CanInsert expires self.old → IsOk result }
        ensures room { CanInsert expires self.old → self.new.room ≡ self.old.room }
        ensures refused { OnErr result (self.new ≡ record self.old { room = self.new.room }) }
        ensures value_back { IfErr result (λ refused. refused.value ≡ value) }
        ensures why { IfErr result (λ refused. IsReason refused.error expires self.old) }
    {
        if let Err(error) = self.admit(expires) {
            return Err(Refused { value, error });
        }
        Ok(self.put(expires, value))
    }

    /// Puts a timer in, where one can be.
    fn put(&mut self, expires: u64, value: T) -> Key
        requires { CanInsert expires self.old }
        ensures inserted { entry self.new result ≡ Some (asked_of self.old.clock expires value) }
        ensures others { KeptBut result self.old self.new }
        ensures count { count self.new ≡ count self.old + 1 }
        ensures fresh { entry self.old result ≡ None }
        ensures number { result.number ≡ self.old.issued }
        ensures issued { self.new.issued ≡ self.old.issued + 1 }
        ensures clock { self.new.clock ≡ self.old.clock }
        ensures room { self.new.room ≡ self.old.room }
        ensures stale { KeptIssued self.old self.new }
    {
        let timer = Timer {
            number: self.issued,
            expires,
            armed: self.clock(),
            moment: 0,
            value,
        };
        let slot = file(&mut self.wheel, &mut self.timers, timer);
        let number = self.issued;
        self.issued = number + 1;
        Key { slot, number }
    }

    /// Takes the timer of a key out, and answers its value; None, with nothing changed, exactly
    /// where the key names none.
    pub fn cancel(&mut self, key: Key) -> Option<T>
        ensures value { result ≡ value_of (entry self.old key) }
        ensures gone { entry self.new key ≡ None }
        ensures others { KeptBut key self.old self.new }
        ensures none { IfNone result (self.new ≡ self.old) }
        ensures count { OnSome result (count self.new + 1 ≡ count self.old) }
        ensures clock { self.new.clock ≡ self.old.clock }
        ensures issued { self.new.issued ≡ self.old.issued }
        ensures room { self.new.room ≡ self.old.room }
    {
        if !self.contains(key) {
            return None;
        }
        self.wheel.remove(key.slot);
        let timer = self.timers.remove(key.slot as usize);
        Some(timer.value)
    }

    /// Has a timer ask for another tick, as if it were put in now, under the same key with the same
    /// value. It is refused for a key that names no timer and past reach, and then nothing changes.
    pub fn reset(&mut self, key: Key, expires: u64) -> Result<(), QueueError>
        ensures reset { OnOk result (entry self.new key
            ≡ option_map (λ (a : Asked T). asked_of self.old.clock expires a.value)
            (entry self.old key)) }
        ensures was { OnOk result (is_some (entry self.old key) ≡ true) }
        ensures others { KeptBut key self.old self.new }
        ensures count { count self.new ≡ count self.old }
        ensures clock { self.new.clock ≡ self.old.clock }
        ensures issued { self.new.issued ≡ self.old.issued }
        ensures room { self.new.room ≡ self.old.room }
        ensures accepts { is_some (entry self.old key) ≡ true → CanReset expires self.old
            → IsOk result }
        ensures refused { OnErr result (self.new ≡ self.old) }
        ensures why { IfErr result (λ error. IsResetReason error key expires self.old) }
    {
        if !self.contains(key) {
            return Err(QueueError::NoTimer);
        }
        if !self.is_in_reach(expires) {
            return Err(QueueError::PastReach);
        }
        let armed = self.clock();
        self.wheel.remove(key.slot);
        let gone = self.timers.remove(key.slot as usize);
        let timer = Timer {
            number: gone.number,
            expires,
            armed,
            moment: 0,
            value: gone.value,
        };
        file(&mut self.wheel, &mut self.timers, timer);
        Ok(())
    }

    /// Takes out a timer that is due at a tick, and answers its key, the tick for which it asked,
    /// and its value. None says that no timer is due; the clock is then no earlier than that tick,
    /// or [`LAST_TICK`] where the tick is past it. Who asks again until None has all that is due.
    pub fn pop_due(&mut self, now: u64) -> Option<(Key, u64, T)>
        // It was in the map with that tick and value, and is no longer; the rest is as it was.
        ensures was { IfSome result (λ out. IsEntry self.old out.0 out.1 out.2) }
        ensures gone { IfSome result (λ out. entry self.new out.0 ≡ None) }
        ensures others { IfSome result (λ out. KeptBut out.0 self.old self.new) }
        ensures one_fewer { OnSome result (count self.new + 1 ≡ count self.old) }
        ensures kept { IfNone result ((key : Key) → entry self.new key ≡ entry self.old key) }
        ensures none_fewer { IfNone result (count self.new ≡ count self.old) }

        // Never early; and what stays is not past its latest tick.
        ensures never_early { IfSome result (λ out. out.1 ≤ now) }
        ensures never_late { IfNone result (NoneLate now self.new) }
        ensures none_due { IfNone result (NoneDue now self.new) }

        // In order: what goes out asked for no later than the latest tick of each that stays.
        ensures order { IfSome result (λ out. NoneSooner out.1 self.new) }
        ensures reaches { IfNone result (min now LAST_TICK ≤ self.new.clock) }
        ensures rises { self.old.clock ≤ self.new.clock }
        ensures near { self.new.clock ≤ max self.old.clock (now + 1) }
        ensures issued { self.new.issued ≡ self.old.issued }
        ensures room { self.new.room ≡ self.old.room }
    {
        'turns: loop {
            match self.turn(now) {
                Turn::Out(key, expires, value) => return Some((key, expires, value)),
                Turn::Again => {}
                Turn::Nothing => return None,
            }
        }
    }

    /// Takes the next item out of the wheel. It goes out of the queue too, but where its wheel
    /// expiry is nearer than the asked one: then it is put in anew.
    fn turn(&mut self, now: u64) -> Turn<T>
        ensures { IsTurned now self.old self.new result }
    {
        let Some(item) = self.wheel.take_next(now.saturating_add(1)) else {
            self.wheel.forward(now.min(LAST_TICK) + 1);
            return Turn::Nothing;
        };
        settle(&mut self.wheel);
        let timer = self.timers.remove(item.id as usize);
        if item.wheel <= item.expires {
            file(&mut self.wheel, &mut self.timers, timer);
            return Turn::Again;
        }
        let key = Key {
            slot: item.id,
            number: timer.number,
        };
        Turn::Out(key, timer.expires, timer.value)
    }

    /// The least moment at which `pop_due` has something to do: a tick at most the latest one of
    /// each timer. None exactly where the queue is empty.
    pub fn next_expiry(&self) -> Option<u64>
        ensures none { IfNone result ((key : Key) → entry self.now key ≡ None) }
        ensures some { IfSome result (λ moment. HasMoment self.now moment) }
        ensures in_time { IfSome result (λ moment. NotAfter self.now moment) }
    {
        let Some(first) = self.wheel.first() else {
            return None;
        };
        Some(first - 1)
    }

    /// Lets all timers go. The clock and the memory stay.
    pub fn clear(&mut self)
    where
        T: Drop,
        ensures empty { (key : Key) → entry self.new key ≡ None }
        ensures count { count self.new ≡ 0 }
        ensures clock { self.new.clock ≡ self.old.clock }
        ensures issued { self.new.issued ≡ self.old.issued }
        ensures room { self.new.room ≡ self.old.room }
    {
        empty_wheel(&mut self.wheel);
        self.timers.clear();
    }
}

/// Takes all items out of the wheel.
fn empty_wheel(wheel: &mut WheelBase)
    requires behind { NoneBehind wheel.old.plain }
    ensures items { wheel.new.plain.items ≡ [] }
    ensures clock { wheel.new.plain.clock ≡ wheel.old.plain.clock }
    ensures capacity { wheel.new.capacity ≡ wheel.old.capacity }
{
    while let Some(id) = wheel.oldest() {
        wheel.remove(id);
    }
}

impl<T> Debug for TimerQueue<T> {
    fn fmt<W: fmt::Write>(&self, f: &mut Formatter<W>) -> fmt::Result {
        write!(
            f,
            "TimerQueue {{ len: {}, clock: {} }}",
            self.len(),
            self.clock()
        )
    }
}
