//! Three bases, by class.

ghost use Rattle.std.specs.Prelude.{◌≡◌, ℕ, ◌<◌, ◌≤◌, [], None, IsOk, OnOk, OnSome, length};
ghost use Rattle.wheel_core.specs.WheelExpiry.{KeepsTime};
ghost use Rattle.wheel_core.specs.PlainBase.{NoneBehind, OneFewer, OutIsDue, added, forwarded};
ghost use Rattle.wheel_core.specs.PlainBase.{item_of, next_out, on_plain, item_added, taken};
ghost use Rattle.cpu_bases.specs.ByClass.{of_class};
ghost use Rattle.cpu_bases.specs.CpuBases.{class_in, found_in, most_queued, oldest_in};
ghost use Rattle.cpu_bases.specs.Trio.{HasCapacity, on_class, plain_of, plains, without_found};
ghost use Rattle.cpu_bases.specs.Trio.{without_item, without_oldest};

use std::marker::Model;
use tm_base::{Class, Jiffy, NoMemory, TIME_LIMIT};
use wheel_core::{Item, TimerBase};

/// A base for each class.
#[derive(Drop)]
pub(crate) struct Trio<B: TimerBase> {
    pinned: B,
    global: B,
    deferrable: B,
}

impl<B: TimerBase> Model for Trio<B> {
    ghost use Rattle.wheel_core.specs.PlainBase.{RoomyBase};
    ghost use Rattle.cpu_bases.specs.ByClass.{ByClass};

    ghost Value = { ByClass RoomyBase };

    ghost view = { (λ t. record {
      pinned = B.base t.pinned;
      global = B.base t.global;
      deferrable = B.base t.deferrable;
    }) };
}

/// Forwards a base to a time, and adds a timer to it.
fn queue_in<B: TimerBase>(
    base: &mut B,
    time: Jiffy,
    id: u32,
    expires: Jiffy,
    job: u8,
    arg: u32,
) -> Item
    requires room { length (B.base base.old).plain.items < (B.base base.old).capacity }
    requires not_queued { item_of id (B.base base.old).plain.items ≡ None }
    requires expires_in_time { expires < TIME_LIMIT }
    requires clock_in_time { (B.base base.old).plain.clock < TIME_LIMIT }
    requires time_in_time { time < TIME_LIMIT }
    requires none_behind { NoneBehind (B.base base.old).plain }
    ensures item { result
        ≡ item_added (forwarded time (B.base base.old).plain).clock id expires job arg }
    ensures keeps_time { KeepsTime expires (forwarded time (B.base base.old).plain).clock }
    ensures base { B.base base.new
        ≡ on_plain (λ b. added id expires job arg (forwarded time b)) (B.base base.old) }
{
    base.forward(time);
    base.add(id, expires, job, arg)
}

/// Takes the first item in arming order out of a base.
fn take_oldest_of<B: TimerBase>(base: &mut B) -> Option<Item>
    ensures item { result ≡ oldest_in (B.base base.old).plain.items }
    ensures base { B.base base.new ≡ without_oldest result (B.base base.old) }
{
    let id = base.oldest()?;
    base.remove(id)
}

/// Takes memory so that a base has it for `timers` timers in all.
fn make_room_in<B: TimerBase>(base: &mut B, timers: usize) -> Result<(), NoMemory>
    ensures enough { timers ≤ (B.base base.old).capacity → IsOk result }
    ensures ok { OnOk result (timers ≤ (B.base base.new).capacity) }
    ensures plain { (B.base base.new).plain ≡ (B.base base.old).plain }
    ensures grows { (B.base base.old).capacity ≤ (B.base base.new).capacity }
{
    // For its invariant: there is memory for what is queued.
    base.clock();
    let queued = base.len();
    if queued < timers && base.reserve(timers - queued).is_err() {
        return Err(NoMemory);
    }
    Ok(())
}

impl<B: TimerBase> Trio<B> {
    pub(crate) fn new(pinned: B, global: B, deferrable: B) -> Trio<B>
        ensures { result ≡ record {
          pinned = B.base pinned;
          global = B.base global;
          deferrable = B.base deferrable;
        } }
    {
        Trio {
            pinned,
            global,
            deferrable,
        }
    }

    pub(crate) fn base(&self, class: Class) -> &B
        ensures { B.base result.now ≡ of_class class self.now }
    {
        match class {
            Class::Pinned => &self.pinned,
            Class::Global => &self.global,
            Class::Deferrable => &self.deferrable,
        }
    }

    /// The class of a queued timer.
    pub(crate) fn class_of(&self, id: u32) -> Option<Class>
        ensures { result ≡ class_in id (plain_of self.now []) }
    {
        if self.pinned.get(id).is_some() {
            Some(Class::Pinned)
        } else if self.global.get(id).is_some() {
            Some(Class::Global)
        } else if self.deferrable.get(id).is_some() {
            Some(Class::Deferrable)
        } else {
            None
        }
    }

    /// Forwards the base of a class to a time, and adds a timer to it.
    pub(crate) fn queue(
        &mut self,
        class: Class,
        time: Jiffy,
        id: u32,
        expires: Jiffy,
        job: u8,
        arg: u32,
    ) -> Item
        requires room { length (of_class class self.old).plain.items
            < (of_class class self.old).capacity }
        requires not_queued { item_of id (of_class class self.old).plain.items ≡ None }
        requires expires_in_time { expires < TIME_LIMIT }
        requires clock_in_time { (of_class class self.old).plain.clock < TIME_LIMIT }
        requires time_in_time { time < TIME_LIMIT }
        requires none_behind { NoneBehind (of_class class self.old).plain }
        ensures item { result
            ≡ item_added (forwarded time (of_class class self.old).plain).clock id expires job arg }
        ensures keeps_time { KeepsTime expires
            (forwarded time (of_class class self.old).plain).clock }
        ensures after { self.new
            ≡ on_class class (λ b. added id expires job arg (forwarded time b)) self.old }
    {
        match class {
            Class::Pinned => queue_in(&mut self.pinned, time, id, expires, job, arg),
            Class::Global => queue_in(&mut self.global, time, id, expires, job, arg),
            Class::Deferrable => queue_in(&mut self.deferrable, time, id, expires, job, arg),
        }
    }

    /// Takes a timer out of the base that it is in.
    pub(crate) fn take_out(&mut self, id: u32) -> Option<(Class, Item)>
        ensures found { result ≡ found_in id (plain_of self.old []) }
        ensures after { self.new ≡ without_found id result self.old }
    {
        if let Some(item) = self.pinned.remove(id) {
            return Some((Class::Pinned, item));
        }
        if let Some(item) = self.global.remove(id) {
            return Some((Class::Global, item));
        }
        match self.deferrable.remove(id) {
            Some(item) => Some((Class::Deferrable, item)),
            None => None,
        }
    }

    /// Takes out the next timer of a class that is due.
    #[inline(always)]
    pub(crate) fn take_next(&mut self, class: Class, now: Jiffy) -> Option<Item>
        ensures item { result ≡ next_out now (of_class class self.old).plain }
        ensures due { OutIsDue now (of_class class self.old).plain.items result }
        ensures after { self.new ≡ on_class class (taken now) self.old }
        ensures one_fewer { OnSome result
            (OneFewer (of_class class self.old).plain (of_class class self.new).plain) }
    {
        match class {
            Class::Pinned => self.pinned.take_next(now),
            Class::Global => self.global.take_next(now),
            Class::Deferrable => self.deferrable.take_next(now),
        }
    }

    /// Takes out the first timer of a class in arming order.
    pub(crate) fn take_oldest(&mut self, class: Class) -> Option<Item>
        ensures item { result ≡ oldest_in (of_class class self.old).plain.items }
        ensures after { self.new ≡ without_item class result self.old }
    {
        match class {
            Class::Pinned => take_oldest_of(&mut self.pinned),
            Class::Global => take_oldest_of(&mut self.global),
            Class::Deferrable => take_oldest_of(&mut self.deferrable),
        }
    }

    /// How many timers the fullest base has.
    pub(crate) fn most_queued(&self) -> usize
        ensures { result ≡ most_queued (plains self.now) }
    {
        self.pinned
            .len()
            .max(self.global.len().max(self.deferrable.len()))
    }

    /// Takes memory so that each base has it for `timers` timers in all. After want of memory some
    /// of it may have been taken.
    pub(crate) fn make_room(&mut self, timers: usize) -> Result<(), NoMemory>
        ensures enough { HasCapacity timers self.old → IsOk result }
        ensures ok { OnOk result (HasCapacity timers self.new) }
        ensures plain { plains self.new ≡ plains self.old }
        ensures grows { (n : ℕ) → HasCapacity n self.old → HasCapacity n self.new }
    {
        make_room_in(&mut self.pinned, timers)?;
        make_room_in(&mut self.global, timers)?;
        make_room_in(&mut self.deferrable, timers)
    }
}
