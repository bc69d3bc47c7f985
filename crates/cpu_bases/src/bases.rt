//! The bases of a CPU.

ghost use Rattle.std.specs.Prelude.{◌≡◌, ◌+◌, ◌-◌, ◌^◌, ◌<◌, ◌≤◌, [], None, IsOk, OnOk, OnErr};
ghost use Rattle.std.specs.Prelude.{IfNone, OnSome, length};
ghost use Rattle.wheel_core.specs.WheelExpiry.{KeepsTime};
ghost use Rattle.wheel_core.specs.PlainBase.{NoneBehind, NoneSooner, OneFewer, OutIsDue, forwarded};
ghost use Rattle.wheel_core.specs.PlainBase.{next_out};
ghost use Rattle.cpu_bases.specs.CpuBases.{HasRoom, IsConsistent, NotAhead, armed, base_of};
ghost use Rattle.cpu_bases.specs.CpuBases.{cancelled};
ghost use Rattle.cpu_bases.specs.CpuBases.{class_in, entry_of, events_of, first_expiry, handed_out};
ghost use Rattle.cpu_bases.specs.CpuBases.{item_in, item_queued, moved_in, moved_out, oldest_in};
ghost use Rattle.cpu_bases.specs.CpuBases.{on_bases, ticked_entry, with_room};
ghost use Rattle.cpu_bases.specs.Laws.{HandsOut, CallKeeps};

use crate::trio::Trio;
use crate::{Act, Entry, Journal, NextEvents};
use std::alloc::Global;
use std::marker::Model;
use tm_base::{Class, CpuId, Jiffy, NEVER, NoMemory, TIME_LIMIT, TimerId};
use wheel_core::{Item, TimerBase};

/// The timers of a CPU: a base for each class of timers, and the journal of what was done to them
/// (the kernel's `timer_bases` of a CPU).
///
/// The bases always agree with the journal, and the journal is legal as long as each call is given
/// a time that isn't before the last and pinned and deferrable timers are handed out by the CPU
/// itself. No call but `reserve` takes memory. Each `now` is below [`TIME_LIMIT`] - 1 jiffies.
#[derive(Drop)]
pub struct Bases<B: TimerBase> {
    trio: Trio<B>,
    timers: usize,
    journal: Journal,
}

impl<B: TimerBase> Model for Bases<B> {
    ghost use Rattle.cpu_bases.specs.CpuBases.{RoomyBases};
    ghost use Rattle.cpu_bases.specs.Trio.{IsKept, plain_of};

    ghost Value = { RoomyBases };

    ghost view = { (λ b. record {
      plain = plain_of b.trio b.journal.entries;
      room = record { timers = b.timers; entries = b.journal.capacity };
    }) };

    ghost invariant = { λ b. IsKept b.trio b.journal.entries b.timers };
}

/// What an act on an item is written as.
fn entry_for(act: Act, line: u32, at: Jiffy, class: Class, item: &Item, by: CpuId) -> Entry
    requires { item.now.id < 2 ^ 16 }
    ensures { result ≡ entry_of act line at class item.now by }
{
    Entry {
        act,
        line,
        at,
        timer: TimerId(item.id as u16),
        class,
        expires: item.expires,
        wheel: item.wheel,
        job: item.job,
        arg: item.arg,
        by,
    }
}

/// What a drain is written as.
fn ticked(at: Jiffy, class: Class, by: CpuId) -> Entry
    ensures { result ≡ ticked_entry at class by }
{
    Entry {
        act: Act::Ticked,
        line: 0,
        at,
        timer: TimerId(0),
        class,
        expires: 0,
        wheel: at,
        job: 0,
        arg: 0,
        by,
    }
}

impl<B: TimerBase> Bases<B> {
    /// Three empty bases whose clocks are below 2^47, with an empty journal.
    pub fn with(alloc: Global, pinned: B, global: B, deferrable: B) -> Bases<B>
        requires pinned_empty { (B.base pinned).plain.items ≡ [] }
        requires global_empty { (B.base global).plain.items ≡ [] }
        requires deferrable_empty { (B.base deferrable).plain.items ≡ [] }
        requires pinned_in_time { (B.base pinned).plain.clock < TIME_LIMIT }
        requires global_in_time { (B.base global).plain.clock < TIME_LIMIT }
        requires deferrable_in_time { (B.base deferrable).plain.clock < TIME_LIMIT }
        ensures bases { result.plain.bases ≡ record {
          pinned = (B.base pinned).plain;
          global = (B.base global).plain;
          deferrable = (B.base deferrable).plain;
        } }
        ensures journal { result.plain.journal ≡ [] }
        ensures room { result.room ≡ record { timers = 0; entries = 0 } }
    {
        Bases {
            trio: Trio::new(pinned, global, deferrable),
            timers: 0,
            journal: Journal::new(alloc),
        }
    }

    /// Takes memory for so many more timers in each base and so many more entries, where there is
    /// less. Want of memory leaves all as before: no more room counts than did.
    #[inline(always)]
    pub fn reserve(&mut self, timers: usize, entries: usize) -> Result<(), NoMemory>
        ensures enough { HasRoom timers entries self.old → IsOk result }
        ensures ok { OnOk result (self.new ≡ with_room timers entries self.old) }
        ensures err { OnErr result (self.new ≡ self.old) }
    {
        let Some(wanted) = self.trio.most_queued().checked_add(timers) else {
            return Err(NoMemory);
        };
        // Mostly there is room, and then no base is asked for it.
        if self.timers < wanted {
            self.trio.make_room(wanted)?;
        }
        self.journal.reserve(entries)?;
        self.timers = self.timers.max(wanted);
        Ok(())
    }

    /// Arms a timer that isn't queued here: forwards the base of its class to now, adds it with its
    /// asked expiry, and answers its wheel expiry. `line` is the script line, 0 where a job armed
    /// it. In the kernel arming a queued timer changes it (`mod_timer`).
    pub fn arm(
        &mut self,
        now: Jiffy,
        class: Class,
        timer: TimerId,
        expires: Jiffy,
        job: u8,
        arg: u32,
        line: u32,
        by: CpuId,
    ) -> Jiffy
        requires now_in_time { now < TIME_LIMIT - 1 }
        requires expires_in_time { expires < TIME_LIMIT }
        requires room { length (base_of class self.old.plain).items < self.old.room.timers }
        requires entry_room { length self.old.plain.journal < self.old.room.entries }
        requires not_queued { class_in timer.0 self.old.plain ≡ None }
        requires none_behind { NoneBehind (base_of class self.old.plain) }
        ensures wheel { result
            ≡ (item_queued now class timer.0 expires job arg self.old.plain).wheel }
        ensures keeps_time { KeepsTime expires
            (forwarded now (base_of class self.old.plain)).clock }
        ensures after { self.new
            ≡ on_bases (armed now class timer.0 expires job arg line by) self.old }
        ensures keeps { CallKeeps now self.old.plain self.new.plain }
    {
        let id = u32::from(timer.0);
        let item = self.trio.queue(class, now, id, expires, job, arg);
        self.journal
            .write(entry_for(Act::Armed, line, now, class, &item, by));
        item.wheel
    }

    /// Cancels a timer, and answers its item (the kernel's `timer_delete`); None, with nothing
    /// changed, exactly where it isn't queued here.
    pub fn cancel(&mut self, now: Jiffy, timer: TimerId, line: u32, by: CpuId) -> Option<Item>
        requires now_in_time { now < TIME_LIMIT - 1 }
        requires entry_room { length self.old.plain.journal < self.old.room.entries }
        ensures item { result ≡ item_in timer.0 self.old.plain }
        ensures gone { class_in timer.0 self.new.plain ≡ None }
        ensures after { self.new ≡ on_bases (cancelled now timer.0 line by) self.old }
        ensures keeps { CallKeeps now self.old.plain self.new.plain }
    {
        let Some((class, item)) = self.trio.take_out(u32::from(timer.0)) else {
            return None;
        };
        self.journal
            .write(entry_for(Act::Cancelled, line, now, class, &item, by));
        Some(item)
    }

    /// Takes out the next timer of a class that is due, for its job to run; or, exactly where none
    /// is due, answers None and writes that the base was drained (the kernel's `__run_timers`; of
    /// the global base by another CPU `timer_expire_remote`).
    #[inline(always)]
    pub fn take_due(&mut self, now: Jiffy, class: Class, by: CpuId) -> Option<Item>
        requires now_in_time { now < TIME_LIMIT - 1 }
        requires entry_room { length self.old.plain.journal < self.old.room.entries }
        ensures item { result ≡ next_out now (base_of class self.old.plain) }
        ensures due { OutIsDue now (base_of class self.old.plain).items result }
        ensures one_fewer { OnSome result
            (OneFewer (base_of class self.old.plain) (base_of class self.new.plain)) }
        ensures none_behind { IfNone result (NotAhead now (base_of class self.old.plain)
            → NoneBehind (base_of class self.new.plain)) }
        ensures after { self.new ≡ on_bases (handed_out now class by) self.old }
        ensures keeps { HandsOut now class by.0 self.old.plain self.new.plain }
    {
        let Some(item) = self.trio.take_next(class, now) else {
            self.journal.write(ticked(now, class, by));
            return None;
        };
        self.journal
            .write(entry_for(Act::Handed, 0, now, class, &item, by));
        Some(item)
    }

    /// Takes the first timer of a class in arming order out, for another CPU, in the place of the
    /// kernel's `migrate_timer_list`, which goes by buckets; None, with nothing changed, exactly
    /// where that base is empty.
    pub fn move_out(&mut self, now: Jiffy, class: Class, by: CpuId) -> Option<Item>
        requires now_in_time { now < TIME_LIMIT - 1 }
        requires entry_room { length self.old.plain.journal < self.old.room.entries }
        ensures item { result ≡ oldest_in (base_of class self.old.plain).items }
        ensures one_fewer { OnSome result
            (OneFewer (base_of class self.old.plain) (base_of class self.new.plain)) }
        ensures after { self.new ≡ on_bases (moved_out now class by) self.old }
        ensures keeps { CallKeeps now self.old.plain self.new.plain }
    {
        let Some(item) = self.trio.take_oldest(class) else {
            return None;
        };
        self.journal
            .write(entry_for(Act::MovedOut, 0, now, class, &item, by));
        Some(item)
    }

    /// Takes a timer in that another CPU moved out: forwards the base of its class to the next
    /// jiffy, adds it with its old asked expiry, and answers its wheel expiry. The kernel's
    /// `timers_dead_cpu` forwards to the present jiffy.
    pub fn move_in(
        &mut self,
        now: Jiffy,
        class: Class,
        timer: TimerId,
        expires: Jiffy,
        job: u8,
        arg: u32,
        by: CpuId,
    ) -> Jiffy
        requires now_in_time { now < TIME_LIMIT - 1 }
        requires expires_in_time { expires < TIME_LIMIT }
        requires room { length (base_of class self.old.plain).items < self.old.room.timers }
        requires entry_room { length self.old.plain.journal < self.old.room.entries }
        requires not_queued { class_in timer.0 self.old.plain ≡ None }
        requires none_behind { NoneBehind (base_of class self.old.plain) }
        ensures wheel { result
            ≡ (item_queued (now + 1) class timer.0 expires job arg self.old.plain).wheel }
        ensures keeps_time { KeepsTime expires
            (forwarded (now + 1) (base_of class self.old.plain)).clock }
        ensures after { self.new
            ≡ on_bases (moved_in now class timer.0 expires job arg by) self.old }
        ensures keeps { CallKeeps now self.old.plain self.new.plain }
    {
        let id = u32::from(timer.0);
        let item = self.trio.queue(class, now + 1, id, expires, job, arg);
        self.journal
            .write(entry_for(Act::MovedIn, 0, now, class, &item, by));
        item.wheel
    }

    /// The first events, by the pinned and the global base alone (the kernel's
    /// `fetch_next_timer_interrupt`).
    pub fn next(&self) -> NextEvents
        ensures events { result ≡ events_of self.now.plain }
        ensures pin { NoneSooner result.pin (base_of Class.Pinned self.now.plain).items }
        ensures first_global { NoneSooner result.first_global
            (base_of Class.Global self.now.plain).items }
    {
        let pin = self.first(Class::Pinned);
        let first_global = self.first(Class::Global);
        NextEvents {
            pin,
            first_global,
            next: if first_global < pin {
                first_global
            } else {
                NEVER
            },
        }
    }

    /// The least wheel expiry of a class; `NEVER` where nothing of it is queued.
    fn first(&self, class: Class) -> Jiffy
        ensures first { result ≡ first_expiry class self.now.plain }
        ensures bounds { NoneSooner result (base_of class self.now.plain).items }
    {
        self.base(class).first().unwrap_or(NEVER)
    }

    /// The journal.
    pub fn journal(&self) -> &Journal
        ensures entries { result.now.entries ≡ self.now.plain.journal }
        ensures consistent { IsConsistent self.now.plain }
    {
        &self.journal
    }

    /// The base of a class.
    pub fn base(&self, class: Class) -> &B
        ensures base { (B.base result.now).plain ≡ base_of class self.now.plain }
        ensures room { self.now.room.timers ≤ (B.base result.now).capacity }
    {
        self.trio.base(class)
    }

    /// The class of a queued timer; None exactly where it is in none of the bases.
    pub fn where_is(&self, timer: TimerId) -> Option<Class>
        ensures { result ≡ class_in timer.0 self.now.plain }
    {
        self.trio.class_of(u32::from(timer.0))
    }
}
