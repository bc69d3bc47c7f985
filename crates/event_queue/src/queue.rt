//! The queue of a group.

ghost use Rattle.std.specs.Prelude.{◌≡◌, ◌<◌, Option, Some, None, IfSome, IfNone};
ghost use Rattle.std.specs.Prelude.{slice_set, replicate};
ghost use Rattle.std.specs.Option.{option_map};
ghost use Rattle.event_queue.specs.Search.{Picks, earlier_of};
ghost use Rattle.event_queue.specs.EventMap.{EventMap, FitsWord, IsEventMap, ChangesOnly};
ghost use Rattle.event_queue.specs.EventMap.{NoEvents, IsFirst, NoneFits, IsTakenUp, Counts};
ghost use Rattle.event_queue.specs.EventMap.{as_ignored, marked_slot, event_at};

use crate::Event;
use std::marker::Model;
use tm_base::{CpuSet, Jiffy};

/// The events of a group's eight children, 0 to 7, each with its expiry below 2^48 and its CPU
/// below 1,024 (the kernel's `tmigr_group.events`). No call takes memory.
#[derive(Clone, Copy, Debug, PartialEq, Eq)]
pub struct Events {
    slots: [Option<Event>; 8],
}

impl Model for Events {
    ghost Value = { EventMap };

    ghost view = { λ s. s.slots };

    ghost invariant = { λ s. IsEventMap s.slots };

    ghost inverse = { λ q. record { slots = q } };
}

impl Events {
    /// Eight empty slots.
    pub fn new() -> Events
        ensures exact { result ≡ replicate 8 None }
        ensures empty { NoEvents result }
        ensures whole { IsEventMap result }
    {
        Events { slots: [None; 8] }
    }

    /// Puts an event into the slot of a child, over the one that was there.
    pub fn set(&mut self, child: u8, event: Event)
        requires a_child { child < 8 }
        requires fits { FitsWord event }
        ensures exact { self.new ≡ slice_set self.old child (Some event) }
        ensures changes { ChangesOnly self.old self.new child (Some event) }
        ensures whole { IsEventMap self.new }
    {
        self.slots[child as usize] = Some(event);
    }

    /// Empties the slot of a child.
    pub fn clear(&mut self, child: u8)
        requires { child < 8 }
        ensures exact { self.new ≡ slice_set self.old child None }
        ensures changes { ChangesOnly self.old self.new child None }
        ensures whole { IsEventMap self.new }
    {
        self.slots[child as usize] = None;
    }

    /// Marks the event of a child as ignored, where there is one; an empty slot stays empty.
    pub fn mark(&mut self, child: u8)
        requires { child < 8 }
        ensures exact { self.new ≡ slice_set self.old child (marked_slot self.old child) }
        ensures changes { ChangesOnly self.old self.new child (marked_slot self.old child) }
        ensures whole { IsEventMap self.new }
    {
        let slot = self.slots[child as usize];
        self.slots[child as usize] = marked(slot);
    }

    /// The event of a child, or None where its slot is empty.
    pub fn get(&self, child: u8) -> Option<Event>
        requires { child < 8 }
        ensures exact { result ≡ event_at self.now child }
        ensures whole { IsEventMap self.now }
    {
        self.slots[child as usize]
    }

    /// The first event that isn't ignored, with its child (`tmigr_next_groupevt`, which also takes
    /// ignored events from the head): the one of the least expiry, and among equal expiries that of
    /// the lowest child. None exactly where there is no such event.
    pub fn first(&self) -> Option<(u8, Event)>
        ensures found { IfSome result (λ f. IsFirst Counts self.now f.0 f.1) }
        ensures child { IfSome result (λ f. f.0 < 8) }
        ensures none { IfNone result (NoneFits Counts self.now) }
    {
        let mut best = None;
        for child in 0..8 {
            best = earlier(best, child, counting(self.slots[child as usize]));
        }
        best
    }

    /// The event that a look at `now` tries next, with its child, in the place of the kernel's
    /// `tmigr_next_expired_groupevt`, which takes the event out and knows of no CPUs tried: of the
    /// events that aren't ignored and not later than `now`, and whose CPU isn't in `tried`, the one
    /// of the least expiry, and among equal expiries that of the lowest child. None exactly where
    /// there is no such event.
    pub fn due(&self, now: Jiffy, tried: &CpuSet) -> Option<(u8, Event)>
        ensures found { IfSome result (λ f. IsFirst (IsTakenUp now tried.now) self.now f.0 f.1) }
        ensures child { IfSome result (λ f. f.0 < 8) }
        ensures none { IfNone result (NoneFits (IsTakenUp now tried.now) self.now) }
    {
        let mut best = None;
        for child in 0..8 {
            best = earlier(best, child, due_in(self.slots[child as usize], now, tried));
        }
        best
    }
}

/// The slot's event where it isn't ignored.
fn counting(slot: Option<Event>) -> Option<Event>
    ensures { Picks Counts slot result }
{
    match slot {
        Some(event) if !event.ignored => Some(event),
        _ => None,
    }
}

/// The slot's event where a look at `now` takes it up.
fn due_in(slot: Option<Event>, now: Jiffy, tried: &CpuSet) -> Option<Event>
    ensures { Picks (IsTakenUp now tried.now) slot result }
{
    let Some(event) = counting(slot) else {
        return None;
    };
    if event.expiry <= now && !tried.has(event.cpu) {
        Some(event)
    } else {
        None
    }
}

/// The first so far, after a look at an event of this child, which is higher than those before.
fn earlier(best: Option<(u8, Event)>, child: u8, event: Option<Event>) -> Option<(u8, Event)>
    ensures { result ≡ earlier_of best child event }
{
    let Some(event) = event else {
        return best;
    };
    match best {
        Some((_, found)) if found.expiry <= event.expiry => best,
        _ => Some((child, event)),
    }
}

/// The slot with its event marked as ignored.
fn marked(slot: Option<Event>) -> Option<Event>
    ensures { result ≡ option_map as_ignored slot }
{
    match slot {
        Some(event) => Some(Event {
            ignored: true,
            ..event
        }),
        None => None,
    }
}
