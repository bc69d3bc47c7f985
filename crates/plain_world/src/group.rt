//! One group.

ghost use Rattle.std.specs.Prelude.{◌≡◌, ◌-◌, ◌^◌, ◌<◌, ◌≤◌, is_some};
ghost use Rattle.core_world.specs.event_queue.EventMap.{as_ignored, event_at};
ghost use Rattle.core_world.specs.group_word.State.{lowest_child, migrator_without};
ghost use Rattle.core_world.specs.Start.{start_group};
ghost use Rattle.core_parts.specs.Changes.{changed};
ghost use Rattle.std.specs.Option.{option_map};
ghost use Rattle.walk_rules.specs.Stages.{joined_by, left_by, with_event, with_lock, with_mark};
ghost use Rattle.plain_world.specs.Groups.{IsChildOf};

use core_parts::GroupChange;
use event_queue::Event;
use std::marker::Model;

/// One group: which children are active, which of them is the migrator, whose walk has the lock,
/// and the events of the children (the kernel's `struct tmigr_group`).
#[derive(Clone, Copy, PartialEq, Eq)]
pub struct PlainGroup {
    active: u8,
    migrator: Option<u8>,
    lock: Option<u16>,
    events: [Option<Event>; 8],
}

impl Model for PlainGroup {
    ghost use Rattle.std.specs.Prelude.{◌≡◌, length};
    ghost use Rattle.walk_rules.specs.Scene.{Group};

    ghost Value = { Group };

    ghost view = { λ g.
        record { active = g.active; migrator = g.migrator; lock = g.lock; events = g.events } };

    ghost invariant = { λ g. length g.events ≡ 8 };

    ghost inverse = { λ x.
        record { active = x.active; migrator = x.migrator; lock = x.lock; events = x.events } };
}

/// The set of so many children, at most 8.
fn all_of(children: u8) -> u8
    requires { children ≤ 8 }
    ensures { result ≡ 2 ^ children - 1 }
{
    ((1_u16 << children) - 1) as u8
}

/// The lowest child of a set.
fn lowest(active: u8) -> Option<u8>
    ensures { result ≡ lowest_child active }
{
    if active == 0 {
        None
    } else {
        Some(active.trailing_zeros() as u8)
    }
}

/// The migrator where a child has left, and this set remains.
fn passed_on(migrator: Option<u8>, child: u8, remaining: u8) -> Option<u8>
    ensures { result ≡ migrator_without migrator child remaining }
{
    match migrator {
        Some(migrator) if migrator == child => lowest(remaining),
        _ => migrator,
    }
}

/// A slot with its event marked as ignored.
fn marked(slot: Option<Event>) -> Option<Event>
    ensures { result ≡ option_map as_ignored slot }
{
    match slot {
        Some(event) => Some(Event {
            ignored: true,
            ..event
        }),
        None => None,
    }
}

impl PlainGroup {
    /// A group of at most 8 children, all of them active.
    pub fn new(children: u8) -> PlainGroup
        requires { children ≤ 8 }
        ensures { result ≡ start_group children }
    {
        PlainGroup {
            active: all_of(children),
            migrator: Some(0),
            lock: None,
            events: [None; 8],
        }
    }

    /// The set of the active children: bit k stands for child k.
    pub fn active(&self) -> u8
        ensures { result ≡ self.now.active }
    {
        self.active
    }

    /// The active child that looks after the timers of the idle ones.
    pub fn migrator(&self) -> Option<u8>
        ensures { result ≡ self.now.migrator }
    {
        self.migrator
    }

    /// Whether the group has a migrator.
    pub fn is_on(&self) -> bool
        ensures { result ≡ is_some self.now.migrator }
    {
        self.migrator.is_some()
    }

    /// The number of the CPU whose walk has the lock.
    pub fn lock(&self) -> Option<u16>
        ensures { result ≡ self.now.lock }
    {
        self.lock
    }

    /// The event of a child, None where it has none, and for a number past 7.
    pub fn event(&self, child: u8) -> Option<Event>
        ensures { result ≡ event_at self.now.events child }
    {
        if child < 8 {
            self.events[usize::from(child)]
        } else {
            None
        }
    }

    /// A step of a walk.
    pub(crate) fn change(&mut self, change: GroupChange)
        requires { IsChildOf change }
        ensures { self.new ≡ changed change self.old }
    {
        match change {
            GroupChange::Mark { child } => self.mark(child),
            GroupChange::Join { child } => self.join(child),
            GroupChange::Leave { child, child_on } => self.leave(child, child_on),
            GroupChange::Lock { cpu } => self.set_lock(Some(cpu)),
            GroupChange::Free => self.set_lock(None),
            GroupChange::Store { child, event } => self.store(child, event),
        }
    }

    /// The child joins the active set.
    fn join(&mut self, child: u8)
        requires { child < 8 }
        ensures { self.new ≡ joined_by self.old child }
    {
        self.active |= 1 << child;
        self.migrator = self.migrator.or(Some(child));
    }

    /// The child leaves the active set, unless it was found active.
    fn leave(&mut self, child: u8, child_on: bool)
        requires { child < 8 }
        ensures { self.new ≡ left_by child_on self.old child }
    {
        if child_on {
            return;
        }
        let active = self.active & !(1 << child);
        self.active = active;
        self.migrator = passed_on(self.migrator, child, active);
    }

    /// Marks the event of a child as ignored, where there is one.
    fn mark(&mut self, child: u8)
        requires { child < 8 }
        ensures { self.new ≡ with_mark self.old child }
    {
        let slot = self.events[usize::from(child)];
        self.events[usize::from(child)] = marked(slot);
    }

    /// A CPU takes the lock, or gives it back.
    fn set_lock(&mut self, lock: Option<u16>)
        ensures { self.new ≡ with_lock self.old lock }
    {
        self.lock = lock;
    }

    /// The slot of a child becomes this one.
    fn store(&mut self, child: u8, event: Option<Event>)
        requires { child < 8 }
        ensures { self.new ≡ with_event self.old child event }
    {
        self.events[usize::from(child)] = event;
    }
}
