//! One group of the core.

ghost use Rattle.std.specs.Prelude.{◌≡◌, ◌-◌, ◌^◌, ◌<◌, ◌≤◌, is_none, is_some};
ghost use Rattle.core_world.specs.group_word.Group.{GroupLaw};
ghost use Rattle.core_world.specs.group_word.State.{IsLawfulState};
ghost use Rattle.core_world.specs.event_queue.EventMap.{event_at};
ghost use Rattle.core_world.specs.Start.{start_group};
ghost use Rattle.core_world.specs.walk_rules.Stages.{joined_by, left_by, with_event, with_lock};
ghost use Rattle.core_world.specs.walk_rules.Stages.{with_mark};
ghost use Rattle.core_parts.specs.Changes.{ChangeFits, changed};
ghost use Rattle.core_world.specs.walk_rules.Ranges.{EventFits};

use crate::change::GroupChange;
use core_world::{Event, Events, GroupState, activated, swapped};
use std::marker::Model;

/// One group: which children are active, which of them is the migrator, whose walk has the lock,
/// and the events of the children (the kernel's `struct tmigr_group`).
#[derive(Drop)]
pub struct CoreGroup {
    active: u8,
    migrator: Option<u8>,
    lock: Option<u16>,
    events: Events,
}

impl Model for CoreGroup {
    ghost use Rattle.core_world.specs.group_word.Group.{GroupLaw};
    ghost use Rattle.core_world.specs.walk_rules.Scene.{Group};

    ghost Value = { Group };

    ghost view = { λ g.
        record { active = g.active; migrator = g.migrator; lock = g.lock; events = g.events } };

    ghost invariant = { λ g. GroupLaw g.active g.migrator };
}

impl CoreGroup {
    /// A group of 1 to 8 children, all of them active.
    pub fn new(children: u8) -> CoreGroup
        requires some { 1 ≤ children }
        requires few { children ≤ 8 }
        ensures { result ≡ start_group children }
    {
        CoreGroup {
            active: all_of(children),
            migrator: Some(0),
            lock: None,
            events: Events::new(),
        }
    }

    /// The group of these parts: bit k of `active` stands for child k, and `lock` is the number of
    /// a CPU.
    pub fn from_parts(
        active: u8,
        migrator: Option<u8>,
        lock: Option<u16>,
        events: Events,
    ) -> CoreGroup
        requires { GroupLaw active migrator }
        ensures { result
            ≡ record { active = active; migrator = migrator; lock = lock; events = events } }
    {
        CoreGroup {
            active,
            migrator,
            lock,
            events,
        }
    }

    /// The set of the active children: bit k stands for child k.
    pub fn active(&self) -> u8
        ensures { result ≡ self.now.active }
    {
        self.active
    }

    /// The active child that looks after the timers of the idle ones.
    pub fn migrator(&self) -> Option<u8>
        ensures migrator { result ≡ self.now.migrator }
        ensures law { GroupLaw self.now.active self.now.migrator }
    {
        self.migrator
    }

    /// Whether the group has a migrator.
    pub fn is_on(&self) -> bool
        ensures { result ≡ is_some self.now.migrator }
    {
        self.migrator.is_some()
    }

    /// Whether the group has no migrator.
    pub fn is_off(&self) -> bool
        ensures { result ≡ is_none self.now.migrator }
    {
        self.migrator.is_none()
    }

    /// The number of the CPU whose walk has the lock.
    pub fn lock(&self) -> Option<u16>
        ensures { result ≡ self.now.lock }
    {
        self.lock
    }

    /// The events of the children.
    pub fn events(&self) -> &Events
        ensures { result.now ≡ self.now.events }
    {
        &self.events
    }

    /// The event of a child.
    pub fn event(&self, child: u8) -> Option<Event>
        requires { child < 8 }
        ensures event { result ≡ event_at self.now.events child }
        ensures fits { EventFits result }
    {
        self.events.get(child)
    }

    /// A step of a walk.
    pub fn change(&mut self, change: GroupChange)
        requires { ChangeFits change }
        ensures { self.new ≡ changed change self.old }
    {
        match change {
            GroupChange::Mark { child } => self.mark(child),
            GroupChange::Join { child } => self.join(child),
            GroupChange::Leave { child, child_on } => self.leave(child, child_on),
            GroupChange::Lock { cpu } => self.set_lock(Some(cpu)),
            GroupChange::Free => self.set_lock(None),
            GroupChange::Store { child, event } => self.store(child, event),
        }
    }

    /// The child joins the active set.
    fn join(&mut self, child: u8)
        requires { child < 8 }
        ensures { self.new ≡ joined_by self.old child }
    {
        let (next, _) = activated(state_of(self.active, self.migrator), child);
        self.active = next.active;
        self.migrator = next.migrator;
    }

    /// The child leaves the active set, unless it was found active.
    fn leave(&mut self, child: u8, child_on: bool)
        requires { child < 8 }
        ensures { self.new ≡ left_by child_on self.old child }
    {
        let next = swapped(state_of(self.active, self.migrator), child, child_on);
        self.active = next.active;
        self.migrator = next.migrator;
    }

    /// Marks the event of a child as ignored, where there is one.
    fn mark(&mut self, child: u8)
        requires { child < 8 }
        ensures { self.new ≡ with_mark self.old child }
    {
        self.events.mark(child);
    }

    /// A CPU takes the lock, or gives it back.
    fn set_lock(&mut self, lock: Option<u16>)
        ensures { self.new ≡ with_lock self.old lock }
    {
        self.lock = lock;
    }

    /// The slot of a child becomes this one.
    fn store(&mut self, child: u8, event: Option<Event>)
        requires a_child { child < 8 }
        requires fits { EventFits event }
        ensures { self.new ≡ with_event self.old child event }
    {
        match event {
            Some(event) => self.events.set(child, event),
            None => self.events.clear(child),
        }
    }
}

/// The state whose word no exchange has been made on.
fn state_of(active: u8, migrator: Option<u8>) -> GroupState
    requires { GroupLaw active migrator }
    ensures state { result ≡ record { active = active; migrator = migrator; seq = 0 } }
    ensures lawful { IsLawfulState result }
{
    GroupState {
        active,
        migrator,
        seq: 0,
    }
}

/// The set of so many children, at most 8.
fn all_of(children: u8) -> u8
    requires { children ≤ 8 }
    ensures { result ≡ 2 ^ children - 1 }
{
    ((1_u16 << children) - 1) as u8
}
