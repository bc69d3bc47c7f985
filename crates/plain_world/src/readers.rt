//! What a world says of its tree, its groups and what its CPUs are.

ghost use Rattle.std.specs.Prelude.{◌≡◌, ◌-◌, ◌<◌, ◌==◌, ◌↔◌, IsTrue, None, Some};
ghost use Rattle.std.specs.Prelude.{is_none, is_some, length, option_map};
ghost use Rattle.tree_plan.specs.Paths.{group_at_of, is_placed_in};
ghost use Rattle.tree_plan.specs.Shape.{IsPlanned};
ghost use Rattle.core_world.specs.event_queue.EventMap.{event_at};
ghost use Rattle.core_world.specs.group_word.State.{without_child};
ghost use Rattle.walk_rules.specs.Hierarchy.{at_top, group_on, side};
ghost use Rattle.core_world.specs.Steps.{child_on};
ghost use Rattle.core_world.specs.World.{cpu_of, group_of};
ghost use Rattle.core_parts.specs.Status.{status_of};

use crate::world::PlainWorld;
use core_parts::CpuStatus;
use event_queue::Event;
use tm_base::{CpuId, GroupId, Jiffy, NEVER, TimerId};
use tree_plan::Tree;
use walk_rules::Walk;

/// What stands for a CPU that isn't there.
const NO_STATUS: CpuStatus = CpuStatus {
    online: false,
    idle: true,
    inside: false,
    mark: None,
    wakeup: NEVER,
    walk: None,
};

impl PlainWorld {
    /// The clock, in jiffies.
    pub fn now(&self) -> Jiffy
        ensures { result ≡ self.now.clock }
    {
        self.clock
    }

    /// How many timers there are.
    pub fn timers(&self) -> u16
        ensures { result ≡ self.now.timers }
    {
        self.timers
    }

    /// Whether a timer is one of the world's.
    pub fn knows(&self, timer: TimerId) -> bool
        ensures { IsTrue result ↔ (timer.0 < self.now.timers) }
    {
        timer.0 < self.timers
    }

    /// The tree of its groups.
    pub fn tree(&self) -> &Tree
        ensures tree { result.now ≡ self.now.tree }
        ensures planned { IsPlanned self.now.tree }
    {
        self.tree.tree()
    }

    /// How many CPUs there are.
    pub fn count(&self) -> u16
        ensures { result ≡ length self.now.cpus }
    {
        self.tree.cpu_count()
    }

    /// How many groups there are.
    pub fn group_count(&self) -> usize
        ensures { result ≡ length self.now.groups }
    {
        self.groups.len()
    }

    /// What a CPU is besides its timers. Of a CPU that isn't there it is that of `no_cpu`: offline,
    /// idle, with no walk.
    pub fn status(&self, cpu: CpuId) -> CpuStatus
        ensures { result ≡ status_of (cpu_of self.now cpu.0) }
    {
        match self.cpus.get(usize::from(cpu.0)) {
            Some(found) => found.status(),
            None => NO_STATUS,
        }
    }

    /// The walk of a CPU, None where it has none.
    pub fn walk(&self, cpu: CpuId) -> Option<Walk>
        ensures { result ≡ (cpu_of self.now cpu.0).walk }
    {
        self.status(cpu).walk
    }

    /// Whether a CPU is placed, that is, there is such a CPU and it isn't isolated.
    pub fn is_placed(&self, cpu: CpuId) -> bool
        ensures { result ≡ is_placed_in self.now.tree cpu.0 }
    {
        self.tree.is_placed(cpu)
    }

    /// The group of a CPU's path at a level, where there is one.
    pub fn group_at(&self, cpu: CpuId, level: u8) -> Option<GroupId>
        ensures { option_map (λ g. g.0) result ≡ group_at_of self.now.tree cpu.0 level }
    {
        self.tree.group_at(cpu, level)
    }

    /// Whether a CPU has a group.
    pub fn has_group(&self, cpu: CpuId) -> bool
        ensures { result ≡ is_some (group_at_of self.now.tree cpu.0 0) }
    {
        self.group_at(cpu, 0).is_some()
    }

    /// The group of a CPU's path at a level; group 0 stands in where the path has none.
    pub fn group_on(&self, cpu: CpuId, level: u8) -> GroupId
        ensures { result.0 ≡ group_on self.now.tree cpu.0 level }
    {
        self.tree.group_on(cpu, level)
    }

    /// The group one level below, and the leaf at level 0.
    pub fn group_below(&self, cpu: CpuId, level: u8) -> GroupId
        ensures { result.0 ≡ group_on self.now.tree cpu.0 (level - 1) }
    {
        self.group_on(cpu, level.saturating_sub(1))
    }

    /// The child number by which a CPU's path comes into its group at a level; 0 where the path has
    /// no group there.
    pub fn side(&self, cpu: CpuId, level: u8) -> u8
        ensures side { result ≡ side self.now.tree cpu.0 level }
        ensures a_child { result < 8 }
    {
        self.tree.side(cpu, level)
    }

    /// Whether a CPU's path has no group above a level.
    pub fn at_top(&self, cpu: CpuId, level: u8) -> bool
        requires { level < 255 }
        ensures { result ≡ at_top self.now.tree cpu.0 level }
    {
        self.tree.at_top(cpu, level)
    }

    /// The set of a group's active children: bit k stands for child k. A group that isn't there has
    /// none.
    pub fn active(&self, group: GroupId) -> u8
        ensures { result ≡ (group_of self.now group.0).active }
    {
        match self.groups.get(usize::from(group.0)) {
            Some(found) => found.active(),
            None => 0,
        }
    }

    /// The active child of a group that looks after the timers of the idle ones.
    pub fn migrator(&self, group: GroupId) -> Option<u8>
        ensures { result ≡ (group_of self.now group.0).migrator }
    {
        match self.groups.get(usize::from(group.0)) {
            Some(found) => found.migrator(),
            None => None,
        }
    }

    /// The number of the CPU whose walk has the lock of a group.
    pub fn lock_of(&self, group: GroupId) -> Option<u16>
        ensures { result ≡ (group_of self.now group.0).lock }
    {
        match self.groups.get(usize::from(group.0)) {
            Some(found) => found.lock(),
            None => None,
        }
    }

    /// The event of a child in a group, None where it has none, and for a number past 7.
    pub fn event_of(&self, group: GroupId, child: u8) -> Option<Event>
        ensures { result ≡ event_at (group_of self.now group.0).events child }
    {
        match self.groups.get(usize::from(group.0)) {
            Some(found) => found.event(child),
            None => None,
        }
    }

    /// Whether no child of a group but this one is active.
    pub fn is_last(&self, group: GroupId, child: u8) -> bool
        requires { child < 8 }
        ensures { result ≡ (without_child (group_of self.now group.0).active child == 0) }
    {
        self.active(group) & !(1 << child) == 0
    }

    /// Whether a group has a migrator.
    pub fn is_on(&self, group: GroupId) -> bool
        ensures { result ≡ is_some (group_of self.now group.0).migrator }
    {
        self.migrator(group).is_some()
    }

    /// Whether a group has no migrator.
    pub fn is_off(&self, group: GroupId) -> bool
        ensures { result ≡ is_none (group_of self.now group.0).migrator }
    {
        self.migrator(group).is_none()
    }

    /// Whether the lock of a group is free.
    pub fn is_unlocked(&self, group: GroupId) -> bool
        ensures { IsTrue result ↔ ((group_of self.now group.0).lock ≡ None) }
    {
        self.lock_of(group).is_none()
    }

    /// Whether the child below a level is active; at level 0 it isn't.
    pub fn child_on(&self, cpu: CpuId, level: u8) -> bool
        ensures { result ≡ child_on self.now cpu.0 level }
    {
        if level == 0 {
            return false;
        }
        let below = self.group_on(cpu, level - 1);
        self.is_on(below)
    }
}
