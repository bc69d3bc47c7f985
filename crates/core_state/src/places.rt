//! What a step of a walk reads.

ghost use Rattle.std.specs.Prelude.{◌≡◌, ℕ, ◌-◌, ◌^◌, ◌<◌, ◌↔◌, IsFalse, IsTrue, None};
ghost use Rattle.std.specs.Prelude.{is_none, is_some, length, true};
ghost use Rattle.tree_plan.specs.Paths.{IsBelow, group_at_of, is_placed_in};
ghost use Rattle.cpu_bases.specs.CpuBases.{events_of};
ghost use Rattle.core_facts.specs.event_queue.EventMap.{event_at};
ghost use Rattle.core_facts.specs.Levels.{IsLowWalk};
ghost use Rattle.core_facts.specs.walk_rules.Hierarchy.{IsHierarchy, at_top, group_on, side};
ghost use Rattle.core_parts.specs.core_world.Enabled.{MarksNobody};
ghost use Rattle.core_parts.specs.core_world.Steps.{child_on};
ghost use Rattle.core_parts.specs.core_world.World.{cpu_of, group_of, moved, own};
ghost use Rattle.core_parts.specs.core_world.Steps.{with_walk};
ghost use Rattle.core_parts.specs.Changes.{ChangeFits, changed};
ghost use Rattle.core_state.specs.Kept.{HasLevel, StaysFit, WorldFits};
ghost use Rattle.core_facts.specs.walk_rules.Ranges.{EventFits, IsInRange};
ghost use Rattle.core_state.specs.Tally.{OthersOnline};

use crate::laws::law_fits;
use crate::machine::Core;
use crate::tally::is_placed_online;
use crate::tree;
use core_facts::{Event, Walk, law_height, law_hierarchy};
use core_parts::{CpuStatus, GroupChange};
use cpu_bases::NextEvents;
use tm_base::{CpuId, GroupId};
use tree_plan::{law_cuts, law_paths};
use wheel_core::TimerBase;

impl<B: TimerBase> Core<B> {
    /// Does nothing: its contract says what every core keeps.
    pub fn kept(&self)
        ensures fits { WorldFits self.now }
        ensures stays { StaysFit self.now }
        ensures hierarchy { IsHierarchy self.now.tree }
        ensures levels { (c l : ℕ) → HasLevel self.now.tree c l → l < 3 }
        ensures low { IsLowWalk self.now }
    {
        law_cuts();
        law_fits();
        law_height();
        law_hierarchy();
        law_paths();
        self.tree.cpu_count();
    }

    /// The group of a CPU's path at a level; group 0 stands in where the path has none.
    pub fn group_on(&self, cpu: CpuId, level: u8) -> GroupId
        requires { cpu.0 < length self.now.cpus }
        ensures group { result.0 ≡ group_on self.now.tree cpu.0 level }
        ensures in_range { HasLevel self.now.tree cpu.0 level → result.0 < length self.now.groups }
    {
        tree::group_on(&self.tree, cpu, level)
    }

    /// The group one level below, and the leaf at level 0.
    pub fn group_below(&self, cpu: CpuId, level: u8) -> GroupId
        requires { cpu.0 < length self.now.cpus }
        ensures group { result.0 ≡ group_on self.now.tree cpu.0 (level - 1) }
        ensures in_range { HasLevel self.now.tree cpu.0 (level - 1)
            → result.0 < length self.now.groups }
    {
        self.group_on(cpu, level.saturating_sub(1))
    }

    /// The child number by which a CPU's path comes into its group at a level.
    pub fn side(&self, cpu: CpuId, level: u8) -> u8
        requires { cpu.0 < length self.now.cpus }
        ensures side { result ≡ side self.now.tree cpu.0 level }
        ensures a_child { result < 8 }
    {
        tree::side(&self.tree, cpu, level)
    }

    /// Whether a CPU's path has no group above a level.
    pub fn at_top(&self, cpu: CpuId, level: u8) -> bool
        requires cpu { cpu.0 < length self.now.cpus }
        requires level { level < 255 }
        ensures top { result ≡ at_top self.now.tree cpu.0 level }
    {
        tree::at_top(&self.tree, cpu, level)
    }

    /// Whether the child below a level is active; at level 0 it isn't.
    pub fn child_on(&self, cpu: CpuId, level: u8) -> bool
        requires cpu { cpu.0 < length self.now.cpus }
        requires below { 0 < level → HasLevel self.now.tree cpu.0 (level - 1) }
        ensures child_on { result ≡ child_on self.now cpu.0 level }
    {
        if level == 0 {
            return false;
        }
        let below = self.group_below(cpu, level);
        self.group(below).is_on()
    }

    /// Whether a group has a migrator.
    pub fn is_on(&self, group: GroupId) -> bool
        requires { group.0 < length self.now.groups }
        ensures on { result ≡ is_some (group_of self.now group.0).migrator }
    {
        self.group(group).is_on()
    }

    /// Whether a group has no migrator.
    pub fn is_off(&self, group: GroupId) -> bool
        requires { group.0 < length self.now.groups }
        ensures off { result ≡ is_none (group_of self.now group.0).migrator }
    {
        self.group(group).is_off()
    }

    /// The event of a child in a group.
    pub fn event_of(&self, group: GroupId, child: u8) -> Option<Event>
        requires group { group.0 < length self.now.groups }
        requires a_child { child < 8 }
        ensures event { result ≡ event_at (group_of self.now group.0).events child }
        ensures fits { EventFits result }
    {
        self.group(group).event(child)
    }

    /// A CPU has another walk, or none.
    pub fn set_walk(&mut self, cpu: CpuId, walk: Option<Walk>)
        requires cpu { cpu.0 < length self.old.cpus }
        requires in_range { IsInRange walk }
        requires fits { WorldFits (own self.old cpu.0 (with_walk (cpu_of self.old cpu.0) walk)) }
        ensures { self.new ≡ own self.old cpu.0 (with_walk (cpu_of self.old cpu.0) walk) }
    {
        let status = self.status(cpu);
        self.set(cpu, CpuStatus { walk, ..status });
    }

    /// A CPU has another walk, or none, and a group is changed, by an exchange of its word or not;
    /// an exchange makes the readings of other walks stale.
    pub fn walk_at(
        &mut self,
        group: GroupId,
        change: GroupChange,
        cpu: CpuId,
        walk: Option<Walk>,
        exchanges: bool,
    )
        requires group { group.0 < length self.old.groups }
        requires change { ChangeFits change }
        requires cpu { cpu.0 < length self.old.cpus }
        requires below { exchanges ≡ true → IsBelow self.old.tree cpu.0 group.0 }
        requires in_range { IsInRange walk }
        requires fits { WorldFits (moved self.old group.0
            (changed change (group_of self.old group.0)) cpu.0
            (with_walk (cpu_of self.old cpu.0) walk) exchanges) }
        ensures { self.new ≡ moved self.old group.0 (changed change (group_of self.old group.0))
            cpu.0 (with_walk (cpu_of self.old cpu.0) walk) exchanges }
    {
        let status = self.status(cpu);
        self.make(group, change, cpu, CpuStatus { walk, ..status }, exchanges);
    }

    /// Whether the lock of a group is free.
    pub fn is_unlocked(&self, group: GroupId) -> bool
        requires { group.0 < length self.now.groups }
        ensures { IsTrue result ↔ ((group_of self.now group.0).lock ≡ None) }
    {
        self.group(group).lock().is_none()
    }

    /// The first events of a CPU.
    pub fn events_of(&self, cpu: CpuId) -> NextEvents
        requires { cpu.0 < length self.now.cpus }
        ensures events { result ≡ events_of (cpu_of self.now cpu.0).bases }
        ensures in_range { result.next < 2 ^ 48 }
    {
        self.cpus[usize::from(cpu.0)].events()
    }

    /// Whether a CPU has a group.
    pub fn has_group(&self, cpu: CpuId) -> bool
        requires { cpu.0 < length self.now.cpus }
        ensures { result ≡ is_some (group_at_of self.now.tree cpu.0 0) }
    {
        self.tree.group_at(cpu, 0).is_some()
    }

    /// How many CPUs there are.
    pub fn count(&self) -> u16
        ensures { result ≡ length self.now.cpus }
    {
        self.tree.cpu_count()
    }

    /// Whether a CPU is placed, that is, not isolated.
    pub fn is_placed(&self, cpu: CpuId) -> bool
        requires { cpu.0 < length self.now.cpus }
        ensures { result ≡ is_placed_in self.now.tree cpu.0 }
    {
        self.tree.is_placed(cpu)
    }

    /// Whether a CPU has marked another one, to run its timers. It costs no walk over CPUs.
    pub fn has_marked(&self, cpu: CpuId) -> bool
        requires { cpu.0 < length self.now.cpus }
        ensures { IsFalse result ↔ MarksNobody self.now cpu.0 }
    {
        self.tally.has_marked(cpu)
    }

    /// Whether another placed CPU is online. It costs no walk over CPUs.
    pub fn others_online(&self, cpu: CpuId) -> bool
        requires { cpu.0 < length self.now.cpus }
        ensures { IsTrue result ↔ OthersOnline self.now cpu.0 }
    {
        let placed_online = is_placed_online(&self.tree, cpu, self.status(cpu).online);
        self.tally.counts_others(placed_online)
    }
}
