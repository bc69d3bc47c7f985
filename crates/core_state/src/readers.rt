//! What a core says of itself.

ghost use Rattle.std.specs.Prelude.{◌≡◌, ℕ, ◌<◌, IfNone, IfSome, length, option_map, true, false};
ghost use Rattle.core_facts.specs.Played.{AllPlayed};
ghost use Rattle.core_parts.specs.core_world.Frames.{IsSized};
ghost use Rattle.core_parts.specs.core_world.Lawful.{IsLawful};
ghost use Rattle.core_parts.specs.core_world.World.{cpu_of, group_of};
ghost use Rattle.core_state.specs.Kept.{is_queued};
ghost use Rattle.core_state.specs.Shown.{as_cpu, shown_cpu};

use crate::machine::Core;
use crate::shown::cpu_number;
use core_facts::{Events, Walk};
use cpu_bases::Bases;
use cpu_word::CpuState;
use tm_base::{CpuId, GroupId, Jiffy, TimerId};
use tree_plan::Tree;
use wheel_core::TimerBase;

impl<B: TimerBase> Core<B> {
    /// The clock, in jiffies.
    pub fn now(&self) -> Jiffy
        ensures { result ≡ self.now.clock }
    {
        self.clock
    }

    /// How many timers there are.
    pub fn timers(&self) -> u16
        ensures { result ≡ self.now.timers }
    {
        self.holders.len() as u16
    }

    /// The tree of its groups. Its contract also says that every core is lawful, and that its bases
    /// are what their journals make when they are played again.
    pub fn tree(&self) -> &Tree
        ensures tree { result.now ≡ self.now.tree }
        ensures sized { IsSized self.now }
        ensures lawful { IsLawful self.now }
        ensures played { AllPlayed self.now }
    {
        &self.tree
    }

    /// The set of a group's active children: bit k stands for child k.
    pub fn active(&self, g: GroupId) -> u8
        requires { g.0 < length self.now.groups }
        ensures { result ≡ (group_of self.now g.0).active }
    {
        self.group(g).active()
    }

    /// The active child of a group that looks after the timers of the idle ones.
    pub fn migrator(&self, g: GroupId) -> Option<u8>
        requires { g.0 < length self.now.groups }
        ensures { result ≡ (group_of self.now g.0).migrator }
    {
        self.group(g).migrator()
    }

    /// The CPU whose walk has the lock of a group.
    pub fn lock_of(&self, g: GroupId) -> Option<CpuId>
        requires { g.0 < length self.now.groups }
        ensures { result ≡ option_map as_cpu (group_of self.now g.0).lock }
    {
        cpu_number(self.group(g).lock())
    }

    /// The events of a group's children.
    pub fn events(&self, g: GroupId) -> &Events
        requires { g.0 < length self.now.groups }
        ensures { result.now ≡ (group_of self.now g.0).events }
    {
        self.group(g).events()
    }

    /// The state of a CPU.
    pub fn cpu(&self, c: CpuId) -> CpuState
        requires { c.0 < length self.now.cpus }
        ensures { result ≡ shown_cpu (cpu_of self.now c.0) }
    {
        let status = self.status(c);
        CpuState {
            online: status.online,
            idle: status.idle,
            inside: status.inside,
            remote: cpu_number(status.mark),
            wakeup: status.wakeup,
        }
    }

    /// The walk of a CPU, None where it has none.
    pub fn walk(&self, c: CpuId) -> Option<Walk>
        requires { c.0 < length self.now.cpus }
        ensures { result ≡ (cpu_of self.now c.0).walk }
    {
        self.status(c).walk
    }

    /// The timers of a CPU.
    pub fn bases(&self, c: CpuId) -> &Bases<B>
        requires { c.0 < length self.now.cpus }
        ensures { result.now.plain ≡ (cpu_of self.now c.0).bases }
    {
        self.cpus[usize::from(c.0)].bases()
    }

    /// The CPU on which a timer is queued, None where it is queued nowhere. It costs no search.
    pub fn queued_on(&self, t: TimerId) -> Option<CpuId>
        requires { t.0 < self.now.timers }
        ensures there { IfSome result (λ d. is_queued t.0 (cpu_of self.now d.0).bases ≡ true) }
        ensures in_range { IfSome result (λ d. d.0 < length self.now.cpus) }
        ensures nowhere { IfNone result
            ((d : ℕ) → is_queued t.0 (cpu_of self.now d).bases ≡ false) }
    {
        self.holders[usize::from(t.0)]
    }
}
