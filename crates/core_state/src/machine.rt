//! The core, and how its fields are read and written.

ghost use Rattle.std.specs.Prelude.{◌≡◌, ◌<◌, length, true};
ghost use Rattle.tree_plan.specs.Paths.{IsBelow};
ghost use Rattle.core_parts.specs.core_world.declared.step.Step.TheVariants as steps;
ghost use Rattle.core_parts.specs.core_world.Enabled.{Enabled};
ghost use Rattle.core_parts.specs.core_world.Steps.{stepped};
ghost use Rattle.core_parts.specs.core_world.World.{cpu_of, group_of, moved};
ghost use Rattle.core_parts.specs.Changes.{ChangeFits, changed};
ghost use Rattle.core_state.specs.Kept.{StaysFit, WorldFits};
ghost use Rattle.core_parts.specs.Status.{status_of, with_cpu_status, with_status};
ghost use Rattle.core_facts.specs.walk_rules.Ranges.{IsInRange};

use crate::laws::law_fits;
use crate::tally::Tally;
use core_parts::{CoreCpu, CoreGroup, CpuStatus, GroupChange, if_exchanged};
use std::marker::Model;
use tm_base::{CpuId, GroupId, Jiffy};
use tree_plan::Tree;
use wheel_core::TimerBase;

/// The core: one world of CPUs with their timers and walks, groups and a clock. Beside it stands,
/// for each timer, the CPU on which it is queued, and what is noted of all CPUs.
#[derive(Drop)]
pub struct Core<B: TimerBase> {
    pub(crate) tree: Tree,
    pub(crate) clock: Jiffy,
    pub(crate) groups: Vec<CoreGroup>,
    pub(crate) cpus: Vec<CoreCpu<B>>,
    pub(crate) holders: Vec<Option<CpuId>>,
    pub(crate) tally: Tally,
}

impl<B: TimerBase> Model for Core<B> {
    ghost use Rattle.core_parts.specs.core_world.World.{World};
    ghost use Rattle.std.specs.Prelude.{length};
    ghost use Rattle.std.specs.Coded.{codes};
    ghost use Rattle.tree_plan.specs.Codes.{shape_code};

    ghost Value = { World };

    ghost coded = { Prim.hlevel (codes, shape_code) };

    ghost use Rattle.core_state.specs.Kept.{IsKept, world_of};

    ghost view = { λ c.
        world_of c.tree (length c.holders.items) c.clock c.groups.items c.cpus.items };

    ghost invariant = { λ c.
        IsKept (world_of c.tree (length c.holders.items) c.clock c.groups.items c.cpus.items)
        c.holders.items c.tally };
}

impl<B: TimerBase> Core<B> {
    /// What a CPU is besides its timers.
    pub fn status(&self, cpu: CpuId) -> CpuStatus
        requires { cpu.0 < length self.now.cpus }
        ensures status { result ≡ status_of (cpu_of self.now cpu.0) }
        ensures in_range { IsInRange result.walk }
        ensures fits { WorldFits self.now }
        ensures stays { StaysFit self.now }
    {
        law_fits();
        self.cpus[usize::from(cpu.0)].status()
    }

    /// Puts another status in the place of a CPU's: all that the CPU is besides its timers.
    #[inline(always)]
    pub fn set(&mut self, cpu: CpuId, status: CpuStatus)
        requires cpu { cpu.0 < length self.old.cpus }
        requires in_range { IsInRange status.walk }
        requires fits { WorldFits (with_cpu_status self.old cpu.0 status) }
        ensures { self.new ≡ with_cpu_status self.old cpu.0 status }
    {
        self.tally.recount(&self.tree, &self.cpus, cpu, status);
        self.cpus[usize::from(cpu.0)].set_status(status);
    }

    /// A group as a whole.
    pub fn group(&self, group: GroupId) -> &CoreGroup
        requires { group.0 < length self.now.groups }
        ensures { result.now ≡ group_of self.now group.0 }
    {
        &self.groups[usize::from(group.0)]
    }

    /// A CPU as a whole.
    pub fn core_cpu(&self, cpu: CpuId) -> &CoreCpu<B>
        requires { cpu.0 < length self.now.cpus }
        ensures { result.now ≡ cpu_of self.now cpu.0 }
    {
        &self.cpus[usize::from(cpu.0)]
    }

    /// A step of a CPU's walk: it changes a group and the CPU, and where it exchanges the word of a
    /// group that it is below it makes the readings of others stale.
    pub fn make(
        &mut self,
        group: GroupId,
        change: GroupChange,
        cpu: CpuId,
        status: CpuStatus,
        exchanges: bool,
    )
        requires group { group.0 < length self.old.groups }
        requires change { ChangeFits change }
        requires cpu { cpu.0 < length self.old.cpus }
        requires below { exchanges ≡ true → IsBelow self.old.tree cpu.0 group.0 }
        requires in_range { IsInRange status.walk }
        requires fits { WorldFits (moved self.old group.0
            (changed change (group_of self.old group.0)) cpu.0
            (with_status (cpu_of self.old cpu.0) status) exchanges) }
        ensures { self.new ≡ moved self.old group.0 (changed change (group_of self.old group.0))
            cpu.0 (with_status (cpu_of self.old cpu.0) status) exchanges }
    {
        self.tally.recount(&self.tree, &self.cpus, cpu, status);
        self.groups[usize::from(group.0)].change(change);
        if_exchanged(&self.tree, &mut self.cpus, cpu, group, exchanges);
        self.cpus[usize::from(cpu.0)].set_status(status);
    }

    /// Time goes on.
    pub fn bring_to(&mut self, now: Jiffy)
        requires { Enabled self.old (steps.Clock now) }
        ensures { self.new ≡ stepped self.old (steps.Clock now) }
    {
        law_fits();
        self.clock = now;
    }
}
