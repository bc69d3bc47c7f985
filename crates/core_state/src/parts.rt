//! A core taken apart, and put together again.

ghost use Rattle.std.specs.Prelude.{◌≡◌, length};
ghost use Rattle.core_state.specs.Kept.{IsHeld, WorldFits, world_of};

use crate::machine::Core;
use crate::tally::{Tally, tally_in};
use core_parts::{CoreCpu, CoreGroup};
use tm_base::{CpuId, Jiffy};
use tree_plan::Tree;
use wheel_core::TimerBase;

/// What a core is made of.
#[derive(Drop)]
pub struct CoreParts<B: TimerBase> {
    /// The tree of its groups.
    pub tree: Tree,
    /// The clock, in jiffies.
    pub clock: Jiffy,
    /// The groups, in the order of their numbers.
    pub groups: Vec<CoreGroup>,
    /// The CPUs, in the order of their numbers.
    pub cpus: Vec<CoreCpu<B>>,
    /// For each timer the CPU on which it is queued, None where it is queued nowhere.
    pub holders: Vec<Option<CpuId>>,
    /// Room for what a core counts of its CPUs; what it says isn't read.
    pub tally: Tally,
}

impl<B: TimerBase> Core<B> {
    /// Takes the core apart. Its world is that of its parts, and keeps what every core keeps.
    pub fn into_parts(self) -> CoreParts<B>
        ensures world { world_of result.tree (length result.holders.items) result.clock
            result.groups.items result.cpus.items ≡ self }
        ensures fits { WorldFits self }
        ensures held { IsHeld self result.holders.items }
        ensures room { length result.tally.marks ≡ length result.cpus.items }
    {
        CoreParts {
            tree: self.tree,
            clock: self.clock,
            groups: self.groups,
            cpus: self.cpus,
            holders: self.holders,
            tally: self.tally,
        }
    }

    /// The core of these parts. Of the parts of a core it is a core of the same world. It counts
    /// each CPU once.
    pub fn from_parts(parts: CoreParts<B>) -> Core<B>
        requires fits { WorldFits (world_of parts.tree (length parts.holders.items) parts.clock
            parts.groups.items parts.cpus.items) }
        requires held { IsHeld (world_of parts.tree (length parts.holders.items) parts.clock
            parts.groups.items parts.cpus.items) parts.holders.items }
        requires room { length parts.tally.marks ≡ length parts.cpus.items }
        ensures { result ≡ world_of parts.tree (length parts.holders.items) parts.clock
            parts.groups.items parts.cpus.items }
    {
        let tally = tally_in(parts.tally, &parts.tree, &parts.cpus);
        Core {
            tree: parts.tree,
            clock: parts.clock,
            groups: parts.groups,
            cpus: parts.cpus,
            holders: parts.holders,
            tally,
        }
    }
}
