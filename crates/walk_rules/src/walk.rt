//! Walks.

use event_queue::Event;
use tm_base::{CpuId, Jiffy};

/// What a walk is for.
#[derive(Clone, Copy)]
pub enum WalkKind {
    /// The CPU has become active, and tells the groups of its path (the kernel's
    /// `tmigr_active_up`).
    Activate,
    /// The CPU has gone idle (the kernel's `tmigr_inactive_up`).
    Deactivate,
    /// The CPU has gone offline: it leaves its groups like one that goes idle, with no event of its
    /// own (the kernel's `tmigr_cpu_offline`).
    Offline,
    /// The CPU is idle and its first timer may have changed (the kernel's `tmigr_new_timer_up`).
    Reeval,
    /// The CPU is idle, and another one has run its timers and carries its next event upwards (the
    /// end of the kernel's `tmigr_handle_remote_cpu`).
    Remote {
        /// The CPU that set the mark.
        by: CpuId,
    },
}

/// Where a walk stands: what its next step does. The group is that of the walk's level, the child
/// is the group one level below on the path, and at level 0 the CPU.
#[derive(Clone, Copy)]
pub enum Stage {
    /// Marks the CPU's own event as ignored.
    Own,
    /// The child joins the group's active set.
    Up,
    /// Marks the group's event in its parent as ignored.
    Mark {
        /// Whether the group had no migrator before the child joined, so that the walk goes on.
        more: bool,
    },
    /// Reads the group's word.
    Read,
    /// Reads the child's word.
    Child,
    /// The child leaves the group's active set, unless the group's word was changed since it was
    /// read.
    Swap,
    /// Takes the child's lock.
    LockChild,
    /// Takes the group's lock.
    LockGroup,
    /// Reads the child's word under its lock.
    SeeChild,
    /// Reads the group's word under its lock.
    SeeGroup,
    /// Reads an event of the child.
    Scan {
        /// The number of the event, 0 to 7.
        k: u8,
    },
    /// Writes the child's event into the group.
    Store,
    /// Reads an event of the top.
    First {
        /// The number of the event, 0 to 7.
        k: u8,
    },
    /// Gives the group's lock back.
    FreeGroup,
    /// Gives the child's lock back.
    FreeChild,
    /// Writes what came out into the CPU's word.
    Finish,
    /// The CPU went offline and found an event in a top without migrator: another CPU has to take
    /// over.
    Handing,
}

/// A walk from a CPU's leaf upwards.
#[derive(Clone, Copy)]
pub struct Walk {
    pub kind: WalkKind,
    /// The level at which it stands, 0 at the leaf.
    pub level: u8,
    pub stage: Stage,
    /// The first pinned timer of the CPU as the walk began, in jiffies, or `NEVER`.
    pub pin: Jiffy,
    /// The event that the CPU then had for its leaf, in jiffies, or `NEVER`.
    pub next: Jiffy,
    /// The first event of the top that isn't ignored, as far as it was read, in jiffies, or
    /// `NEVER`; of a CPU that has no group its `next`.
    pub first: Jiffy,
    /// The first event of the child that isn't ignored, as far as it was read.
    pub best: Option<Event>,
    /// Whether the group's word is still the one that was read last.
    pub fresh: bool,
    /// Whether the child was active as its word was read last.
    pub child_on: bool,
    /// Whether the group had a migrator as its word was read under its lock.
    pub on: bool,
    /// Whether the walk ends at this level.
    pub over: bool,
}
