//! What a step of a walk makes of a group.

use core_world::Event;

/// A load, store or exchange of a group's words.
#[derive(Clone, Copy)]
pub enum GroupChange {
    /// The event of a child is marked as ignored, if there is one.
    Mark { child: u8 },
    /// A child joins the active set.
    Join { child: u8 },
    /// A child leaves the active set, unless it was found active.
    Leave { child: u8, child_on: bool },
    /// The walk of a CPU of this number takes the lock.
    Lock { cpu: u16 },
    /// The lock is given back.
    Free,
    /// The slot of a child is written.
    Store { child: u8, event: Option<Event> },
}
