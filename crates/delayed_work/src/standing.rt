//! How a work stands, and what became of a queueing.

use tm_base::Jiffy;

/// How a work stands (of the kernel's `struct delayed_work`). It is pending where it isn't free
/// (the bit `WORK_STRUCT_PENDING`).
#[derive(Clone, Copy, Debug, PartialEq, Eq)]
pub enum Standing {
    /// It isn't queued.
    Free,
    /// Its timer is queued, for the queueing of this number.
    Waiting { number: u64 },
    /// It is in the ready list, for the queueing of this number, with its job and what that is
    /// handed.
    Ready { number: u64, job: u8, arg: u32 },
}

/// What became of an accepted queueing so far.
#[derive(Clone, Copy, Debug, PartialEq, Eq)]
pub enum End {
    /// The work was run.
    Ran,
    /// The work was cancelled.
    Cancelled,
    /// The work is pending.
    Pending,
}

/// What a queueing came to.
#[derive(Clone, Copy, Debug, PartialEq, Eq)]
pub enum Placed {
    /// The work waits for its timer, of this wheel expiry in jiffies.
    Waiting(Jiffy),
    /// The work is ready.
    Ready,
    /// The work was pending already, and nothing was changed.
    Pending,
}
