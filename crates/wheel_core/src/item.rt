//! Queued timers.

use std::alloc::{AllocError, AllocFailed};

/// A timer queued in a base.
#[derive(Clone, Copy, Debug, PartialEq, Eq)]
pub struct Item {
    /// The timer's number. A base holds at most one item of a number.
    pub id: u32,
    /// The asked expiry, in jiffies.
    pub expires: u64,
    /// The wheel expiry, in jiffies: when the item goes out.
    pub wheel: u64,
    /// The level of the wheel, 0 to 8.
    pub level: u8,
    /// The number of the job that runs when the timer goes out.
    pub job: u8,
    /// What the job is handed.
    pub arg: u32,
}

/// Want of memory. The call that answers it has changed nothing.
#[derive(Clone, Copy, Debug, PartialEq, Eq)]
pub struct NoRoom;

impl From<AllocError> for NoRoom {
    fn from(_e: AllocError) -> NoRoom {
        NoRoom
    }
}

impl<T: Drop> From<AllocFailed<T>> for NoRoom {
    fn from(_e: AllocFailed<T>) -> NoRoom {
        NoRoom
    }
}
