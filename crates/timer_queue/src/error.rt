//! Why a call was refused.

ghost use Rattle.std.specs.Prelude.{◌≡◌};
ghost use Rattle.timer_queue.specs.declared.error.QueueError.TheVariants as errors;

use std::alloc::{AllocError, AllocFailed};
use thiserror::Error;
use wheel_core::NoRoom;

/// Why a queue refuses a call. The timers are then as they were.
#[derive(Clone, Copy, Debug, PartialEq, Eq, Error)]
pub enum QueueError {
    /// There is no memory for one timer more.
    #[error("there is no memory for another timer")]
    NoMemory,
    /// The asked tick, or the queue's clock, is past [`LAST_TICK`](crate::LAST_TICK).
    #[error("the tick is past what a timer queue reaches")]
    PastReach,
    /// 2^64 - 1 keys were given out, and none is given twice.
    #[error("all keys of the timer queue were given out")]
    KeysSpent,
    /// The key names no timer of the queue: it went out or was cancelled, or never was.
    #[error("the key names no timer")]
    NoTimer,
}

impl From<AllocError> for QueueError {
    ghost from_gives = { λ _ e. e ≡ errors.NoMemory };

    fn from(_e: AllocError) -> QueueError {
        QueueError::NoMemory
    }
}

impl From<NoRoom> for QueueError {
    ghost from_gives = { λ _ e. e ≡ errors.NoMemory };

    fn from(_e: NoRoom) -> QueueError {
        QueueError::NoMemory
    }
}

/// An insert that was refused, with the value that the caller gave.
#[derive(Debug, Drop, Error)]
#[error("{error}")]
pub struct Refused<T> {
    /// What was to be put in.
    pub value: T,
    /// Why it was not.
    pub error: QueueError,
}
