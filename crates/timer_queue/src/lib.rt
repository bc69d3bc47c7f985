//! A queue of timers with values of any type, over the nine-level wheel. No call has a condition.
#![tactic(auto)]

mod due;
mod error;
mod file;
mod key;
mod queue;
mod timer;

pub use due::Due;
pub use error::{QueueError, Refused};
pub use key::Key;
pub use queue::TimerQueue;
pub use timer::{EXACT_TICKS, LAST_TICK, MOST_TIMERS};

#[cfg(test)]
mod tests;
