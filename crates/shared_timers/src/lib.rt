//! The steps that queue a timer and take one out, on the words that threads share: each with a seat
//! that has the box of the CPU in whose base the timer is and the pass of the CPU that makes it,
//! which knows the receipt of the entry then; and the same with the bytes of both, in which entry
//! and receipt are written. So does a drain of a base, timer by timer.
#![tactic(auto)]

mod arming;
mod draining;
mod exchanges;
mod noting;
mod queueing;
mod together;

pub use arming::Arming;
pub use draining::{drain_step, next_timer};
pub use exchanges::{drain, take_out, try_arm};
pub use noting::note;
pub use queueing::{arm_step, cancel_step};
pub use shared_rule::{BoxPart, Pass, Run, RunName, bring, part_off};
pub use together::{arm_with, cancel_with, hand_with};
