//! Scripts of delayed work: which works are queued and cancelled when, as a text of lines.
//!
//! A line feed (byte 10) ends each line, and one space parts its words, as in a script of timers.
//! So each script of works has one text:
//!
//! ```text
//! works 1
//! count N                        how many works there are, 1 to 4,096
//! at A                           a moment, after the one before; there may be none
//! queue W DELAY JOB ARG          work W is queued, to be ready DELAY jiffies from now
//! cancel W                       work W is cancelled
//! end E
//! ```
#![tactic(auto)]

mod draft;
mod lines;
mod lists;
mod numbers;
mod reading;
mod syntax;
mod words;

pub use lists::{WorkMoments, WorkOps};
pub use reading::read_works;
pub use syntax::{WorkMoment, WorkOp, WorkScript};
pub use words::{ARG_LIMIT, DELAY_LIMIT, JOB_LIMIT, NumberSlot, WorkCommand, WorkKnown, WorkSaid};
