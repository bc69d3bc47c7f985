//! What a play of a script is, as definitions over plain data in `specs/`, and what a machine that
//! plays has to do.
//!
//! `Rules` is what a play asks of a machine; `Interrupts`, `Operations` and `Moments` say over any
//! rules what a moment and a play are, with their lines and their count of work. `State`,
//! `Hierarchy`, `Timers` and `Covers` are the plain machine, and `Play` the shape under its rules.
//! A `PlayMachine` makes each rule a call.
#![tactic(auto)]

mod asks;
mod machine;
mod tally;

pub use asks::{Answerer, Arming, Cancelling, Mover, Queued, UnknownJob};
pub use machine::PlayMachine;
pub use tally::Tally;
