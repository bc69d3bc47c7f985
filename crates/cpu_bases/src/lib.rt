//! The timer bases of one CPU, one for each class of timers, and the journal of what was done to
//! them.
#![tactic(auto)]

mod bases;
mod entry;
mod journal;
mod laws;
mod trio;

pub use bases::Bases;
pub use entry::{Act, Entry, NextEvents};
pub use journal::Journal;
pub use laws::{law_bases, law_calls, law_journals};
