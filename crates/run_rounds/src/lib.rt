//! A round: a moment of a run in which each CPU with something to do has a thread of its own, on
//! words that the threads share.
#![tactic(auto)]

mod interrupts;
mod rounds;
mod shares;
mod threads;

pub use rounds::round;
