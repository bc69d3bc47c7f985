//! What the interrupt of a CPU does on the words that threads share, and what it tells of it: its
//! own due timers run, and those of the idle CPUs that it looks after (`tmigr_handle_remote`).
#![tactic(auto)]

mod draining;
mod interrupting;
mod jobs;
mod looking;
mod marking;
mod serving;

pub use interrupting::interrupt;
pub use shared_acts::{Ran, RanReply, Runs};
pub use shared_calls::{arm, cancel, needs_remote};
