//! A script run with a thread for each CPU of a moment; and all that plays one on the core.
//!
//! `runs` runs a script with the rounds of `run_rounds`. What a run does besides is in the crate
//! `run_moments`; plays without threads are those of `core_plays`.
#![tactic(auto)]

mod runs;

pub use play_driver::{Counts, DriveFault, having_interrupt, play_on};
pub use run_moments::{Summary, deep, next_moment, play, play_moment, run_by, start_core, summary};
pub use runs::run;
