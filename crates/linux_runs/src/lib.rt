//! Runs of other CPUs' timers in a kernel's trace: how late they are, and what Linux does there and
//! with its events otherwise than the rules of tmig, none of which is a misfit.
#![tactic(auto)]

mod differences;
mod runs;

pub use differences::{Differences, differences_after, no_differences};
pub use runs::{LATE_1_MS, LATE_4_MS, LATE_10_MS, LATE_100_MS, Runs, no_runs, runs_after};
