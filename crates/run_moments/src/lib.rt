//! A run of a script, but for its rounds: who makes them is a parameter.
//!
//! `runs` runs a script, and `moments` plays its moments. `turns` has what a moment asks before
//! it is played, and its play where it is plain; `telling` tells of a round. What is generic over a
//! machine is read here at the core of a run.
#![tactic(auto)]

mod moments;
mod runs;
mod telling;
mod turns;

pub use core_plays::{Core, Summary, deep, next_moment, play, play_moment, start_core, summary};
pub use moments::Rounded;
pub use run_plain::law_work;
pub use runs::run_by;
