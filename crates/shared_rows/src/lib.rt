//! Runs over machines, for tests and for measuring: nothing is proved here that stands elsewhere.
#![tactic(auto)]

mod behind;
mod facts;
mod machines;
mod runs;
#[cfg(test)]
mod tests;

pub use behind::no_base_behind;
pub use facts::facts_of;
pub use machines::{start, stir};
pub use runs::{Seen, run_once};
pub use shared_table::{Core, CpuBox, MOST_MADE, Pass, Ready, RunName, Shared};
pub use step_laws::{StepsFault, apply, enabled, is_settled, law_once, law_settled, run_steps};
