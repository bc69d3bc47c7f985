//! The headline: lists of steps of a core, in whatever order its CPUs make them, and what holds
//! after every step.
#![tactic(auto)]

mod laws;
mod running;
mod settled;

pub use laws::{law_covered, law_lawful, law_once, law_reached, law_settled};
pub use running::{StepsFault, run_steps};
pub use settled::is_settled;
pub use step_core::{Core, apply, enabled, new_core};

#[cfg(test)]
mod tests;
