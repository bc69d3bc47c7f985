//! Runs in which threads let their CPUs rest and wake, for tests and for measuring: nothing is
//! proved here that stands elsewhere.
#![tactic(auto)]

#[cfg(test)]
mod by_steps;
mod checks;
mod crews;
mod drawing;
mod gates;
mod runs;
mod tally;
#[cfg(test)]
mod tests;
mod turns;

pub use checks::{agrees, is_active};
pub use drawing::Draws;
pub use gates::{Hold, Turnstile, Watch};
pub use idle_wakeup::Core;
pub use runs::{Crew, Plan, Ran, run_plan};
pub use shared_rows::{apply, enabled, is_settled, no_base_behind, run_steps, start};
pub use tally::Tally;
pub use turns::Turn;
