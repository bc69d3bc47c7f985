//! Runs in which threads let their CPUs arm and cancel timers, go idle, wake, and have interrupts,
//! by lists that are drawn: what each run has to leave is looked at as it ends.
#![tactic(auto)]

mod calls;
mod checks;
mod covers;
mod crews;
mod drawing;
mod episodes;
mod gates;
mod noted;
mod runs;
mod tally;
mod turns;

pub use checks::{Flaw, first_flaw, is_quiet_at};
pub use covers::{agrees, is_active};
pub use drawing::{CPUS, Draws, TIMERS, drawn_turns};
pub use episodes::{Broken, RUNS, episode, judged};
pub use gates::{Hold, Order, Watch};
pub use idle_wakeup::Core;
pub use runs::{Crew, LATEST, Plan, Ran, run_plan};
pub use shared_rows::{MOST_MADE, apply, enabled, is_settled, no_base_behind, run_steps, start};
pub use tally::Tally;
pub use turns::{Act, Asked, Turn};
