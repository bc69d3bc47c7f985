//! Timers in a kernel's trace: the bucket of each armed timer is the wheel's, and each runs at its
//! wheel expiry, on its own CPU or in a run for that.
#![tactic(auto)]

mod bases;
mod rule;
mod seen;
mod tallies;
mod wheel;

pub use bases::{BaseClock, Clocks};
pub use rule::{TIMER_SOFTIRQ, take_timers, timer_fault};
pub use seen::{Queued, Runner, State, Taken, TimerSeen, TimersSeen};
pub use tallies::{TimerTally, no_timer_tally, timer_tally_after};
pub use wheel::{MOST_JIFFIES, arming_fits, law_clocks};
