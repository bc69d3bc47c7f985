//! Wakeups of sleeping CPUs: who wakes, how often, for what.
//!
//! A script is played on the core as ever, by a machine that counts: `machine` has the calls of a
//! machine in play, of which six count, and `foreseeing` what stands behind each wakeup before its
//! moment; `stats` plays a script on it, on the script's own machine or on another, and `telling`
//! writes what was counted. `alone` has the machine without its hierarchy, and `comparing` writes
//! two plays and the difference. That the watched play is the play stands in `laws`.
#![tactic(auto)]

mod alone;
mod comparing;
mod foreseeing;
mod interrupt;
mod laws;
mod machine;
mod stats;
mod telling;

pub use comparing::{NOT_COMPARED, Versus, tell_alone, tell_pair};
pub use interrupt::Interrupt;
pub use laws::law_watched;
pub use machine::Watching;
pub use stats::{Stats, stat, stat_on};
pub use telling::{COUNTED, Form, JOB_UNKNOWN, Told, WORK_SPENT, tell_stat};
pub use view_counts::{Cause, CpuCounts, Reason, Wakeup};

#[cfg(test)]
mod tests;
