//! A CPU goes idle on the words that threads share, re-evaluates, or has its next event carried
//! upwards: the walks that tell an event, with gates (`tmigr_cpu_deactivate`,
//! `tmigr_cpu_new_timer`, and the end of `tmigr_handle_remote_cpu`).
#![tactic(auto)]

mod carrying;
mod idling;
mod points;
mod telling;

pub use carrying::carry;
pub use idling::deactivate;
pub use shared_cpus::{BoxPart, Pass, Run, RunName, bring, enter_step, part_off};
pub use shared_table::{CpuBox, MOST_MADE, Shared};
