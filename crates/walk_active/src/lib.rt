//! The activation of a CPU on the shared words (`tmigr_cpu_activate` and `tmigr_active_up`).
#![tactic(auto)]

mod activating;
mod climbing;

pub use activating::activate;
pub use shared_cpus::{
    BoxPart, Core, Pass, Receipt, Run, RunName, bring, idle_step, part_off, rest_step, visit,
    wake_step,
};
pub use shared_table::{CpuBox, MOST_MADE, Ready, Shared};
pub use shared_walks::walk_step;
