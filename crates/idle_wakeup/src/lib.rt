//! A CPU wakes or goes idle, on the words that threads share: the calls of its thread, with its
//! lock (`tmigr_cpu_activate`, `timer_base_try_to_set_idle`).
#![tactic(auto)]

mod idling;
mod meeting;
mod waking;

pub use idling::{IdleAnswer, go_idle};
pub use waking::wake;
pub use walk_active::{
    BoxPart, Core, Pass, Ready, Receipt, Run, RunName, Shared, bring, idle_step, part_off,
    rest_step, wake_step, walk_step,
};
