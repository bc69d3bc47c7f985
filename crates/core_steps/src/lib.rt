//! The core's steps as code, each as a call. Where a step is enabled `step_core` answers.
#![tactic(auto)]

mod activation;
mod begin;
mod finishing;
mod flags;
mod leaving;
mod locking;
mod steps;
mod telling;

pub use core_state::{
    Core, CoreCpu, CoreGroup, CoreParts, CpuStatus, Tally, law_answered, law_covered,
    law_each_settled, law_height, law_next_moment, law_once, law_place, law_replay, law_start,
    law_step,
};
pub use steps::apply;
