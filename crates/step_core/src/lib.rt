//! The core and its steps as code: its start, where each step is enabled, and each step as a call,
//! which `core_steps` has.
#![tactic(auto)]

mod asking;
mod asking_timers;
mod enabling;
mod small;
mod start;

pub use asking::{is_due_at_leaf, is_reeval, may_be_missed};
pub use asking_timers::{is_id, may_run};
pub use core_steps::{
    Core, CpuStatus, apply, law_answered, law_covered, law_each_settled, law_height,
    law_next_moment, law_once, law_place, law_replay, law_start, law_step,
};
pub use enabling::enabled;
pub use small::one_node_core;
pub use start::new_core;
