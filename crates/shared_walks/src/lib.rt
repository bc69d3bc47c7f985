//! The steps of a walk on the words that threads share: one step for each stage, made with the part
//! of the walk's CPU, whatever the other threads do meanwhile.
#![tactic(auto)]

mod activation;
mod leaving;
mod locking;
mod path;
mod sight;
mod stages;
mod stepping;
mod telling;

pub use activation::{mark_step, own_step, up_step};
pub use leaving::{child_step, own_child_step, read_step, swap_step};
pub use locking::{free_child_step, free_group_step, lock_child_step, lock_group_step};
pub use sight::{first_step, scan_step, see_child_step, see_group_step};
pub use stepping::{make_step, walk_step};
pub use telling::store_step;
