//! Hotplug in a settled core: a CPU leaves and comes back, and the timers of a dead one move.
#![tactic(auto)]

mod activation;
mod dead;
mod offline;
mod online;
mod whole;

pub use dead::move_dead;
pub use offline::go_offline;
pub use online::go_online;
pub use whole::is_whole;
