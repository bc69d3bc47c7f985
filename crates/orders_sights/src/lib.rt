//! What an end of a case shows: which groups are awake and by which child, when CPUs that sleep
//! wake, who answers for each of their global timers, and which threads can't go on, and why.
#![tactic(auto)]

mod groups;
mod seeing;
mod sleepers;
mod threads;
mod timers;

pub use orders_ends::EndSight;
pub use orders_plain::Tried;
pub use seeing::sight;
pub use timers::timers_seen;
