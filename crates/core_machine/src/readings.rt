//! What a play asks of a core that stands still. Most functions are the reading of their name in
//! the rules of steps; the others say of a CPU what these readings need.

mod cpu;
mod looks;
mod machine;
mod timers;

pub(crate) use cpu::sleeps;
pub use cpu::{first_event, has_interrupt, is_active, is_idle, is_online, is_placed, wakeup};
pub use looks::{hands_on, is_taken, live_expiry, looks_after, named, told_by};
pub use machine::{controller, next_interrupt, successor};
pub use timers::{count_queued, holder, queued};
