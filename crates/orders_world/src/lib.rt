//! Where any step of a plain world is enabled, and who answers for a timer there: for a search of
//! all orders of steps.
#![tactic(auto)]

mod answering;
mod asking;
mod asking_timers;
mod enabling;
mod leading;
mod telling;
mod waking;

pub use answering::{Answer, answer_for};
pub use enabling::enabled;
pub use plain_world::PlainWorld;
