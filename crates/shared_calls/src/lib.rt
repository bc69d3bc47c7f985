//! What a CPU's thread does with timers on the words that threads share: it arms and cancels them,
//! with a CPU's lock taken, and entry and receipt written in one step. What it looks at for others
//! comes from `shared_looks`.
#![tactic(auto)]

mod arming;
mod cancelling;

pub use arming::arm;
pub use cancelling::cancel;
pub use shared_looks::{Look, look, make_room, may_take, needs_remote};
