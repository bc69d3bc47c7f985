//! What a CPU's thread finds out, by loads alone, on the words that threads share: whether timers
//! of other CPUs are due, and whether a CPU that is due may be marked; and the room that a call
//! takes in a CPU's part and in a pass.
#![tactic(auto)]

mod looking;
mod marks;
mod path;
mod room;
mod sight;
mod slots;

pub use looking::{look, needs_remote};
pub use marks::may_take;
pub use room::{make_room, take_room};
pub use shared_cpus::{leave_step, release_step, take_step};
pub use sight::Look;
