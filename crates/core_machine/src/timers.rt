//! What a play asks of the timers of a core: to drain a base, and to move a timer.

mod draining;
mod moving;

pub use draining::drain;
pub use moving::{first_timer, move_first};
