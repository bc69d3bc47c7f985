//! What a driver asks of a core: a walk that is made alone, to its end.

mod alone;
mod finishing;
mod walking;

pub use alone::{goes_on, is_alone};
pub use finishing::finish_walk;
pub(crate) use walking::make_active;
pub use walking::{carry, come_online, go_offline, idle, make, reevaluate, wake};
