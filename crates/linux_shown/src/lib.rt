//! What stands behind a misfit of a kernel's trace for people to read: its line, its time, what was
//! known then, and what the rule wanted; and the name of an event that isn't known.
#![tactic(auto)]

mod before;
mod facts;
mod names;
mod pieces;
mod shown;
mod timers;
mod wanted;

pub use before::line_at;
pub use names::strange_name;
pub use pieces::{POINTER_DIGITS, push_count, push_pointer};
pub use shown::{push_line, push_shown};
