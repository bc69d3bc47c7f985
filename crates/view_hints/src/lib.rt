//! What is told of a line at fault, of a script or of a trace of steps: the line itself, and what
//! may stand there.
#![tactic(auto)]

mod hints;
mod lines;
mod script_forms;
mod steps_forms;

pub use hints::{script_hint, steps_hint};
pub use lines::{FIRST_PRINTED, LAST_PRINTED, MOST_PRINTED, UNPRINTED};
