//! What forbids a step of a trace that can't be made: one fact of the core, and the sentence of it.
#![tactic(auto)]

mod cause_flags;
mod cause_looks;
mod cause_steps;
mod cause_texts;
mod cause_timers;
mod causes;

pub use cause_steps::cause;
pub use cause_texts::text_of;
pub use causes::{Cause, CpuFact};
pub use step_core::{Core, apply, law_once, law_place, new_core};
