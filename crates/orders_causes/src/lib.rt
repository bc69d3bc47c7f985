//! What forbids a step of a plain world that isn't enabled: one fact of the world, as
//! `step_causes` names it of a core and says it in words.
#![tactic(auto)]

mod asking;
mod asking_timers;
mod flags;
mod groups;
mod looks;
mod steps;
mod timers;

pub use plain_world::PlainWorld;
pub use step_causes::{Cause, CpuFact, text_of};
pub use steps::cause;
