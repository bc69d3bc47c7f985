//! Who answers for what idle CPUs have told, in every machine that agrees with what was seen in a
//! kernel's trace.
#![tactic(auto)]

mod laws;
pub mod told;

pub use laws::law_rests;
pub use told::{Answer, Answers};
