//! The plain moments of a run: those of a play, told CPU by CPU.
//!
//! All is generic over a `PlayMachine`. Each CPU tells its interrupt and its operations in a report
//! of its own, and the reports come one behind the other (`moments`).
#![tactic(auto)]

mod moments;

pub use moments::plain_moment;
pub use run_story::{law_each_settled, law_work};
