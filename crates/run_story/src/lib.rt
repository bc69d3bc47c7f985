//! What a run of a script may be: the moments that come of it where each CPU has a thread of its
//! own, as a relation between the core before and after each, and the lines that are told.
#![tactic(auto)]

pub use step_play::{law_each_settled, law_rest, law_work};
