//! The laws of Play: what holds after each moment of every script's play, and what the lines of its
//! report tell. Each function does nothing; its contract is the law. For crates above, under any
//! rules of a machine: `proofs/Shape`, what holds all through a play where each rule keeps it, and
//! `proofs/Told/Tells`, what the lines of a play tell where those of each rule do.
#![tactic(auto)]

mod answered_law;
mod jiffy_laws;
mod told_laws;
mod work_laws;

pub use answered_law::law_each_answered;
pub use jiffy_laws::{law_ends, law_in_its_jiffy, law_looks, law_runners};
pub use told_laws::{law_covers, law_each_runs, law_left, law_lines};
pub use work_laws::{law_moments, law_work};
