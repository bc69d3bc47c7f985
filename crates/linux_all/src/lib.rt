//! All that is wrong with a kernel's trace: after a misfit nothing is known, as after lost lines,
//! and the state is learnt again.
#![tactic(auto)]

mod finding;

pub use finding::{Found, check_all};
pub use linux_rules::{Misfit, Open, Tally, Verdict, check_trace};
