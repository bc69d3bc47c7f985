//! Gates that hold CPUs of runs where they meet, each wait with a limit of looks, so that a body in
//! which they can't meet fails a test and doesn't hang; and whether a core is as it should be then.
#![tactic(auto)]

mod answers;
mod calls;
mod meetings;

pub use answers::is_answered;
pub use calls::{ByPoints, HeldCall, MOST_LOOKS, Place};
pub use meetings::Meeting;
pub use step_laws::{Core, is_settled, run_steps};
