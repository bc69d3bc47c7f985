//! Delayed work over the timers of one CPU: works that are queued with a delay, become ready when
//! their timer goes out, and run one by one; and the story of every queueing; and the play of
//! a script of works.
#![tactic(auto)]

mod calls;
mod faults;
mod ledger;
mod play;
mod player;
mod printing;
mod standing;
mod stories;
mod works;

pub use calls::{WorksCall, law_works, make_call};
pub use faults::{UnknownWorkJob, WorksFault};
pub use ledger::Ledger;
pub use play::{law_plays_end, play_works};
pub use standing::{End, Placed, Standing};
pub use stories::Stories;
pub use work_script::{WorkMoment, WorkMoments, WorkOp, WorkOps, WorkScript, read_works};
pub use works::Works;
