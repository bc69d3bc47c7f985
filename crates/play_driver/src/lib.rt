//! Playing a script on any machine: moment by moment, into whoever listens.
//!
//! All is generic over a `PlayMachine`, and the contracts name the rules of any machine: `jobs`
//! drains a base, `interrupts` plays the interrupts of a moment, `operations` and `moving` what the
//! script has for it, `moments` the moments to the end, and `playing` a whole script. What each
//! part leaves is one record, `specs/PartLeaves`. The parts of a moment are public for crates
//! above, which play moments in other ways.
#![tactic(auto)]

mod closing;
mod interrupts;
mod jobs;
mod listeners;
mod moments;
mod moving;
mod operations;
mod outcomes;
mod playing;
mod telling;

pub use closing::close;
pub use interrupts::{having_interrupt, interrupt_if_due};
pub use listeners::{Listener, NoReport};
pub use moments::{moment, moment_after, moment_by_itself, moment_due, still_to_come, work_limit};
pub use moving::{clear_after, covers};
pub use operations::operation;
pub use outcomes::{Counts, DriveFault};
pub use playing::{first_unknown_job, play_on, play_unheard};
pub use telling::Telling;
