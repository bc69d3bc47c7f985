//! What a round of threads needs beside the interrupts of its CPUs: what each CPU has to do, what
//! it answers to its lines of the script, the lines of what an interrupt ran, and what all shares
//! leave.
#![tactic(auto)]

mod answers;
mod runs;
mod shares;
mod tasks;

pub use answers::answer_all;
pub use idle_wakeup::{Core, Pass, Ready, RunName, Shared};
pub use run_story::law_rest;
pub use runs::tell_runs;
pub use shares::{Share, gather};
pub use tasks::{Task, tasks_of};
