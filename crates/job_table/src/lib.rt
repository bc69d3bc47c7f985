//! Stored jobs: what a timer does when it is run.
#![tactic(auto)]

mod jobs;
mod standard;
mod table;

pub use jobs::{Job, JobCall, JobReply};
pub use standard::{Marker, OneShot, Periodic, StandardJobs};
pub use table::{JobTable, Jobs, MOST_JOBS};

#[cfg(test)]
mod tests;
