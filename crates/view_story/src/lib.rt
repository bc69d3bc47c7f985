//! Whether a report can be a story of a script: each line by the lines before it, up to the first
//! that no run of the script prints there.
#![tactic(auto)]

pub mod closing;
pub mod covers;
pub mod faults;
pub mod judge;
pub mod moments;
pub mod operations;
pub mod places;
pub mod program;
pub mod runs;
pub mod seen;
pub mod statuses;
pub mod texts;

pub use faults::{Clause, Fault};
pub use judge::{Verdict, judge_lines};
pub use program::{Output, judge_bytes, run_story};
pub use statuses::NO_MEMORY;
