//! Whether a kernel's trace follows the rules of the hierarchy, line by line: exchanges, the events
//! of CPUs, the updates of events, and what groups and CPUs are while no walk is under way.
#![tactic(auto)]

pub mod cpus;
pub mod exchanges;
mod firsts;
pub mod judge;
pub mod marks;
pub mod orders;
pub mod queues;

pub use judge::{
    Course, Misfit, Open, Tally, Verdict, begin_course, check_trace, open_at, take_text,
};
pub use marks::last_start;
