//! Windows of a report that make no sense: what is wrong with the jiffies and CPUs that are chosen,
//! in words.
#![tactic(auto)]

mod faults;

pub use faults::{WindowFault, window_fault, window_refused};
