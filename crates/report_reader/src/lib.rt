//! Reading a report back: the lines whose texts these bytes are, or the first line at fault.
#![tactic(auto)]

mod candidates;
mod faults;
mod names;
mod reading;
mod words;

pub use faults::{Kind, ReadReport, ReportFault};
pub use reading::read_report;
