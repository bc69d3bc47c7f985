//! Traces held against the core: whether the steps of a trace can be made one after the other from
//! the start of its machine, with an answer to each question on the way. What forbids a step that
//! can't be made `step_causes` tells. Traces as texts are of `trace_text`, and passed on.
#![tactic(auto)]

mod asking;
mod carrying;
mod checking;
mod leading;
mod reach;
mod reason;
mod starting;
mod verdict;
mod waking;

pub use asking::why;
pub use checking::check;
pub use reason::Reason;
pub use trace_text::{
    ARG_LIMIT, Command, Field, JOB_LIMIT, LINE_LIMIT, Limits, ReadTrace, Slot, Trace, TraceLine,
    TraceLines, read_trace,
};
pub use verdict::Verdict;
