//! A trace as a text: a list of the core's steps, with questions between them, read. `trace_explain`
//! prints it. Whether the steps of a trace can be made `trace_check` answers, on the core. Nothing
//! here needs one.
//!
//! A line feed (byte 10) ends each line, and one space parts its words, as in a script. The machine
//! is that of a script of version 2. So each trace has one text:
//!
//! ```text
//! trace 1
//! nodes N
//! cpus P                         on each node
//! timers T
//! isolated C..                   numbers of CPUs, ascending; there may be none
//! clock NOW                      a step; there may be any number of them
//! arm C T CLASS EXPIRES JOB ARG LINE
//! cancel C T BY LINE
//! hand C T R
//! ticked C CLASS R
//! move C TO T
//! take C BY
//! handon C TO
//! enter C                        and so leave, idle, wake, offline, online, reeval, carry,
//!                                release and walk
//! why C T                        a question: who answers for the timer on this CPU here?
//! end
//! ```
#![tactic(auto)]

mod answers;
mod fields;
mod lines;
mod lists;
mod reading;
mod traces;
mod words;

pub use answers::ReadTrace;
pub use lists::TraceLines;
pub use reading::read_trace;
pub use traces::{Trace, TraceLine};
pub use words::{ARG_LIMIT, Command, Field, JOB_LIMIT, LINE_LIMIT, Limits, Slot};
