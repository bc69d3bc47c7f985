//! Scripts: what happens in a run, as a text of lines.
//!
//! A line feed (byte 10) ends each line, and one space parts its words; there are no comments and
//! no empty lines. A number has one to thirteen digits, and no zero stands in front of another
//! digit. So each script has one text:
//!
//! ```text
//! tmig 1                         or tmig 2
//! nodes N
//! cpus P                         on each node
//! timers T
//! isolated C..                   in version 2 alone: numbers of CPUs, ascending; there may be none
//! at A                           a moment, after the one before; there may be none
//! arm C T CLASS DELAY JOB ARG    an operation; CLASS is pinned, global or deferrable (version 2)
//! cancel C T
//! idle C
//! wake C
//! offline C
//! online C
//! end E
//! ```
#![tactic(auto)]

mod draft;
mod faults;
mod isolated;
mod known;
mod laws;
mod lines;
mod lists;
mod print;
mod reading;
mod syntax;
mod words;

pub use faults::{Kind, ReadScript, ScriptFault};
pub use laws::{law_facts, law_faults};
pub use lists::{Moments, Ops};
pub use print::print_script;
pub use reading::read_script;
pub use syntax::{Moment, Op, Script, What};
