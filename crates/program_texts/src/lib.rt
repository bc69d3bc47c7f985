//! The words of the program `tmig`, what it reads, what it replies, and how writing a reply ends:
//! commands, inputs, texts and statuses, apart from what comes of a play or a run.
#![tactic(auto)]

mod commands;
mod entries;
mod inputs;
mod replies;
mod statuses;
mod texts;
pub mod tree_text;
mod writing;

pub use commands::{Command, MOST_NUMBER, Recipe, read_command};
pub use entries::{Entry, push_entries};
pub use inputs::{Form, Input, read_input};
pub use replies::Reply;
pub use statuses::{
    DONE, JOB_UNKNOWN, NO_MEMORY, READ_FAULT, SCRIPT_REFUSED, Status, TOO_LONG, TRACE_REFUSED,
    USAGE, WORK_SPENT, WORKS_REFUSED, WRITE_FAULT,
};
pub use writing::write_reply;
