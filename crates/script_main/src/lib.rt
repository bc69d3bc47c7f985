//! All that the program `tmig` does, from its words and the bytes that it reads to its status and
//! the bytes that it writes.
#![tactic(auto)]

mod program;

pub use program::run_program;
pub use program_replies::day_text;
pub use program_texts::{
    DONE, JOB_UNKNOWN, MOST_NUMBER, NO_MEMORY, READ_FAULT, SCRIPT_REFUSED, Status, TOO_LONG,
    TRACE_REFUSED, USAGE, WORK_SPENT, WORKS_REFUSED, WRITE_FAULT, tree_text,
};
