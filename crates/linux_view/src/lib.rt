//! The command `linux` of tmigview: it reads a kernel's trace, and writes whether each line follows
//! the rules.
#![tactic(auto)]

mod commands;
mod notes;
mod statuses;
mod texts;
mod timer_texts;

pub use commands::run_view;
pub use linux_all::check_all;
pub use statuses::{
    FITS, MISFIT, MOST_TRACE_BYTES, NO_MEMORY, NO_TRACE, NOTHING, READ_FAULT, TOO_LONG, USAGE,
    WRITE_FAULT,
};
pub use texts::{all_status, print_all, print_verdict, read_fault_text, too_long_text, usage_text};
