//! The program tmigview as a whole: its commands `linux`, `chart`, `explain` and `stat`, with all
//! texts and statuses.
#![tactic(auto)]

mod forms;
mod outputs;
mod pairs;
mod program;
mod refusals;
mod words;

pub use linux_view::NO_MEMORY;
pub use outputs::Output;
pub use pairs::{Which, is_pair, run_pair};
pub use program::run_views;
pub use words::{Awaited, CPU_NUMBERS, Command, HYPHEN, Look, Options};
