//! What the program `tmig` replies to its words and its input, and what each of its statuses says.
//! Who makes the rounds of `run` is a parameter.
#![tactic(auto)]

pub mod day_text;
mod replies;
mod words;

pub use run_moments::{Core, Rounded};
pub use words::reply_to;
