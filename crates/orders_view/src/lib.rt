//! The command `orders` of tmigview: it reads a case, and writes where all orders of its threads
//! end, or one order of an end as a trace of steps.
#![tactic(auto)]

mod outputs;
mod program;
mod statuses;
mod texts;
mod words;

pub use linux_view::NO_MEMORY;
pub use outputs::Output;
pub use program::run_orders;
pub use statuses::{FAULT, NOT_ALL};
pub use words::{Asked, Awaited, MOST_STATES, Options};

#[cfg(test)]
mod tests;
