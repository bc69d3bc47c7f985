//! The state of a group of the hierarchy, the exchanges that walks make on it, and the word that
//! holds it.
#![tactic(auto)]

mod exchange;
mod state;
mod word;

pub use exchange::{activated, looks, swapped};
pub use state::GroupState;
pub use word::{pack, unpack};

#[cfg(test)]
mod tests;
