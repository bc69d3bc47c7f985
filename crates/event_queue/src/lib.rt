//! The events of a group's children: a queue of eight slots, and the word that holds one slot.
#![tactic(auto)]

mod event;
mod queue;
mod word;

pub use event::Event;
pub use queue::Events;
pub use word::{pack_event, unpack_event};

#[cfg(test)]
mod tests;
