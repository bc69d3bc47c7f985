//! The words that the threads of a run share: where each stands in their table, and what it holds.
#![tactic(auto)]

mod exchange;
mod laws;
mod layout;
mod lock;
mod spot;

pub use cpu_word::CpuState;
pub use exchange::{has_migrator, joined_word, swapped_word};
pub use laws::{law_ways_back, law_words_apart};
pub use layout::{Layout, SharedWord, WORDS_OF_GROUP, WORDS_OF_LINE};
pub use lock::{pack_lock, unpack_lock};
pub use spot::{CLASSES, Spot, pack_spot, unpack_spot};

#[cfg(test)]
mod tests;
