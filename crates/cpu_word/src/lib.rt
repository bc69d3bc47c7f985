//! What a CPU shows of itself besides its timers and its walk, and the word that holds it.
#![tactic(auto)]

mod state;
mod word;

pub use state::{CpuState, MARKER_LIMIT};
pub use word::{pack_cpu, unpack_cpu};

#[cfg(test)]
mod tests;
