//! What a group's word says.

/// The state of a group (the kernel's `union tmigr_state`): which children are active, which of
/// them is the migrator, and how many exchanges were made. A state is lawful where the migrator is
/// an active child, there is no migrator exactly where no child is active, and the sequence is
/// below 2^48.
#[derive(Clone, Copy, Debug, PartialEq, Eq)]
pub struct GroupState {
    /// The set of active children: bit k stands for child k.
    pub active: u8,
    /// The active child that looks after the timers of the idle ones.
    pub migrator: Option<u8>,
    /// The number of exchanges made on this group, by which an exchange finds that the word was
    /// changed since it was read. Below 2^48 (the kernel has 16 bits, which wrap).
    pub seq: u64,
}
