//! What a step may lack.

/// Why a step can't be made on a plain world.
#[derive(Clone, Copy, Debug, PartialEq, Eq)]
pub enum Lack {
    /// Want of memory.
    Memory,
    /// A number of the step is past those that a machine can follow.
    Range,
}
