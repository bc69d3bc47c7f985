//! What is answered of the steps of a trace.

/// Whether the steps of a trace can be made one after the other.
#[derive(Clone, Copy, Debug, PartialEq, Eq)]
pub enum Verdict {
    /// All of them can.
    Yes {
        /// How many there are.
        steps: u32,
    },
    /// One isn't enabled where it stands.
    No {
        /// The first such step, from 0; questions aren't counted.
        index: u32,
    },
}
