//! What a look at a group comes to.

use tm_base::CpuId;

/// What a look of a CPU at its group at a level came to, by the words that it loaded.
#[derive(Clone, Copy, Debug, PartialEq, Eq)]
pub enum Look {
    /// The CPU has no group at that level.
    NoGroup,
    /// Another child of the group is its migrator.
    Other,
    /// None of the group's events is due and untried.
    Nothing,
    /// The first event that is due and untried is that of this CPU.
    Due { cpu: CpuId },
}
