//! An answer.

use tm_base::{CpuId, GroupId, Jiffy};

/// Who answers for the first global timer of an idle CPU.
#[derive(Clone, Copy, Debug, PartialEq, Eq)]
pub enum Cover {
    /// An active group of the CPU's path was told, and its migrators lead to this CPU, which is
    /// active.
    Migrator {
        group: GroupId,
        cpu: CpuId,
    },
    /// A CPU wakes in time: itself, or for all of the tree.
    Wake {
        cpu: CpuId,
        /// In jiffies.
        at: Jiffy,
    },
}
