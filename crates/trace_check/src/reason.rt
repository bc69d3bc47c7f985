//! Who answers for a timer.

use tm_base::{CpuId, GroupId, Jiffy};

/// Who answers for a global timer of an online idle CPU, whatever walks and interrupts are under
/// way.
#[derive(Clone, Copy, Debug, PartialEq, Eq)]
pub enum Reason {
    /// The lowest active group of the CPU's path was told of the timer, and its migrators lead to
    /// this CPU, which is active.
    Held {
        group: GroupId,
        cpu: CpuId,
    },
    /// This CPU wakes in time: the timer's own, or one that wakes for all of the tree.
    Woken {
        cpu: CpuId,
        /// In jiffies.
        at: Jiffy,
    },
    /// A walk or an interrupt under way sees to it.
    Carried {
        /// 1: of the timer's own CPU; 2: one that carries what an inactive group was told; 3: one
        /// that takes out, or makes active, what the migrators of an active group lead to; 4: one
        /// that comes to the top, where no group is active.
        case: u8,
    },
}
