//! Where each word stands.

ghost use Rattle.std.specs.Prelude.{◌≡◌};
ghost use Rattle.shared_words.specs.Layout.{count_of, index_of};

use tm_base::{CpuId, GroupId, TimerId};

/// The words of one line of the cache, of 64 bytes. Where two processors write to words of one
/// line, each of them takes the line from the other.
pub const WORDS_OF_LINE: usize = 8;

/// The words set apart for one group, which are two lines: its state, its lock, a slot for each of
/// its eight children, and six that say nothing.
pub const WORDS_OF_GROUP: usize = 16;

/// How many groups, CPUs and timers have words. The words stand in this order: word 0, which says
/// nothing, with as many words to itself as a group; the words of each group; a line for each CPU,
/// of which it has the first word; a word for each timer. So a write to a word of a group or a CPU
/// takes no word of another group or CPU, and not word 0, out of a processor's cache.
#[derive(Clone, Copy, Debug, PartialEq, Eq)]
pub struct Layout {
    pub groups: u16,
    pub cpus: u16,
    pub timers: u16,
}

/// One of the words of a layout.
#[derive(Clone, Copy, Debug, PartialEq, Eq)]
pub enum SharedWord {
    /// The state of a group: who is active below it, who looks after it, how many exchanges were
    /// made (the kernel's `tmigr_group.migr_state`).
    State(GroupId),
    /// The lock of a group (the kernel's `tmigr_group.lock`): which CPU's walk holds it.
    Lock(GroupId),
    /// The slot of a child, 0 to 7, among the events of a group.
    Slot(GroupId, u8),
    /// What a CPU shows of itself.
    Cpu(CpuId),
    /// Where a timer is queued.
    Timer(TimerId),
}

impl Layout {
    /// How many words there are, word 0 among them.
    pub fn count(self) -> usize
        ensures { result ≡ count_of self }
    {
        WORDS_OF_GROUP * (1 + usize::from(self.groups))
            + WORDS_OF_LINE * usize::from(self.cpus)
            + usize::from(self.timers)
    }

    /// The index of a word. Words that the layout has stand below `count`, none of them at 0, and
    /// no two at one index.
    pub fn index(self, word: SharedWord) -> usize
        ensures { result ≡ index_of self word }
    {
        let after_groups = WORDS_OF_GROUP * (1 + usize::from(self.groups));
        match word {
            SharedWord::State(group) => WORDS_OF_GROUP * (1 + usize::from(group.0)),
            SharedWord::Lock(group) => WORDS_OF_GROUP * (1 + usize::from(group.0)) + 1,
            SharedWord::Slot(group, child) => {
                WORDS_OF_GROUP * (1 + usize::from(group.0)) + 2 + usize::from(child)
            },
            SharedWord::Cpu(cpu) => after_groups + WORDS_OF_LINE * usize::from(cpu.0),
            SharedWord::Timer(timer) => {
                after_groups + WORDS_OF_LINE * usize::from(self.cpus) + usize::from(timer.0)
            },
        }
    }
}
