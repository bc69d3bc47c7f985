//! What is shown of an answer.

use tm_base::{CpuId, Jiffy, TimerId};

/// The child by which a group is awake.
#[derive(Clone, Copy, PartialEq, Eq)]
pub enum Leader {
    /// A CPU, of a group at the lowest level.
    Cpu(CpuId),
    /// A group, by its level and its place there.
    Group { level: u8, place: u16 },
}

/// A group, by its level and its place there.
#[derive(Clone, Copy, PartialEq, Eq)]
pub struct GroupShown {
    pub level: u8,
    pub place: u16,
    /// Its migrator; None where the group sleeps.
    pub leader: Option<Leader>,
}

/// A CPU that is online and idle.
#[derive(Clone, Copy, PartialEq, Eq)]
pub struct SleeperShown {
    pub cpu: CpuId,
    /// When it wakes, in jiffies.
    pub wakeup: Jiffy,
}

/// Who answers for a timer.
#[derive(Clone, Copy, PartialEq, Eq)]
pub enum Answerer {
    /// A group was told of it, and its migrators lead to this CPU, which is awake.
    Held { level: u8, place: u16, cpu: CpuId },
    /// This CPU wakes in time.
    Woken { cpu: CpuId, at: Jiffy },
    /// Neither, but a walk or an interrupt is under way, which may see to it.
    Carried,
    Nobody,
}

/// A global timer of a CPU that is online and idle.
#[derive(Clone, Copy, PartialEq, Eq)]
pub struct TimerShown {
    pub timer: TimerId,
    pub cpu: CpuId,
    pub by: Answerer,
}

/// A thread that can't go on.
#[derive(Drop)]
pub struct ThreadShown {
    /// Its number, from 1.
    pub number: u64,
    /// What forbids its next step, in words.
    pub cause: Vec<u8>,
}

/// An end.
#[derive(Drop)]
pub struct EndShown {
    /// How many orders end so.
    pub orders: u128,
    pub groups: Vec<GroupShown>,
    pub sleepers: Vec<SleeperShown>,
    pub timers: Vec<TimerShown>,
    /// The threads that can't go on; none where all have made their lines.
    pub stuck: Vec<ThreadShown>,
}

/// An answer.
#[derive(Drop)]
pub struct AnswerShown {
    /// The name of the rule by which walks went.
    pub rule: Vec<u8>,
    /// How many states were met.
    pub states: u64,
    pub ends: Vec<EndShown>,
    /// Every order was followed to its end.
    pub is_whole: bool,
}
