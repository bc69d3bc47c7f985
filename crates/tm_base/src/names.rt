//! Times and numbers.

ghost use Rattle.std.specs.Prelude.{◌≡◌};
ghost use Rattle.tm_base.specs.Classes.{class_text};

/// A point in time, in jiffies of one millisecond (HZ is 1000), counted from the start. Jiffies
/// don't wrap.
pub type Jiffy = u64;

/// The time of an event that doesn't come: 2^48 - 1, above every time that a call may be given.
pub const NEVER: Jiffy = 281_474_976_710_655;

const _: () = prove!(NEVER == (1 << 48) - 1);

/// The end of time: 2^47 jiffies. Each time that a call is given is below it, unless its entry says
/// otherwise.
pub const TIME_LIMIT: Jiffy = 140_737_488_355_328;

const _: () = prove!(TIME_LIMIT == 1 << 47);

/// The number of a CPU, from 0. Node n of P CPUs each has the numbers n * P to n * P + P - 1.
#[derive(Clone, Copy, Debug, PartialEq, Eq, PartialOrd, Ord)]
pub struct CpuId(pub u16);

/// The number of a group of the hierarchy, from 0, level by level from the leaves.
#[derive(Clone, Copy, Debug, PartialEq, Eq, PartialOrd, Ord)]
pub struct GroupId(pub u16);

/// A child of a group: a CPU at the lowest level, a group of the level below at the others.
#[derive(Clone, Copy, Debug, PartialEq, Eq)]
pub enum Child {
    Cpu(CpuId),
    Group(GroupId),
}

/// The number of a timer, from 0.
#[derive(Clone, Copy, Debug, PartialEq, Eq, PartialOrd, Ord)]
pub struct TimerId(pub u16);

/// Which of the three bases of a CPU a timer is queued in (the kernel's `BASE_LOCAL`, `BASE_GLOBAL`
/// and `BASE_DEF`).
#[derive(Clone, Copy, Debug, PartialEq, Eq)]
pub enum Class {
    /// Only its own CPU may run it (the kernel's `TIMER_PINNED`).
    Pinned,
    /// Any CPU may run it while its own CPU is idle.
    Global,
    /// Only its own CPU may run it, and it neither wakes it nor keeps it from idling (the kernel's
    /// `TIMER_DEFERRABLE`).
    Deferrable,
}

impl Class {
    /// The word by which scripts and reports name the class.
    pub fn word(self) -> &'static str
        ensures { result.now ≡ class_text self }
    {
        match self {
            Class::Pinned => "pinned",
            Class::Global => "global",
            Class::Deferrable => "deferrable",
        }
    }
}
