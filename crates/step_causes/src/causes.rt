//! Why a step isn't enabled.

use tm_base::{Class, CpuId, Jiffy, TimerId};

/// What is so of a CPU where a step isn't enabled.
#[derive(Clone, Copy)]
pub enum CpuFact {
    /// There is no CPU of this number.
    Missing,
    /// It has a walk.
    HasWalk,
    /// It has no walk.
    HasNoWalk,
    /// Its walk waits to hand on.
    WaitsToHandOn,
    /// It has a walk, which doesn't wait to hand on.
    WalksOn,
    /// Its walk is a re-evaluation.
    Reevaluates,
    Offline,
    Online,
    Idle,
    NotIdle,
    /// It is online and idle.
    OnlineIdle,
    /// It is idle, and outside its interrupt.
    IdleOutside,
    /// It is inside its interrupt.
    Inside,
    /// It is outside its interrupt.
    Outside,
    /// It isn't placed in the tree.
    Isolated,
    /// It is placed, and no other placed CPU is online.
    LastOnline,
    /// It has marked a CPU, to run its timers.
    Marks,
    /// No CPU has marked it.
    Unmarked,
    /// Its event in its leaf isn't there, is ignored or is to come.
    EventNotDue,
}

/// A fact of a core that forbids a step.
#[derive(Clone, Copy)]
pub enum Cause {
    /// A CPU is such.
    Cpu(CpuId, CpuFact),
    /// There is no timer of this number.
    NoSuchTimer {
        timer: TimerId,
    },
    /// The time, in jiffies, is before the clock.
    Past {
        at: Jiffy,
    },
    /// The time isn't below its limit, both in jiffies.
    TooLate {
        at: Jiffy,
        limit: Jiffy,
    },
    /// The CPU is marked already.
    Marked {
        cpu: CpuId,
        by: CpuId,
    },
    /// The CPU's walk waits for a lock, that of the group number `place` of its `level` (both from
    /// 0, leaves at level 0), which the walk of CPU `by` has.
    LockTaken {
        cpu: CpuId,
        level: u8,
        place: u16,
        by: CpuId,
    },
    /// The CPU would hand on to itself.
    ToItself {
        cpu: CpuId,
    },
    /// The CPU's first event is at most one jiffy ahead, at this one (the kernel's
    /// `timer_base_try_to_set_idle`).
    EventSoon {
        cpu: CpuId,
        at: Jiffy,
    },
    /// The timer is queued on CPU `on`.
    Queued {
        timer: TimerId,
        on: CpuId,
    },
    /// The timer isn't queued on the CPU.
    NotQueued {
        timer: TimerId,
        cpu: CpuId,
    },
    /// A timer of the class is behind the clock of its base on the CPU.
    Behind {
        cpu: CpuId,
        class: Class,
    },
    /// On CPU `to` a timer is behind the clock of the base to which the first timer of CPU `from`
    /// would move.
    BehindThere {
        from: CpuId,
        to: CpuId,
    },
    /// Nothing of the timer's class is due on the CPU.
    NoneDue {
        timer: TimerId,
        cpu: CpuId,
    },
    /// Of the timer's class the one of number `first` goes out before it on the CPU.
    NotNext {
        timer: TimerId,
        cpu: CpuId,
        first: u32,
    },
    /// The timer isn't what moves first from the CPU.
    NotFirst {
        timer: TimerId,
        cpu: CpuId,
    },
    /// The timer of number `timer`, of the class, is due on the CPU.
    Due {
        cpu: CpuId,
        class: Class,
        timer: u32,
    },
    /// The runner may not run timers of the class of the CPU.
    NoRunner {
        cpu: CpuId,
        class: Class,
        runner: CpuId,
    },
    /// The runner may not run the timer, by its class on the CPU.
    NoRunnerOf {
        timer: TimerId,
        cpu: CpuId,
        runner: CpuId,
    },
}
