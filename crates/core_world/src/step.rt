//! Steps.

use tm_base::{Class, CpuId, Jiffy, TimerId};

/// One atomic step: time goes on, a CPU's own data changes, a timer moves, or a walk makes one
/// load, store or exchange, or takes or gives back one lock. There is no lock of a CPU (the
/// kernel's `tmigr_cpu.lock`, which is held through a walk): in its place stands that the CPU has a
/// walk.
#[derive(Clone, Copy)]
pub enum Step {
    /// Time goes on.
    Clock {
        /// In jiffies.
        now: Jiffy,
    },
    /// An interrupt begins.
    Enter {
        cpu: CpuId,
    },
    /// The interrupt of an active CPU ends.
    Leave {
        cpu: CpuId,
    },
    /// A timer is armed on a CPU.
    Arm {
        cpu: CpuId,
        timer: TimerId,
        class: Class,
        /// The asked expiry, in jiffies.
        expires: Jiffy,
        job: u8,
        arg: u32,
        /// The line of the script, 0 where a job arms.
        line: u32,
    },
    /// A timer is cancelled that is queued on a CPU.
    Cancel {
        cpu: CpuId,
        timer: TimerId,
        by: CpuId,
        /// The line of the script.
        line: u32,
    },
    /// The next due timer of a CPU goes out, for its job to run on the runner.
    Hand {
        cpu: CpuId,
        timer: TimerId,
        runner: CpuId,
    },
    /// Nothing of a class is due any more.
    Ticked {
        cpu: CpuId,
        class: Class,
        runner: CpuId,
    },
    /// The first timer of an offline CPU moves to another one.
    Move {
        from: CpuId,
        to: CpuId,
        timer: TimerId,
    },
    /// A CPU goes idle.
    Idle {
        cpu: CpuId,
    },
    /// A CPU becomes active.
    Wake {
        cpu: CpuId,
    },
    /// A CPU goes offline.
    Offline {
        cpu: CpuId,
    },
    /// A CPU comes online.
    Online {
        cpu: CpuId,
    },
    /// An idle CPU tells its first timer again at the end of its interrupt.
    Reeval {
        cpu: CpuId,
    },
    /// A CPU that looks after others marks an idle one, to run its timers.
    Take {
        cpu: CpuId,
        by: CpuId,
    },
    /// The marked CPU's first timer is told again by the marker.
    Carry {
        cpu: CpuId,
    },
    /// The mark is taken away without that.
    Release {
        cpu: CpuId,
    },
    /// The walk of a CPU makes its next step.
    Walk {
        cpu: CpuId,
    },
    /// The walk of a CPU that went offline, and found an event in a top without migrator, hands on
    /// to an active CPU.
    HandOn {
        cpu: CpuId,
        to: CpuId,
    },
}
