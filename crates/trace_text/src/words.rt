//! What stands in the lines of a trace: first words, and the fields behind them.

use tm_base::{Class, CpuId, Jiffy, MOST_LINES, TimerId};

/// The bound below which the number of a job is.
pub const JOB_LIMIT: u64 = 256;

/// The bound below which the argument of a job is.
pub const ARG_LIMIT: u64 = 4_294_967_296;

/// The bound below which the number of a script's line is.
pub const LINE_LIMIT: u64 = MOST_LINES as u64 + 1;

/// The numbers of a machine by which the fields of its trace are limited.
#[derive(Clone, Copy)]
pub struct Limits {
    /// How many CPUs there are.
    pub cpus: u16,
    /// How many timers there are.
    pub timers: u16,
}

/// The first word of a line behind those of the machine.
#[derive(Clone, Copy)]
pub enum Command {
    Clock,
    Enter,
    Leave,
    Arm,
    Cancel,
    Hand,
    Ticked,
    Move,
    Idle,
    Wake,
    Offline,
    Online,
    Reeval,
    Take,
    Carry,
    Release,
    Walk,
    HandOn,
    Why,
    End,
}

/// What has to stand at a place behind a first word.
#[derive(Clone, Copy)]
pub enum Slot {
    /// The number of a CPU.
    Cpu,
    /// The number of a timer.
    Timer,
    /// A class of timers.
    Class,
    /// A time, in jiffies.
    Time,
    /// The number of a job, below 256.
    Job,
    /// An argument of a job, below 2^32.
    Arg,
    /// The number of a script's line, 0 where a job acts.
    Line,
}

/// What stands there.
#[derive(Clone, Copy)]
pub enum Field {
    Cpu(CpuId),
    Timer(TimerId),
    Class(Class),
    Time(Jiffy),
    Job(u8),
    Arg(u32),
    Line(u32),
}
