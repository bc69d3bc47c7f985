//! Traces: a machine, and a list of steps with questions between them.

use crate::lists::TraceLines;
use core_world::Step;
use tm_base::{CpuId, CpuSet, TimerId};

/// A schedule of the core's steps, as it stands in a text.
#[derive(Drop)]
pub struct Trace {
    /// How many nodes the machine has.
    pub nodes: u8,
    /// How many CPUs each node has.
    pub cpus: u8,
    /// How many timers there are; they are numbered from 0.
    pub timers: u16,
    /// The CPUs that stand outside the hierarchy.
    pub isolated: CpuSet,
    /// The steps in order, and the questions between them.
    pub lines: TraceLines,
}

/// One line of a trace behind those of the machine.
#[derive(Clone, Copy)]
pub enum TraceLine {
    /// A step is made.
    Do(Step),
    /// Who answers for the timer on this CPU, where the steps before this line were made?
    Why { cpu: CpuId, timer: TimerId },
}
