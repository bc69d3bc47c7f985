//! The names that every crate of tmig shares: times in jiffies, numbers of CPUs, groups and timers,
//! the three classes of timers, the refusals of an operation, sets of CPUs, the limits, and the
//! gate by which a test holds a walk.
#![tactic(auto)]

mod cpu_set;
mod faults;
mod gates;
mod limits;
mod names;

pub use cpu_set::CpuSet;
pub use faults::{NoMemory, OpFault};
pub use gates::{FreeGate, Gate, Point};
pub use limits::{
    CPU_SET_SIZE, GROUP_SIZE, MOST_BYTES, MOST_CPUS_V1, MOST_CPUS_V2, MOST_LINES, MOST_NODE_CPUS,
    MOST_NODES, MOST_OPS, MOST_TIMERS, SCRIPT_TIME_LIMIT, WORK_LIMIT_V1, WORK_LIMIT_V2,
};
pub use names::{Child, Class, CpuId, GroupId, Jiffy, NEVER, TIME_LIMIT, TimerId};

#[cfg(test)]
mod tests;
