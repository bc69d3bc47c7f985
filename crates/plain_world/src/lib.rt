//! The world of the core as plain code, and what a step makes of it. A world keeps nothing but its
//! number of CPUs: it can be copied and compared, and every step can be made on it, enabled or not.
#![tactic(auto)]

mod cpu;
mod due;
mod flags;
mod group;
mod hashing;
mod lack;
mod planned;
mod queueing;
mod readers;
mod same;
mod same_walk;
mod stale;
mod start;
mod steps;
mod timer_list;
mod timers;
mod walking;
mod world;

pub use cpu::PlainCpu;
pub use group::PlainGroup;
pub use lack::Lack;
pub use planned::PlannedTree;
pub use steps::make_step;
pub use timer_list::TimerList;
pub use timers::CpuTimers;
pub use walking::{walk_fits, walk_from};
pub use world::PlainWorld;
