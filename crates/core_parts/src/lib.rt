//! What a group and a CPU of the core are, as code: their fields, their timers, what a step of a
//! walk makes of them, and how a timer moves from one CPU to another.
#![tactic(auto)]

mod below;
mod change;
mod cpu;
mod due;
mod group;
mod moving;
mod stale;
mod status;
mod timers;

pub use change::GroupChange;
pub use core_world::law_sizes;
pub use cpu::CoreCpu;
pub use group::CoreGroup;
pub use moving::move_between;
pub use stale::if_exchanged;
pub use status::CpuStatus;
