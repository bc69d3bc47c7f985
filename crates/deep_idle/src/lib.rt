//! Deep idle through one broadcast device: the CPUs whose own timers stop while they sleep, and
//! the one time at which the device wakes those that are due.
#![tactic(auto)]

mod device;
mod order;
mod settling;

pub use device::Device;
pub use settling::{Wakeups, settle};

#[cfg(test)]
mod tests;
