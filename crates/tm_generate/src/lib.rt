//! Scripts made from a number: many timers, and CPUs that go idle and wake.
#![tactic(auto)]

mod draws;
mod generated;

pub use generated::{MOST_MOMENTS, generate};

#[cfg(test)]
mod tests;
