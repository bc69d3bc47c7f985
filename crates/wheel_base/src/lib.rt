//! The nine-level wheel: a timer base that finds, cancels and hands out without a walk along its
//! items.
#![tactic(auto)]

mod marks;
mod moves;
mod outs;
mod place;
mod store;
mod wheel;

pub use wheel::WheelBase;

#[cfg(test)]
mod tests;
