//! What a step makes of a plain world under a rule, for a search of all orders of steps.
#![tactic(auto)]

mod making;
mod rewalking;

pub use making::make;
