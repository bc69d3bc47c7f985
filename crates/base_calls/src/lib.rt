//! Any list of calls on a timer base, and on the bases of a CPU, answers as the plain base does;
//! and the list and the wheel answer alike.
#![tactic(auto)]

pub mod bases;
mod both;
pub mod wheel;

pub use both::calls_on_both;
