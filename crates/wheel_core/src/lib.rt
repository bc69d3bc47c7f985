//! The rule of the timer wheel, and timer bases that keep it.
#![tactic(auto)]

mod base;
mod expiry;
mod item;
mod list_base;
mod scan;

pub use base::TimerBase;
pub use expiry::wheel_expiry;
pub use item::{Item, NoRoom};
pub use list_base::ListBase;

#[cfg(test)]
mod tests;
