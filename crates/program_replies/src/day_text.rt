//! The text of a day: what a play of a generated script came to, a line for each number.
//!
//! ```text
//! moments M        the moments played
//! runs R           timers that ran
//! remote X         those of them that ran on another CPU than the one on which they were queued
//! armed A          timers armed, by an operation or again by their job
//! cancels N        timers cancelled
//! idles N          CPUs gone idle
//! stays N          CPUs that tried to go idle and stayed active
//! wakes N          CPUs woken by an operation
//! refused N        operations refused
//! left N           timers left at the end
//! end T            the last jiffy
//! ```

mod days;

pub use days::print_day;
pub use run_moments::Summary;
