//! What is counted of the CPUs of a play that is watched: `counts` has the numbers and what adds to
//! them, `rows` and `columns` have their texts, for scripts and for people; `differences` compares
//! two plays, and `wakeups` lists wakeups, each with what stands behind it.
#![tactic(auto)]

mod columns;
mod counts;
mod differences;
mod rows;
mod wakeups;

pub use columns::{CELL, LABEL, SPACE, print_columns};
pub use counts::{
    Cause, CpuCounts, lived_at, no_counts, none_counted, ran_for_at, run_by_at, slept_at, woke_at,
};
pub use differences::print_comparison;
pub use rows::{print_rows, total};
pub use wakeups::{
    Reason, Wakeup, count_wakeups, last_was_for, note_wakeup, print_wakeups, set_reason,
};
