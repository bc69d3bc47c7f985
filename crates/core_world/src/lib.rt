//! The core: one world of CPUs with their timers and walks, groups and a clock; the steps by which
//! it changes, each one load, store or exchange; and what every world keeps. All that is said of
//! them stands in `specs/`; the type of the steps stands here.
#![tactic(auto)]

mod laws;
mod step;

pub use cpu_bases::{Bases, NextEvents, law_bases};
pub use laws::{law_moved, law_quiet, law_sizes};
pub use step::Step;
pub use walk_rules::{
    Event, Events, GroupState, Stage, Tree, Walk, activated, law_below, law_levels, law_paths,
    swapped,
};
