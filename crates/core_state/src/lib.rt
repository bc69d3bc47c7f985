//! The core's state as code: a world of CPUs with their timers and walks, groups and a clock; its
//! readers, its parts, and how it is written.
#![tactic(auto)]

mod due;
mod laws;
mod machine;
mod parts;
mod places;
mod queueing;
mod readers;
mod shown;
mod tally;
mod tree;

pub use core_facts::{
    law_answered, law_bounds, law_covered, law_each_settled, law_frame, law_height, law_lock,
    law_mark, law_next_moment, law_once, law_once_a_level, law_own_event, law_place, law_replay,
    law_rest, law_start, law_step, law_walker,
};
pub use core_parts::{CoreCpu, CoreGroup, CpuStatus, GroupChange};
pub use machine::Core;
pub use parts::CoreParts;
pub use tally::Tally;
