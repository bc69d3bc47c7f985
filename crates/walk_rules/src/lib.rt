//! Walks of the hierarchy: what a walk is, how it begins, what each of its stages makes of it, and
//! the rules that walks keep. What is said of them stands in `specs/`; the types stand here, and
//! the functions on a walk alone.
#![tactic(auto)]

mod begin;
mod laws;
mod stages;
mod walk;

pub use begin::begun_where;
pub use event_queue::{Event, Events};
pub use group_word::{GroupState, activated, swapped};
pub use laws::law_hierarchy;
pub use stages::{
    at_stage, child_next, first_next, first_sight, free_group_next, freed_next, leaf_event,
    mark_next, read_next, scan_next, see_child_next, see_group_next, store_next, stored_event,
    swap_next, up_next,
};
pub use tree_plan::{Tree, law_below, law_levels, law_paths};
pub use walk::{Stage, Walk, WalkKind};
