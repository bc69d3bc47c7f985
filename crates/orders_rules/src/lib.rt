//! Rules of walks: tmig's own, and others that differ from it in what one stage of a walk does.
//! What a step makes of a world under a rule stands in `specs/`; where a step is enabled is the
//! same under all of them.
#![tactic(auto)]

mod changes;
mod laws;
mod rule;
mod sight;

pub use changes::{after, before, begun};
pub use laws::{
    law_child_first_forgets, law_early_read_forgets, law_linux_forgets, law_no_second_read_forgets,
    law_no_sequence_forgets, law_ours,
};
pub use rule::Rule;
pub use sight::Sight;
