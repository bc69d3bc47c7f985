//! Every step keeps the whole invariant of the core, and so does every list of steps.
#![tactic(auto)]

mod cpu_laws;
mod edge_laws;
mod event_laws;
mod lock_laws;
mod mark_laws;
mod origin_laws;
mod start_law;
mod timer_laws;
mod top_laws;
mod wakeup_laws;
mod walk_laws;

ghost use Rattle.core_laws.specs.Laws.{ListsStayLawful, StepsStayLawful};

use core_world::law_sizes;
pub use cpu_laws::law_cpus;
pub use edge_laws::{law_bits, law_edges, law_marks};
pub use event_laws::law_events;
pub use lock_laws::law_locks;
pub use mark_laws::law_markers;
pub use origin_laws::law_origins;
pub use start_law::law_start;
pub use timer_laws::law_timers;
pub use top_laws::law_tops;
pub use wakeup_laws::law_wakeups;
pub use walk_laws::law_walks;

/// After every step that is enabled in a lawful world the world is lawful.
pub fn law_step()
    ensures { StepsStayLawful }
{
    law_sizes();
    law_walks();
    law_edges();
    law_bits();
    law_marks();
    law_locks();
    law_events();
    law_cpus();
    law_markers();
    law_timers();
    law_wakeups();
    law_tops();
    law_origins();
}

/// After every list of steps each of which is enabled where it stands, in a world that was lawful,
/// the world is lawful.
pub fn law_steps()
    ensures { ListsStayLawful }
{
    law_step();
}
