//! What an end shows.

ghost use Rattle.std.specs.Prelude.{IfOk};
ghost use Rattle.orders_sights.specs.Seeing.{Sees};

use crate::groups::groups_seen;
use crate::sleepers::sleepers_seen;
use crate::threads::threads_seen;
use crate::timers::timers_seen;
use orders_ends::EndSight;
use orders_plain::Tried;
use orders_text::CaseLines;
use orders_threads::Trial;
use std::alloc::Global;
use tm_base::NoMemory;

/// What a state of a case shows: its groups, the CPUs that are online and idle, who answers for
/// their global timers, and the threads that can't go on.
pub fn sight(alloc: Global, lines: &CaseLines, state: &Trial<Tried>) -> Result<EndSight, NoMemory>
    ensures { IfOk result (Sees lines.now state.now) }
{
    let groups = groups_seen(alloc, &state.world.world)?;
    let sleepers = sleepers_seen(alloc, &state.world.world)?;
    let timers = timers_seen(alloc, &state.world.world)?;
    let stuck = threads_seen(alloc, lines, state)?;
    Ok(EndSight {
        groups,
        sleepers,
        timers,
        stuck,
    })
}
