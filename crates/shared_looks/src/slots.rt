//! A pass loads the slots of a group.

ghost use Rattle.std.specs.Prelude.{◌<◌, length};
ghost use Rattle.shared_cpus.specs.shared_rule.Passes.{IsOfRun};
ghost use Rattle.shared_looks.specs.Sights.{HasSeenSlot, HasSeenSlots};

use event_queue::{Events, unpack_event};
use shared_cpus::{Pass, Run, RunName};
use tm_base::GroupId;
use wheel_core::TimerBase;

/// Loads the slot of a child, and puts its event into a map.
fn see_event<N: RunName, B: TimerBase>(
    run: &Run<N, B>,
    pass: &mut Pass,
    group: GroupId,
    child: u8,
    events: &mut Events,
)
    requires run { IsOfRun N.table pass.old }
    requires group { group.0 < length N.opening.groups }
    requires child { child < 8 }
    ensures { HasSeenSlot N.table N.opening group.0 child pass.old pass.new events.old events.new }
{
    let found = pass.see_slot(run, group, child);
    match unpack_event(found) {
        Some(event) => events.set(child, event),
        None => events.clear(child),
    }
}

/// Loads the eight slots of a group, one after the other, and answers their events.
pub(crate) fn see_events<N: RunName, B: TimerBase>(
    run: &Run<N, B>,
    pass: &mut Pass,
    group: GroupId,
) -> Events
    requires run { IsOfRun N.table pass.old }
    requires group { group.0 < length N.opening.groups }
    ensures { HasSeenSlots N.table N.opening group.0 8 pass.old pass.new result }
{
    let mut events = Events::new();
    for child in 0..8 {
        see_event(run, pass, group, child, &mut events);
    }
    events
}
