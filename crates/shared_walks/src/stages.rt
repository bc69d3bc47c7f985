//! What a stage makes of a part's own box, beside the walk itself.

ghost use Rattle.std.specs.Prelude.{◌≡◌, option_map};
ghost use Rattle.event_queue.specs.EventMap.{as_ignored};
ghost use Rattle.walk_rules.specs.Stages.{forget, leaf_event, read_next};
ghost use Rattle.shared_rule.specs.Plays.{leaf_after};

use event_queue::Event;
use tm_base::CpuId;
use walk_rules::{Stage, Walk, leaf_event};

/// The event marked as ignored, where there is one.
pub(crate) fn as_ignored(event: Option<Event>) -> Option<Event>
    ensures { result ≡ option_map as_ignored event }
{
    match event {
        Some(event) => Some(Event {
            ignored: true,
            ..event
        }),
        None => None,
    }
}

/// The group's word was read; whether it is still there no box can know.
pub(crate) fn read_in_box(walk: Walk) -> Walk
    ensures { result ≡ forget (read_next walk) }
{
    Walk {
        fresh: false,
        stage: Stage::Child,
        ..walk
    }
}

/// The CPU's slot in its leaf after its walk's store.
pub(crate) fn stored_leaf(cpu: CpuId, walk: Walk, old: Option<Event>) -> Option<Event>
    ensures { result ≡ leaf_after walk.level (leaf_event cpu.0 walk.next) old }
{
    if walk.level == 0 {
        leaf_event(cpu, walk.next)
    } else {
        old
    }
}
