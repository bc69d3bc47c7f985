//! A walk stores the event that it tells (`timerqueue_add` and `timerqueue_del` in
//! `tmigr_update_events`).

ghost use Rattle.std.specs.Prelude.{◌≡◌, ◌<◌};
ghost use Rattle.walk_rules.specs.declared.walk.Stage.TheVariants as stages;
ghost use Rattle.shared_rule.specs.Plays.{stored_box};
ghost use Rattle.shared_walks.specs.Steps.{WalkStands, on_part};

use crate::path::{at_top, group_on, side_on};
use crate::stages::stored_leaf;
use event_queue::pack_event;
use shared_rule::{BoxPart, CpuStatus, Run, RunName, Stores, law_store};
use shared_words::SharedWord;
use walk_rules::{Walk, store_next, stored_event};
use wheel_core::TimerBase;

/// The walk stores its event into its child's slot of the group, or empties the slot.
pub fn store_step<N: RunName, B: TimerBase>(run: &Run<N, B>, part: &mut BoxPart<N, B>, walk: Walk)
    requires { WalkStands part.old walk stages.Store }
    ensures { part.new ≡ on_part stored_box part.old }
{
    law_store();
    let group = group_on(run, part.cpu, walk.level);
    let child = side_on(run, part.cpu, walk.level);
    let place = run.layout.index(SharedWord::Slot(group, child));
    let top = at_top(run, part.cpu, walk.level);
    let event = stored_event(part.cpu, walk);
    let word = pack_event(event);
    run.words
        .shared
        .store::<Stores>(&mut part.seat, place, word);
    part.leaf = stored_leaf(part.cpu, walk, part.leaf);
    part.status = CpuStatus {
        walk: Some(store_next(top, walk)),
        ..part.status
    };
}
