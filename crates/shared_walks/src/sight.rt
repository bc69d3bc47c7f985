//! What a walk looks at under its locks (`tmigr_update_events`, `tmigr_next_groupevt`).

ghost use Rattle.std.specs.Prelude.{◌≡◌, ℕ};
ghost use Rattle.walk_rules.specs.declared.walk.Stage.TheVariants as stages;
ghost use Rattle.shared_rule.specs.Plays.{by_walk, child_sight, scan_sight};
ghost use Rattle.shared_walks.specs.Steps.{WalkStands, group_seen, on_part, top_seen};

use crate::path::{at_top, group_below, slot_place, state_place};
use event_queue::unpack_event;
use shared_rule::{
    BoxPart, CpuStatus, Run, RunName, Scans, ScansTop, SeesChild, SeesGroup, law_sight,
};
use shared_words::{SharedWord, has_migrator};
use walk_rules::{Walk, first_next, law_hierarchy, scan_next, see_child_next, see_group_next};
use wheel_core::TimerBase;

/// The walk loads its child's word: where the child is active, the walk ends here.
pub fn see_child_step<N: RunName, B: TimerBase>(
    run: &Run<N, B>,
    part: &mut BoxPart<N, B>,
    walk: Walk,
)
    requires { WalkStands part.old walk stages.SeeChild }
    ensures { (found : ℕ) × (part.new ≡ on_part (by_walk (child_sight found)) part.old) }
{
    law_sight();
    law_hierarchy();
    let group = group_below(run, part.cpu, walk.level);
    let place = run.layout.index(SharedWord::State(group));
    let found = run.words.shared.load::<SeesChild>(&mut part.seat, place);
    part.status = CpuStatus {
        walk: Some(see_child_next(has_migrator(found), walk)),
        ..part.status
    };
}

/// The walk loads its group's word: whether the group is active. The part remembers the load.
pub fn see_group_step<N: RunName, B: TimerBase>(
    run: &Run<N, B>,
    part: &mut BoxPart<N, B>,
    walk: Walk,
)
    requires { WalkStands part.old walk stages.SeeGroup }
    ensures { (found : ℕ) × (part.new ≡ on_part (group_seen N.opening walk found) part.old) }
{
    law_sight();
    let top = at_top(run, part.cpu, walk.level);
    let place = state_place(run, part.cpu, walk.level);
    let found = run.words.shared.load::<SeesGroup>(&mut part.seat, place);
    part.status = CpuStatus {
        walk: Some(see_group_next(has_migrator(found), top, walk)),
        ..part.status
    };
}

/// The walk loads a slot of its child, for its first event.
pub fn scan_step<N: RunName, B: TimerBase>(
    run: &Run<N, B>,
    part: &mut BoxPart<N, B>,
    walk: Walk,
    k: u8,
)
    requires { WalkStands part.old walk (stages.Scan k) }
    ensures { (found : ℕ) × (part.new ≡ on_part (by_walk (scan_sight found)) part.old) }
{
    law_sight();
    law_hierarchy();
    let group = group_below(run, part.cpu, walk.level);
    let place = run.layout.index(SharedWord::Slot(group, k));
    let found = run.words.shared.load::<Scans>(&mut part.seat, place);
    part.status = CpuStatus {
        walk: Some(scan_next(unpack_event(found), k, walk)),
        ..part.status
    };
}

/// The walk loads a slot of the top, for when its CPU has to be woken. The part remembers the load.
pub fn first_step<N: RunName, B: TimerBase>(
    run: &Run<N, B>,
    part: &mut BoxPart<N, B>,
    walk: Walk,
    k: u8,
)
    requires { WalkStands part.old walk (stages.First k) }
    ensures { (found : ℕ) × (part.new ≡ on_part (top_seen N.opening walk k found) part.old) }
{
    law_sight();
    let place = slot_place(run, part.cpu, walk.level, k);
    let found = run.words.shared.load::<ScansTop>(&mut part.seat, place);
    part.status = CpuStatus {
        walk: Some(first_next(unpack_event(found), k, walk)),
        ..part.status
    };
}
