//! The steps of an activation (`tmigr_active_up`).

ghost use Rattle.std.specs.Prelude.{◌≡◌, MatchBool};
ghost use Rattle.walk_rules.specs.declared.walk.Stage.TheVariants as stages;
ghost use Rattle.shared_rule.specs.Plays.{by_walk, marked_walk, own_marked_box};
ghost use Rattle.shared_walks.specs.Steps.{HasMissed, HasRisen, WalkStands, on_part};

use crate::path::{at_top, group_on, side_on, state_place};
use crate::stages::as_ignored;
use shared_rule::{
    BoxPart, CpuStatus, FindsMark, Looks, Marks, MarksOwn, Rises, Run, RunName, law_ignore,
    law_rise,
};
use shared_words::{SharedWord, has_migrator, joined_word};
use walk_rules::{Stage, Walk, at_stage, mark_next, up_next};
use wheel_core::TimerBase;

/// The bit of a slot's word by which its event is marked as ignored.
const IGNORED: u64 = 1 << 58;

/// The CPU's slot in its leaf is marked as ignored, and the walk goes on to join the leaf
/// (`tmigr_cpu_activate`).
pub fn own_step<N: RunName, B: TimerBase>(run: &Run<N, B>, part: &mut BoxPart<N, B>, walk: Walk)
    requires { WalkStands part.old walk stages.Own }
    ensures { part.new ≡ on_part own_marked_box part.old }
{
    law_ignore();
    let group = group_on(run, part.cpu, 0);
    let child = side_on(run, part.cpu, 0);
    let place = run.layout.index(SharedWord::Slot(group, child));
    run.words
        .shared
        .fetch_or::<MarksOwn>(&mut part.seat, place, IGNORED);
    part.leaf = as_ignored(part.leaf);
    part.status = CpuStatus {
        walk: Some(at_stage(walk, Stage::Up)),
        ..part.status
    };
}

/// The slot of the walk's group in its parent is marked as ignored, unless it is so already, and
/// the walk goes on there, or ends where the group had a migrator before.
pub fn mark_step<N: RunName, B: TimerBase>(
    run: &Run<N, B>,
    part: &mut BoxPart<N, B>,
    walk: Walk,
    more: bool,
)
    requires { WalkStands part.old walk (stages.Mark more) }
    ensures { part.new ≡ on_part (by_walk marked_walk) part.old }
{
    law_ignore();
    let _ = &part.cpu;
    let level = walk.level + 1;
    let group = group_on(run, part.cpu, level);
    let child = side_on(run, part.cpu, level);
    let place = run.layout.index(SharedWord::Slot(group, child));
    let next = mark_next(more, walk);
    // Mostly the mark is there already, and then nobody else's line of the cache is taken for it.
    let found = run.words.shared.load::<FindsMark>(&mut part.seat, place);
    if found | IGNORED == found {
        part.status = CpuStatus {
            walk: next,
            ..part.status
        };
        return;
    }
    run.words
        .shared
        .fetch_or::<Marks>(&mut part.seat, place, IGNORED);
    part.status = CpuStatus {
        walk: next,
        ..part.status
    };
}

/// The walk's child joins its group, and the walk goes on to mark its group's slot in the parent,
/// or ends at the top; false where the exchange found another word than was loaded here.
pub fn up_step<N: RunName, B: TimerBase>(
    run: &Run<N, B>,
    part: &mut BoxPart<N, B>,
    walk: Walk,
) -> bool
    requires { WalkStands part.old walk stages.Up }
    ensures { MatchBool result (HasRisen part.old part.new)
        (HasMissed N.opening walk.level part.old part.new) }
{
    law_rise();
    let child = side_on(run, part.cpu, walk.level);
    let top = at_top(run, part.cpu, walk.level);
    let place = state_place(run, part.cpu, walk.level);
    let old = run.words.shared.load::<Looks>(&mut part.seat, place);
    let new = joined_word(old, child);
    let found = run
        .words
        .shared
        .compare_exchange::<Rises>(&mut part.seat, place, old, new);
    if found != old {
        return false;
    }
    let more = !has_migrator(old);
    part.status = CpuStatus {
        walk: up_next(top, more, walk),
        ..part.status
    };
    true
}
