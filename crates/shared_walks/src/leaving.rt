//! A walk takes its child out of the active sets (`tmigr_inactive_up`).

ghost use Rattle.std.specs.Prelude.{◌≡◌, ◌<◌, ℕ};
ghost use Rattle.walk_rules.specs.declared.walk.Stage.TheVariants as stages;
ghost use Rattle.shared_rule.specs.Plays.{by_walk, child_read_walk, own_read_walk, read_walk};
ghost use Rattle.shared_rule.specs.Plays.{reading};
ghost use Rattle.shared_walks.specs.Steps.{WalkStands, on_part};
ghost use Rattle.shared_walks.specs.Walks.{HasSwapped};

use crate::path::{group_below, group_on, side_on};
use crate::stages::read_in_box;
use shared_rule::{
    BoxPart, CpuStatus, ReadsChild, ReadsGroup, ReadsOwn, Run, RunName, Swaps, law_leave,
};
use shared_words::{SharedWord, has_migrator, swapped_word};
use tree_plan::law_paths;
use walk_rules::{Walk, child_next, law_hierarchy, swap_next};
use wheel_core::TimerBase;

/// The walk loads its group's word, which it is to exchange.
pub fn read_step<N: RunName, B: TimerBase>(run: &Run<N, B>, part: &mut BoxPart<N, B>, walk: Walk)
    requires { WalkStands part.old walk stages.Read }
    ensures { (found : ℕ)
        × (part.new ≡ on_part (λ b. reading found (by_walk read_walk b)) part.old) }
{
    law_leave();
    let group = group_on(run, part.cpu, walk.level);
    let place = run.layout.index(SharedWord::State(group));
    let found = run.words.shared.load::<ReadsGroup>(&mut part.seat, place);
    part.read = found;
    part.status = CpuStatus {
        walk: Some(read_in_box(walk)),
        ..part.status
    };
}

/// Above a leaf the walk loads its child's word: whether the child is active.
pub fn child_step<N: RunName, B: TimerBase>(run: &Run<N, B>, part: &mut BoxPart<N, B>, walk: Walk)
    requires stands { WalkStands part.old walk stages.Child }
    requires above { 0 < walk.level }
    ensures { (found : ℕ) × (part.new ≡ on_part (by_walk (child_read_walk found)) part.old) }
{
    law_leave();
    law_hierarchy();
    let group = group_below(run, part.cpu, walk.level);
    let place = run.layout.index(SharedWord::State(group));
    let found = run.words.shared.load::<ReadsChild>(&mut part.seat, place);
    part.status = CpuStatus {
        walk: Some(child_next(has_migrator(found), walk)),
        ..part.status
    };
}

/// At a leaf the walk loads the word of its CPU, which isn't active.
pub fn own_child_step<N: RunName, B: TimerBase>(
    run: &Run<N, B>,
    part: &mut BoxPart<N, B>,
    walk: Walk,
)
    requires stands { WalkStands part.old walk stages.Child }
    requires leaf { walk.level ≡ 0 }
    ensures { part.new ≡ on_part (by_walk own_read_walk) part.old }
{
    law_leave();
    law_paths();
    let place = run.layout.index(SharedWord::Cpu(part.cpu));
    run.words.shared.load::<ReadsOwn>(&mut part.seat, place);
    part.status = CpuStatus {
        walk: Some(child_next(false, walk)),
        ..part.status
    };
}

/// The walk exchanges the word that it read, and goes on to the locks; false exactly where the
/// exchange found another word than that, which the walk then has read anew.
pub fn swap_step<N: RunName, B: TimerBase>(
    run: &Run<N, B>,
    part: &mut BoxPart<N, B>,
    walk: Walk,
) -> bool
    requires { WalkStands part.old walk stages.Swap }
    ensures { HasSwapped result part.old part.new }
{
    law_leave();
    let group = group_on(run, part.cpu, walk.level);
    let child = side_on(run, part.cpu, walk.level);
    let place = run.layout.index(SharedWord::State(group));
    let old = part.read;
    let new = swapped_word(old, child, walk.child_on);
    let found = run
        .words
        .shared
        .compare_exchange::<Swaps>(&mut part.seat, place, old, new);
    if found != old {
        part.read = found;
        part.status = CpuStatus {
            walk: Some(read_in_box(walk)),
            ..part.status
        };
        return false;
    }
    part.status = CpuStatus {
        walk: Some(swap_next(true, walk)),
        ..part.status
    };
    true
}
