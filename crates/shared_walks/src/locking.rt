//! A walk takes the locks of its child and of its group, and gives them back
//! (`raw_spin_lock` and `raw_spin_unlock` in `tmigr_update_events`).

ghost use Rattle.std.specs.Prelude.{◌≡◌, ◌-◌};
ghost use Rattle.walk_rules.specs.declared.walk.Stage.TheVariants as stages;
ghost use Rattle.shared_rule.specs.Plays.{by_walk, child_freed_walk, child_locked_walk};
ghost use Rattle.shared_rule.specs.Plays.{group_freed_walk, locked_walk};
ghost use Rattle.shared_walks.specs.Steps.{LockTried, WalkStands, on_part};

use crate::path::{group_below, group_on, lock_below, lock_place};
use shared_rule::{
    BoxPart, CpuStatus, FreesChild, FreesGroup, Locks, LocksChild, Run, RunName, law_free,
    law_lock_child, law_lock_group,
};
use shared_words::{SharedWord, pack_lock};
use walk_rules::{Stage, Walk, at_stage, first_sight, free_group_next, freed_next, law_hierarchy};
use wheel_core::TimerBase;

/// The walk tries to take its child's lock, and then goes on to its group's; false where the
/// exchange found another word than 0 there, since another walk has it.
pub fn lock_child_step<N: RunName, B: TimerBase>(
    run: &Run<N, B>,
    part: &mut BoxPart<N, B>,
    walk: Walk,
) -> bool
    requires { WalkStands part.old walk stages.LockChild }
    ensures { LockTried N.opening child_locked_walk (walk.level - 1) result part.old part.new }
{
    law_lock_child();
    law_hierarchy();
    let place = lock_below(run, part.cpu, walk.level);
    let mine = pack_lock(Some(part.cpu));
    let found = run
        .words
        .shared
        .compare_exchange::<LocksChild>(&mut part.seat, place, 0, mine);
    if found != 0 {
        return false;
    }
    part.status = CpuStatus {
        walk: Some(at_stage(walk, Stage::LockGroup)),
        ..part.status
    };
    true
}

/// The walk tries to take its group's lock, and then goes on to look; false where the exchange
/// found another word than 0 there, since another walk has it.
pub fn lock_group_step<N: RunName, B: TimerBase>(
    run: &Run<N, B>,
    part: &mut BoxPart<N, B>,
    walk: Walk,
) -> bool
    requires { WalkStands part.old walk stages.LockGroup }
    ensures { LockTried N.opening locked_walk walk.level result part.old part.new }
{
    law_lock_group();
    let place = lock_place(run, part.cpu, walk.level);
    let mine = pack_lock(Some(part.cpu));
    let found = run
        .words
        .shared
        .compare_exchange::<Locks>(&mut part.seat, place, 0, mine);
    if found != 0 {
        return false;
    }
    part.status = CpuStatus {
        walk: Some(at_stage(walk, first_sight(walk.level))),
        ..part.status
    };
    true
}

/// The walk gives back its group's lock, and goes on to its child's; at a leaf it rises or ends.
pub fn free_group_step<N: RunName, B: TimerBase>(
    run: &Run<N, B>,
    part: &mut BoxPart<N, B>,
    walk: Walk,
)
    requires { WalkStands part.old walk stages.FreeGroup }
    ensures { part.new ≡ on_part (by_walk group_freed_walk) part.old }
{
    law_free();
    let group = group_on(run, part.cpu, walk.level);
    let place = run.layout.index(SharedWord::Lock(group));
    run.words
        .shared
        .store::<FreesGroup>(&mut part.seat, place, 0);
    part.status = CpuStatus {
        walk: Some(free_group_next(walk)),
        ..part.status
    };
}

/// The walk gives back its child's lock, and rises or ends.
pub fn free_child_step<N: RunName, B: TimerBase>(
    run: &Run<N, B>,
    part: &mut BoxPart<N, B>,
    walk: Walk,
)
    requires { WalkStands part.old walk stages.FreeChild }
    ensures { part.new ≡ on_part (by_walk child_freed_walk) part.old }
{
    law_free();
    law_hierarchy();
    let group = group_below(run, part.cpu, walk.level);
    let place = run.layout.index(SharedWord::Lock(group));
    run.words
        .shared
        .store::<FreesChild>(&mut part.seat, place, 0);
    part.status = CpuStatus {
        walk: Some(freed_next(walk.over, walk)),
        ..part.status
    };
}
