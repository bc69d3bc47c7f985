//! The next step of a walk, whatever its stage.

ghost use Rattle.std.specs.Prelude.{◌≡◌, true};
ghost use Rattle.shared_walks.specs.Steps.{WalkStands};
ghost use Rattle.shared_walks.specs.Walks.{GoesOn, HasReadChild, HasStepped, StepOf};
ghost use Rattle.shared_walks.specs.Walks.{is_under_way};
ghost use Rattle.walk_rules.specs.declared.walk.Stage.TheVariants as stages;

use crate::activation::{mark_step, own_step, up_step};
use crate::leaving::{child_step, own_child_step, read_step, swap_step};
use crate::locking::{free_child_step, free_group_step, lock_child_step, lock_group_step};
use crate::sight::{first_step, scan_step, see_child_step, see_group_step};
use crate::telling::store_step;
use shared_rule::{BoxPart, Run, RunName};
use std::sync::Wait;
use walk_rules::{Stage, Walk};
use wheel_core::TimerBase;

/// The walk loads its child's word: a group's, or at a leaf its CPU's.
fn any_child_step<N: RunName, B: TimerBase>(run: &Run<N, B>, part: &mut BoxPart<N, B>, walk: Walk)
    requires { WalkStands part.old walk stages.Child }
    ensures { HasReadChild walk.level part.old part.new }
{
    if walk.level == 0 {
        own_child_step(run, part, walk);
    } else {
        child_step(run, part, walk);
    }
}

/// The step of the walk's stage; false where its exchange found another word than it wanted.
fn step_from<N: RunName, B: TimerBase>(
    run: &Run<N, B>,
    part: &mut BoxPart<N, B>,
    walk: Walk,
) -> bool
    requires stands { WalkStands part.old walk walk.stage }
    requires goes_on { is_under_way walk.stage ≡ true }
    ensures { StepOf N.opening walk walk.stage result part.old part.new }
{
    match walk.stage {
        Stage::Own => own_step(run, part, walk),
        Stage::Up => return up_step(run, part, walk),
        Stage::Mark { more } => mark_step(run, part, walk, more),
        Stage::Read => read_step(run, part, walk),
        Stage::Child => any_child_step(run, part, walk),
        Stage::Swap => {
            swap_step(run, part, walk);
        },
        Stage::LockChild => return lock_child_step(run, part, walk),
        Stage::LockGroup => return lock_group_step(run, part, walk),
        Stage::SeeChild => see_child_step(run, part, walk),
        Stage::SeeGroup => see_group_step(run, part, walk),
        Stage::Scan { k } => scan_step(run, part, walk, k),
        Stage::Store => store_step(run, part, walk),
        Stage::First { k } => first_step(run, part, walk, k),
        Stage::FreeGroup => free_group_step(run, part, walk),
        Stage::FreeChild => free_child_step(run, part, walk),
        Stage::Finish | Stage::Handing => unreachable!(),
    }
    true
}

/// The walk of a part makes its next step, where it goes on. False comes only where this call's
/// exchange found another word than it wanted: at LockChild and LockGroup the word of a lock that
/// isn't 0, since another walk has it, and at Up another word of the group than this call had
/// loaded. The part remembers these words; nothing else has changed, and the step may be tried
/// again.
pub fn walk_step<N: RunName, B: TimerBase>(run: &Run<N, B>, part: &mut BoxPart<N, B>) -> bool
    requires { GoesOn part.old }
    ensures { HasStepped N.opening result part.old part.new }
{
    match part.walk() {
        Some(walk) => step_from(run, part, walk),
        None => unreachable!(),
    }
}

/// The walk of a part makes its next step, where it goes on: the step is tried again as long as
/// another walk has the lock, or has changed the word that an activation was to exchange.
pub fn make_step<N: RunName, B: TimerBase, R: Wait>(
    rt: &R,
    run: &Run<N, B>,
    part: &mut BoxPart<N, B>,
)
    requires { GoesOn part.old }
    ensures { HasStepped N.opening true part.old part.new }
{
    for _ in rt.forever() {
        if walk_step(run, part) {
            return;
        }
    }
    unreachable!()
}
