//! How a walk begins.

ghost use Rattle.std.specs.Prelude.{◌≡◌, ◌^◌, ◌<◌, false};
ghost use Rattle.walk_rules.specs.Ranges.{IsInRange, WalkRanges};
ghost use Rattle.walk_rules.specs.Stages.{begun_where, started};
ghost use Rattle.walk_rules.specs.declared.walk.Stage.{Stage};

use crate::walk::{Stage, Walk, WalkKind};
use tm_base::{Jiffy, NEVER};

/// A walk at level 0 that knows nothing yet but these times, in jiffies.
fn started(kind: WalkKind, stage: Stage, pin: Jiffy, next: Jiffy, first: Jiffy) -> Walk
    ensures walk { result ≡ started kind stage pin next first }
    ensures in_range { next < 2 ^ 48 → WalkRanges result }
{
    Walk {
        kind,
        level: 0,
        stage,
        pin,
        next,
        first,
        best: None,
        fresh: false,
        child_on: false,
        on: false,
        over: false,
    }
}

/// A walk of a CPU without a group has its wakeup alone to set; an activation of one ends at once.
fn begun_alone(kind: WalkKind, pin: Jiffy, next: Jiffy) -> Option<Walk>
    ensures walk { (stage : Stage) → result ≡ begun_where false kind stage pin next }
    ensures in_range { next < 2 ^ 48 → IsInRange result }
{
    let walk = started(kind, Stage::Finish, pin, next, next);
    match kind {
        WalkKind::Activate => None,
        WalkKind::Deactivate => Some(walk),
        WalkKind::Offline => Some(walk),
        WalkKind::Reeval => Some(walk),
        WalkKind::Remote { by: _ } => Some(walk),
    }
}

/// A walk begins, for a CPU that has a group or not; times are in jiffies.
pub fn begun_where(
    has_group: bool,
    kind: WalkKind,
    stage: Stage,
    pin: Jiffy,
    next: Jiffy,
) -> Option<Walk>
    ensures walk { result ≡ begun_where has_group kind stage pin next }
    ensures in_range { next < 2 ^ 48 → IsInRange result }
{
    if has_group {
        Some(started(kind, stage, pin, next, NEVER))
    } else {
        begun_alone(kind, pin, next)
    }
}
