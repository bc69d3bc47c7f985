//! What each stage makes of a walk.

ghost use Rattle.std.specs.Prelude.{◌≡◌, ◌^◌, ◌<◌, Some};
ghost use Rattle.event_queue.specs.EventMap.{FitsWord};
ghost use Rattle.walk_rules.specs.Stages.{after_sight, at_stage, best_event, child_next};
ghost use Rattle.walk_rules.specs.Stages.{first_lock};
ghost use Rattle.walk_rules.specs.Stages.{first_next, first_of, first_sight, first_stage};
ghost use Rattle.walk_rules.specs.Stages.{free_group_next, freed_next, higher, is_remote};
ghost use Rattle.walk_rules.specs.Stages.{leaf_event};
ghost use Rattle.walk_rules.specs.Stages.{mark_next, read_next, scan_next, see_child_next};
ghost use Rattle.walk_rules.specs.Stages.{see_group_next, sooner_event, store_next, stored_event};
ghost use Rattle.walk_rules.specs.Stages.{swap_next, up_next};
ghost use Rattle.walk_rules.specs.Ranges.{EventFits, IsInRange, WalkRanges};

use crate::walk::{Stage, Walk, WalkKind};
use event_queue::Event;
use tm_base::{CpuId, Jiffy, NEVER};

/// How many slots a group has.
const SLOTS: u8 = 8;

/// The walk at another stage.
pub fn at_stage(walk: Walk, stage: Stage) -> Walk
    ensures next { result ≡ at_stage walk stage }
    ensures in_range { WalkRanges walk → WalkRanges result }
{
    Walk { stage, ..walk }
}

/// One level higher, where it knows nothing yet.
fn higher(walk: Walk, stage: Stage) -> Walk
    requires { walk.level < 255 }
    ensures next { result ≡ higher walk stage }
    ensures in_range { WalkRanges walk → WalkRanges result }
{
    Walk {
        level: walk.level + 1,
        stage,
        best: None,
        fresh: false,
        child_on: false,
        on: false,
        over: false,
        ..walk
    }
}

/// After Up an activation ends at the top.
pub fn up_next(top: bool, more: bool, walk: Walk) -> Option<Walk>
    ensures next { result ≡ up_next top more walk }
    ensures in_range { WalkRanges walk → IsInRange result }
{
    if top {
        None
    } else {
        Some(at_stage(walk, Stage::Mark { more }))
    }
}

/// After Mark it ends where the group had a migrator before.
pub fn mark_next(more: bool, walk: Walk) -> Option<Walk>
    requires { walk.level < 255 }
    ensures next { result ≡ mark_next more walk }
    ensures in_range { WalkRanges walk → IsInRange result }
{
    if more {
        Some(higher(walk, Stage::Up))
    } else {
        None
    }
}

/// The group's word was read.
pub fn read_next(walk: Walk) -> Walk
    ensures next { result ≡ read_next walk }
    ensures in_range { WalkRanges walk → WalkRanges result }
{
    Walk {
        fresh: true,
        stage: Stage::Child,
        ..walk
    }
}

/// The child's word was read.
pub fn child_next(child_on: bool, walk: Walk) -> Walk
    ensures next { result ≡ child_next child_on walk }
    ensures in_range { WalkRanges walk → WalkRanges result }
{
    Walk {
        child_on,
        stage: Stage::Swap,
        ..walk
    }
}

/// The first lock that is taken at a level.
fn first_lock(level: u8) -> Stage
    ensures { result ≡ first_lock level }
{
    if level == 0 {
        Stage::LockGroup
    } else {
        Stage::LockChild
    }
}

/// The exchange was made, or it failed and read the word again.
pub fn swap_next(fresh: bool, walk: Walk) -> Walk
    ensures next { result ≡ swap_next fresh walk }
    ensures in_range { WalkRanges walk → WalkRanges result }
{
    if fresh {
        at_stage(walk, first_lock(walk.level))
    } else {
        read_next(walk)
    }
}

/// The first word that is read under the locks at a level.
pub fn first_sight(level: u8) -> Stage
    ensures { result ≡ first_sight level }
{
    if level == 0 {
        Stage::SeeGroup
    } else {
        Stage::SeeChild
    }
}

/// The child's word was read under its lock.
pub fn see_child_next(child_on: bool, walk: Walk) -> Walk
    ensures next { result ≡ see_child_next child_on walk }
    ensures in_range { WalkRanges walk → WalkRanges result }
{
    if child_on {
        Walk {
            over: true,
            stage: Stage::FreeGroup,
            ..walk
        }
    } else {
        at_stage(walk, Stage::SeeGroup)
    }
}

/// What comes after the group's word at a level.
fn after_sight(level: u8) -> Stage
    ensures { result ≡ after_sight level }
{
    if level == 0 {
        Stage::Store
    } else {
        Stage::Scan { k: 0 }
    }
}

/// The group's word was read under its lock.
pub fn see_group_next(on: bool, top: bool, walk: Walk) -> Walk
    ensures next { result ≡ see_group_next on top walk }
    ensures in_range { WalkRanges walk → WalkRanges result }
{
    Walk {
        on,
        over: on || top,
        stage: after_sight(walk.level),
        ..walk
    }
}

/// The sooner of the first event so far and one more, which counts where it is there and isn't
/// ignored.
fn sooner_event(best: Option<Event>, one_more: Option<Event>) -> Option<Event>
    ensures next { result ≡ sooner_event best one_more }
    ensures fits { EventFits best → EventFits one_more → EventFits result }
{
    let Some(event) = one_more else {
        return best;
    };
    match best {
        None if event.ignored => None,
        None => Some(event),
        Some(found) => Some(sooner_of(found, event)),
    }
}

/// The sooner of the first event so far and another one.
fn sooner_of(best: Event, event: Event) -> Event
    ensures next { Some result ≡ sooner_event (Some best) (Some event) }
    ensures fits { FitsWord best → FitsWord event → FitsWord result }
{
    if event.ignored {
        best
    } else if event.expiry < best.expiry {
        event
    } else {
        best
    }
}

/// An event of the child was read.
pub fn scan_next(event: Option<Event>, k: u8, walk: Walk) -> Walk
    requires { k < 8 }
    ensures next { result ≡ scan_next event k walk }
    ensures in_range { WalkRanges walk → EventFits event → WalkRanges result }
{
    Walk {
        best: sooner_event(walk.best, event),
        stage: if k == SLOTS - 1 {
            Stage::Store
        } else {
            Stage::Scan { k: k + 1 }
        },
        ..walk
    }
}

/// What a CPU tells its leaf.
pub fn leaf_event(cpu: CpuId, next: Jiffy) -> Option<Event>
    ensures event { result ≡ leaf_event cpu.0 next }
    ensures fits { cpu.0 < 1024 → next < 2 ^ 48 → EventFits result }
{
    if next == NEVER {
        None
    } else {
        Some(Event {
            expiry: next,
            cpu,
            ignored: false,
        })
    }
}

/// What a group tells its parent.
fn best_event(best: Option<Event>) -> Option<Event>
    ensures event { result ≡ best_event best }
    ensures fits { EventFits best → EventFits result }
{
    match best {
        Some(event) => Some(Event {
            ignored: false,
            ..event
        }),
        None => None,
    }
}

/// What Store writes.
pub fn stored_event(cpu: CpuId, walk: Walk) -> Option<Event>
    ensures event { result ≡ stored_event walk.level cpu.0 walk }
    ensures fits { WalkRanges walk → cpu.0 < 1024 → EventFits result }
{
    if walk.level == 0 {
        leaf_event(cpu, walk.next)
    } else {
        best_event(walk.best)
    }
}

/// Whether a walk is another CPU's.
fn is_remote(kind: WalkKind) -> bool
    ensures { result ≡ is_remote kind }
{
    matches!(kind, WalkKind::Remote { by: _ })
}

/// The event was written.
pub fn store_next(top: bool, walk: Walk) -> Walk
    ensures next { result ≡ store_next top walk }
    ensures in_range { WalkRanges walk → WalkRanges result }
{
    let stage = if top && !walk.on && !is_remote(walk.kind) {
        Stage::First { k: 0 }
    } else {
        Stage::FreeGroup
    };
    at_stage(walk, stage)
}

/// The sooner of a time and an event, in jiffies.
fn first_of(first: Jiffy, event: Option<Event>) -> Jiffy
    ensures { result ≡ first_of first event }
{
    match event {
        Some(event) if !event.ignored && event.expiry < first => event.expiry,
        _ => first,
    }
}

/// An event of the top was read.
pub fn first_next(event: Option<Event>, k: u8, walk: Walk) -> Walk
    requires { k < 8 }
    ensures next { result ≡ first_next event k walk }
    ensures in_range { WalkRanges walk → WalkRanges result }
{
    Walk {
        first: first_of(walk.first, event),
        stage: if k == SLOTS - 1 {
            Stage::FreeGroup
        } else {
            Stage::First { k: k + 1 }
        },
        ..walk
    }
}

/// Where a level begins.
fn first_stage(kind: WalkKind) -> Stage
    ensures { result ≡ first_stage kind }
{
    match kind {
        WalkKind::Activate => Stage::Up,
        WalkKind::Deactivate => Stage::Read,
        WalkKind::Offline => Stage::Read,
        WalkKind::Reeval => Stage::LockChild,
        WalkKind::Remote { by: _ } => Stage::LockChild,
    }
}

/// The last lock of a level was given back.
pub fn freed_next(over: bool, walk: Walk) -> Walk
    requires { walk.level < 255 }
    ensures next { result ≡ freed_next over walk }
    ensures in_range { WalkRanges walk → WalkRanges result }
{
    if over {
        at_stage(walk, Stage::Finish)
    } else {
        higher(walk, first_stage(walk.kind))
    }
}

/// The group's lock was given back.
pub fn free_group_next(walk: Walk) -> Walk
    requires { walk.level < 255 }
    ensures next { result ≡ free_group_next walk.level walk }
    ensures in_range { WalkRanges walk → WalkRanges result }
{
    if walk.level == 0 {
        freed_next(walk.over, walk)
    } else {
        at_stage(walk, Stage::FreeChild)
    }
}
