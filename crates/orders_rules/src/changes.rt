//! What a rule changes in a walk.

ghost use Rattle.std.specs.Prelude.{◌≡◌, ◌<◌};
ghost use Rattle.walk_rules.specs.Standing.{is_leaving};
ghost use Rattle.walk_rules.specs.Stages.{at_stage, first_lock, higher};
ghost use Rattle.orders_rules.specs.Rules.{after, after_again, before, begun, by_word};
ghost use Rattle.orders_rules.specs.Rules.{child_before, child_first, early, freed, goes_on};
ghost use Rattle.orders_rules.specs.Rules.{is_word, keeps_word, leaves_none, linux, locked};
ghost use Rattle.orders_rules.specs.Rules.{mended, read_again, sees_first, tries_again, word_of};

use crate::rule::Rule;
use crate::sight::Sight;
use event_queue::Event;
use tm_base::CpuId;
use walk_rules::{Stage, Walk, WalkKind, at_stage};

/// What stands for a group without migrator where its word is kept.
const NO_CHILD: u8 = 8;

/// Whether a walk takes its child out of the active sets.
fn is_leaving(kind: WalkKind) -> bool
    ensures { result ≡ is_leaving kind }
{
    match kind {
        WalkKind::Activate => false,
        WalkKind::Deactivate => true,
        WalkKind::Offline => true,
        WalkKind::Reeval => false,
        WalkKind::Remote { by: _ } => false,
    }
}

/// The first lock that is taken at a level.
fn first_lock(level: u8) -> Stage
    ensures { result ≡ first_lock level }
{
    if level == 0 {
        Stage::LockGroup
    } else {
        Stage::LockChild
    }
}

/// A walk one level higher, where it knows nothing yet.
fn higher(walk: Walk, stage: Stage) -> Walk
    requires { walk.level < 255 }
    ensures { result ≡ higher walk stage }
{
    Walk {
        level: walk.level + 1,
        stage,
        best: None,
        fresh: false,
        child_on: false,
        on: false,
        over: false,
        ..walk
    }
}

/// Whether an exchange takes the migrator out and leaves none.
fn leaves_none(sight: Sight, child_on: bool) -> bool
    ensures { result ≡ leaves_none sight child_on }
{
    if child_on {
        return false;
    }
    match sight.migrator {
        Some(child) => child == sight.side && sight.is_last,
        None => false,
    }
}

/// `linux`: the exchange alone says whether the walk goes on.
fn linux(sight: Sight, old: Walk, new: Walk) -> Walk
    ensures { result ≡ linux sight old.stage old new }
{
    match old.stage {
        Stage::Swap => {
            if old.fresh {
                Walk {
                    over: !leaves_none(sight, old.child_on),
                    ..new
                }
            } else {
                new
            }
        },
        Stage::SeeChild => Walk {
            over: old.over || sight.is_top,
            ..new
        },
        Stage::SeeGroup => Walk {
            over: old.over || sight.is_top,
            ..new
        },
        _ => new,
    }
}

/// The last lock of a level was given back: whether the word is read again.
fn read_again(sight: Sight, old: Walk, new: Walk) -> Walk
    ensures { result ≡ read_again sight old new }
{
    if old.over && !old.on && !sight.is_top {
        at_stage(new, Stage::Read)
    } else {
        new
    }
}

/// A word was read: whether it was read again.
fn after_again(sight: Sight, old: Walk, new: Walk) -> Walk
    requires { old.level < 255 }
    ensures { result ≡ after_again sight old new }
{
    if !old.over {
        return new;
    }
    if sight.migrator.is_none() {
        higher(old, Stage::Read)
    } else {
        at_stage(old, Stage::Finish)
    }
}

/// The group's lock was given back.
fn freed(sight: Sight, old: Walk, new: Walk) -> Walk
    ensures { result ≡ freed sight old.level old new }
{
    if old.level == 0 {
        read_again(sight, old, new)
    } else {
        new
    }
}

/// `linux-mended`: the group's word is read once more.
fn mended(sight: Sight, old: Walk, new: Walk) -> Walk
    requires { old.level < 255 }
    ensures { result ≡ mended sight old.stage old new }
{
    match old.stage {
        Stage::SeeChild => Walk {
            over: old.over || sight.is_top,
            on: new.on || sight.child_on,
            ..new
        },
        Stage::FreeGroup => freed(sight, old, new),
        Stage::FreeChild => read_again(sight, old, new),
        Stage::Read => after_again(sight, old, new),
        _ => linux(sight, old, new),
    }
}

/// `goes-on`: the walk ends at the top alone.
fn goes_on(sight: Sight, old: Walk, new: Walk) -> Walk
    ensures { result ≡ goes_on sight old.stage new }
{
    match old.stage {
        Stage::SeeGroup => Walk {
            over: sight.is_top,
            ..new
        },
        _ => new,
    }
}

/// The word of a group, as an event.
fn word_of(sight: Sight) -> Option<Event>
    ensures { result ≡ word_of sight }
{
    Some(Event {
        expiry: u64::from(sight.active),
        cpu: CpuId(u16::from(sight.migrator.unwrap_or(NO_CHILD))),
        ignored: false,
    })
}

/// Whether the word that was kept is the group's.
fn is_word(sight: Sight, kept: Option<Event>) -> bool
    ensures { result ≡ is_word sight kept }
{
    match kept {
        Some(event) => {
            event.expiry == u64::from(sight.active)
                && event.cpu.0 == u16::from(sight.migrator.unwrap_or(NO_CHILD))
        },
        None => false,
    }
}

/// `no-sequence`: a reading is fresh where the word is as it was read.
fn by_word(sight: Sight, walk: Walk) -> Walk
    ensures { result ≡ by_word sight walk.stage walk }
{
    match walk.stage {
        Stage::Swap => Walk {
            fresh: is_word(sight, walk.best),
            ..walk
        },
        _ => walk,
    }
}

/// `no-sequence`: the word that was read is kept up to the exchange.
fn keeps_word(sight: Sight, old: Walk, new: Walk) -> Walk
    ensures { result ≡ keeps_word sight old.stage old new }
{
    match old.stage {
        Stage::Read => Walk {
            best: word_of(sight),
            ..new
        },
        Stage::Swap => Walk {
            best: if old.fresh { None } else { word_of(sight) },
            ..new
        },
        _ => new,
    }
}

/// `no-second-read`: a failed exchange is tried again as it is.
fn tries_again(old: Walk, new: Walk) -> Walk
    ensures { result ≡ tries_again old.stage old new }
{
    match old.stage {
        Stage::Swap => {
            if old.fresh {
                new
            } else {
                at_stage(new, Stage::Swap)
            }
        },
        _ => new,
    }
}

/// `early-read`: the words are read where the first lock of a level would be taken.
fn sees_first(walk: Walk) -> Walk
    ensures { result ≡ sees_first walk walk.stage }
{
    match walk.stage {
        Stage::LockChild => Walk {
            child_on: false,
            stage: Stage::SeeChild,
            ..walk
        },
        Stage::LockGroup => {
            if walk.level == 0 {
                Walk {
                    child_on: false,
                    stage: Stage::SeeGroup,
                    ..walk
                }
            } else {
                walk
            }
        },
        _ => walk,
    }
}

/// What comes behind the last lock of a level, where the words were read before.
fn locked(level: u8, child_on: bool) -> Stage
    ensures { result ≡ locked level child_on }
{
    if level == 0 {
        Stage::Store
    } else if child_on {
        Stage::FreeGroup
    } else {
        Stage::Scan { k: 0 }
    }
}

/// `early-read`: the words, and then the locks.
fn early(sight: Sight, old: Walk, new: Walk) -> Walk
    ensures { result ≡ early sight old.stage old new }
{
    match old.stage {
        Stage::SeeChild => Walk {
            child_on: sight.child_on,
            over: sight.child_on,
            stage: Stage::SeeGroup,
            ..new
        },
        Stage::SeeGroup => Walk {
            over: old.over || new.over,
            stage: first_lock(old.level),
            ..new
        },
        Stage::LockGroup => at_stage(new, locked(old.level, old.child_on)),
        _ => sees_first(new),
    }
}

/// `child-first`: above a leaf the child is read first.
fn child_before(walk: Walk) -> Walk
    ensures { result ≡ child_before walk walk.stage }
{
    match walk.stage {
        Stage::Read => at_stage(walk, Stage::Child),
        _ => walk,
    }
}

/// `child-first`: the child, and then the group.
fn child_first(old: Walk, new: Walk) -> Walk
    ensures { result ≡ child_first old.stage old new }
{
    match old.stage {
        Stage::Read => at_stage(new, Stage::Swap),
        Stage::Child => at_stage(new, Stage::Read),
        Stage::Swap => {
            if old.fresh {
                new
            } else {
                Walk {
                    fresh: false,
                    stage: Stage::Child,
                    ..new
                }
            }
        },
        _ => child_before(new),
    }
}

/// The walk as a rule takes it before its step.
pub fn before(rule: Rule, sight: Sight, walk: Walk) -> Walk
    ensures { result ≡ before rule sight walk }
{
    match rule {
        Rule::NoSequence => by_word(sight, walk),
        _ => walk,
    }
}

/// The walk after its step, as a rule has it: `old` is the walk before, `new` is the walk after a
/// step of tmig's own rule.
pub fn after(rule: Rule, sight: Sight, old: Walk, new: Walk) -> Walk
    requires { old.level < 255 }
    ensures { result ≡ after rule sight old new }
{
    match rule {
        Rule::Tmig => new,
        Rule::Linux => {
            if is_leaving(old.kind) {
                linux(sight, old, new)
            } else {
                new
            }
        },
        Rule::LinuxMended => {
            if is_leaving(old.kind) {
                mended(sight, old, new)
            } else {
                new
            }
        },
        Rule::GoesOn => goes_on(sight, old, new),
        Rule::NoSequence => keeps_word(sight, old, new),
        Rule::NoSecondRead => tries_again(old, new),
        Rule::EarlyRead => early(sight, old, new),
        Rule::ChildFirst => child_first(old, new),
    }
}

/// The walk as a rule begins it.
pub fn begun(rule: Rule, walk: Walk) -> Walk
    ensures { result ≡ begun rule walk }
{
    match rule {
        Rule::EarlyRead => sees_first(walk),
        _ => walk,
    }
}
