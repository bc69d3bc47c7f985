//! What holds of every lawful world, read out of the invariant: of walks and their CPUs, locks and
//! marks, and the ranges of numbers; and what each step leaves, of worlds, walks and journals. The
//! functions do nothing: what they say are their contracts.
#![tactic(auto)]

mod cover_laws;
mod worked_rows;

ghost use Rattle.core_facts.specs.Exchanges.{EachGoesOn, EachStaysPast, NoneIsPast};
ghost use Rattle.core_facts.specs.Handing.{EachHandsOn, EachHasPlaced};
ghost use Rattle.core_facts.specs.Holders.{EachLockIsHeld};
ghost use Rattle.core_facts.specs.Levels.{EachLevelIsLow, EachStageFitsLevels, LevelsStartFit};
ghost use Rattle.core_facts.specs.Levels.{LevelsStayFit};
ghost use Rattle.core_facts.specs.Marked.{EachMarkFits};
ghost use Rattle.core_facts.specs.Places.{EachPlaceFits};
ghost use Rattle.core_facts.specs.Played.{EachAddsReplay, StartsPlayed, StaysPlayed};
ghost use Rattle.core_facts.specs.Ranges.{EachInRange};
ghost use Rattle.core_facts.specs.Reach.{EachKeeps};
ghost use Rattle.core_facts.specs.Stepping.{EachStageLawful};
ghost use Rattle.core_facts.specs.Told.{EachHasToldOwn};
ghost use Rattle.core_facts.specs.Walkers.{EachWalkerIs};

pub use core_laws::{law_start, law_step};
use core_world::{law_quiet, law_sizes};
pub use cover_laws::{
    law_always_answered, law_answered, law_cover, law_covered, law_each_settled, law_next_moment,
    law_once, law_rest, law_rest_events,
};
use cpu_bases::{law_bases, law_calls};
pub use event_queue::{Event, Events};
use tree_plan::{law_cuts, law_paths};
pub use walk_rules::{Walk, law_hierarchy};
pub use worked_rows::{
    row_carried_alone, row_early_read_breaks, row_forgotten_event, row_lost_exchange,
    row_settled_cover, row_stale_exchange_breaks, row_stale_run,
};

/// A CPU with a walk is active exactly where the walk is an activation; the other kinds are made by
/// online idle CPUs, or by a CPU that goes offline.
pub fn law_walker()
    ensures { EachWalkerIs }
{}

/// A lock names a CPU exactly where that CPU's walk is between taking it and giving it back.
pub fn law_lock()
    ensures { EachLockIsHeld }
{}

/// A mark names a placed CPU inside its interrupt, and stands at a CPU that has a group.
pub fn law_mark()
    ensures { EachMarkFits }
{}

/// Times have 48 bits, and the CPUs, groups and timers that are named are there.
pub fn law_bounds()
    ensures { EachInRange }
{}

/// A walk that hands on is that of a CPU that went offline, with an event that comes; it holds no
/// lock, and another placed CPU is online.
pub fn law_handing()
    ensures { EachHandsOn }
{}

/// Some placed CPU is online.
pub fn law_some_placed()
    ensures { EachHasPlaced }
{}

/// The group, the child, the slot and the next level that a walk's step names are there.
pub fn law_place()
    ensures { EachPlaceFits }
{}

/// As a walk that isn't an activation finishes, its CPU's slot in the leaf says what the CPU's
/// timers say.
pub fn law_own_event()
    ensures { EachHasToldOwn }
{}

/// A step changes the data of its own CPU, of another one for a timer that moves, and of a group
/// for a walk; journals only grow, and the clock never falls.
pub fn law_frame()
    ensures { EachKeeps }
{
    law_sizes();
}

/// A walk goes on from stage to stage and level to level but where an exchange fails, and makes at
/// most one exchange at each level.
pub fn law_once_a_level()
    ensures goes_on { EachGoesOn }
    ensures stays_past { EachStaysPast }
    ensures none_past { NoneIsPast }
{
    law_frame();
}

/// A CPU's bases are what its journal makes when it is played again from empty ones: so they begin,
/// and each step keeps it, since what it makes of them its entries tell.
pub fn law_replay()
    ensures starts { StartsPlayed }
    ensures adds { EachAddsReplay }
    ensures stays { StaysPlayed }
{
    law_bases();
    law_calls();
    law_frame();
}

/// What a walk's step at a stage makes of a lawful world is lawful.
pub fn law_stage()
    ensures { EachStageLawful }
{
    law_step();
}

/// A walk stands below level 3; at level 0 where its CPU has no group, and there it has read no
/// event of a child. So it begins, and each step keeps it where the invariant holds.
pub fn law_height()
    ensures starts { LevelsStartFit }
    ensures stays { LevelsStayFit }
    ensures stage { EachStageFitsLevels }
    ensures low { EachLevelIsLow }
{
    law_cuts();
    law_paths();
    law_quiet();
    law_sizes();
}
