//! The table of a run: its rule, and how seats are cut and put together.

ghost use Rattle.shared_rule.specs.Plays as plays;
ghost use Rattle.shared_rule.specs.Turns as turns;
ghost use Rattle.shared_rule.specs.Timers as timers;
ghost use Rattle.tm_base.specs.declared.names.Class.TheVariants as classes;

use crate::parts::{Said, View};
use atomic_table::{Join, Play, Split, Table, TableRule};
use core_state::Core;
use std::alloc::Global;
use wheel_core::TimerBase;

/// What a table is told when it is made: the core with which the run begins, and how many walks
/// count as begun with each pass.
#[derive(Drop)]
pub struct Opening<B: TimerBase> {
    pub core: Core<B>,
    pub made: u32,
}

/// The rule: words and views show a lawful core, whatever order the threads' steps fall in.
pub struct Shown;

impl<B: TimerBase> TableRule<Said, View, Opening<B>> for Shown {
    ghost use Rattle.shared_rule.specs.Rule.{Holds};
    ghost use Rattle.shared_rule.specs.Starts.{first_view};

    ghost holds = { λ opening state. Holds opening.core state };

    ghost first = { λ opening. first_view opening.core opening.made };
}

/// The words of a run.
pub type Words<B> = Table<Said, View, Opening<B>, Shown, Global>;

/// What one of the table's users knows.
pub type Seat = atomic_table::Seat<Said, View>;

/// The first box of a view goes off.
pub struct BoxOff;

impl Split<View> for BoxOff {
    ghost use Rattle.shared_rule.specs.Rule.{first_box, without_box};

    ghost left = { without_box };

    ghost right = { first_box };
}

/// The first pass of a view goes off.
pub struct PassOff;

impl Split<View> for PassOff {
    ghost use Rattle.shared_rule.specs.Rule.{first_pass, without_pass};

    ghost left = { without_pass };

    ghost right = { first_pass };
}

/// The first pass of a view goes off, with the journal of the first box where that is its CPU's.
pub struct PassRenewed;

impl Split<View> for PassRenewed {
    ghost use Rattle.shared_rule.specs.Rule.{renewed_pass, without_pass};

    ghost left = { without_pass };

    ghost right = { renewed_pass };
}

/// Two seats' parts go to one.
pub struct Together;

impl Join<View> for Together {
    ghost use Rattle.shared_rule.specs.Rule.{nothing, together};

    ghost both = { together };

    ghost spent = { nothing };
}

/// An idle CPU stores its word and wakes, and an activation begins.
pub struct Wakes;

impl Play<Said, View> for Wakes {
    ghost then = { plays.Wakes };
}

/// A look at the word of a group.
pub struct Looks;

impl Play<Said, View> for Looks {
    ghost then = { plays.Looks };
}

/// An activation exchanges the word of a group, unless it has changed.
pub struct Rises;

impl Play<Said, View> for Rises {
    ghost then = { plays.Rises };
}

/// A pass loads a word.
pub struct Sees;

impl Play<Said, View> for Sees {
    ghost then = { plays.Sees };
}

/// A pass loads the word of a group.
pub struct SeesState;

impl Play<Said, View> for SeesState {
    ghost then = { plays.SeesState };
}

/// A pass loads the word of a timer.
pub struct SeesTimer;

impl Play<Said, View> for SeesTimer {
    ghost then = { plays.SeesTimer };
}

/// A walk tries to take the lock of its group.
pub struct Locks;

impl Play<Said, View> for Locks {
    ghost then = { plays.Locks };
}

/// A walk tries to take the lock of its child.
pub struct LocksChild;

impl Play<Said, View> for LocksChild {
    ghost then = { plays.LocksChild };
}

/// A walk gives back the lock of its group.
pub struct FreesGroup;

impl Play<Said, View> for FreesGroup {
    ghost then = { plays.FreesGroup };
}

/// A walk gives back the lock of its child.
pub struct FreesChild;

impl Play<Said, View> for FreesChild {
    ghost then = { plays.FreesChild };
}

/// A walk loads the word of its child, under the locks.
pub struct SeesChild;

impl Play<Said, View> for SeesChild {
    ghost then = { plays.SeesChild };
}

/// A walk loads the word of its group, under the locks.
pub struct SeesGroup;

impl Play<Said, View> for SeesGroup {
    ghost then = { plays.SeesGroup };
}

/// A walk loads a slot of its child.
pub struct Scans;

impl Play<Said, View> for Scans {
    ghost then = { plays.Scans };
}

/// A walk loads a slot of the top.
pub struct ScansTop;

impl Play<Said, View> for ScansTop {
    ghost then = { plays.ScansTop };
}

/// A walk loads the word of its group, before its exchange.
pub struct ReadsGroup;

impl Play<Said, View> for ReadsGroup {
    ghost then = { plays.ReadsGroup };
}

/// A walk loads the word of its child, before its exchange.
pub struct ReadsChild;

impl Play<Said, View> for ReadsChild {
    ghost then = { plays.ReadsChild };
}

/// A walk at a leaf loads the word of its CPU, before its exchange.
pub struct ReadsOwn;

impl Play<Said, View> for ReadsOwn {
    ghost then = { plays.ReadsOwn };
}

/// A walk exchanges the word of its group as a child leaves, unless it has changed.
pub struct Swaps;

impl Play<Said, View> for Swaps {
    ghost then = { plays.Swaps };
}

/// An activation marks its CPU's slot in the leaf as ignored.
pub struct MarksOwn;

impl Play<Said, View> for MarksOwn {
    ghost then = { plays.MarksOwn };
}

/// An activation marks its group's slot in the parent as ignored.
pub struct Marks;

impl Play<Said, View> for Marks {
    ghost then = { plays.Marks };
}

/// An activation looks whether its group's slot in the parent is marked as ignored already.
pub struct FindsMark;

impl Play<Said, View> for FindsMark {
    ghost then = { plays.FindsMark };
}

/// A walk stores the event that it tells.
pub struct Stores;

impl Play<Said, View> for Stores {
    ghost then = { plays.Stores };
}

/// A CPU stores its word, and its interrupt begins.
pub struct Enters;

impl Play<Said, View> for Enters {
    ghost then = { turns.Enters };
}

/// A CPU stores its word, and its interrupt ends.
pub struct Exits;

impl Play<Said, View> for Exits {
    ghost then = { turns.Exits };
}

/// A CPU stores its word and goes idle, and a walk begins.
pub struct Idles;

impl Play<Said, View> for Idles {
    ghost then = { turns.Idles };
}

/// An idle CPU loads its word, and its re-evaluation begins.
pub struct Retells;

impl Play<Said, View> for Retells {
    ghost then = { turns.Retells };
}

/// The base of pinned timers of a CPU counts as drained.
pub struct TicksPinned;

impl Play<Said, View> for TicksPinned {
    ghost then = { turns.Ticks classes.Pinned };
}

/// The base of global timers of a CPU counts as drained.
pub struct TicksGlobal;

impl Play<Said, View> for TicksGlobal {
    ghost then = { turns.Ticks classes.Global };
}

/// The base of deferrable timers of a CPU counts as drained.
pub struct TicksDeferrable;

impl Play<Said, View> for TicksDeferrable {
    ghost then = { turns.Ticks classes.Deferrable };
}

/// A pass sets the mark of a CPU in its word.
pub struct Takes;

impl Play<Said, View> for Takes {
    ghost then = { turns.Takes };
}

/// A pass takes its mark of a CPU back.
pub struct Releases;

impl Play<Said, View> for Releases {
    ghost then = { turns.Releases };
}

/// A CPU stores its word as its walk out of the active sets ends.
pub struct Rests;

impl Play<Said, View> for Rests {
    ghost then = { turns.Rests };
}

/// A CPU stores its word as its re-evaluation ends.
pub struct Reevaluates;

impl Play<Said, View> for Reevaluates {
    ghost then = { turns.Reevaluates };
}

/// A pass begins to carry the next event of a CPU that it has marked.
pub struct Carries;

impl Play<Said, View> for Carries {
    ghost then = { turns.Carries };
}

/// A pass has carried the next event of a CPU, and its mark is gone.
pub struct CarryEnds;

impl Play<Said, View> for CarryEnds {
    ghost then = { turns.CarryEnds };
}

/// A CPU's word is loaded, with its box and a pass.
pub struct SeesCpu;

impl Play<Said, View> for SeesCpu {
    ghost then = { turns.SeesCpu };
}

/// A CPU's slot in its leaf is loaded, with its box and a pass.
pub struct SeesLeaf;

impl Play<Said, View> for SeesLeaf {
    ghost then = { turns.SeesLeaf };
}

/// A timer is cancelled, by the CPU of a pass.
pub struct Cancels;

impl Play<Said, View> for Cancels {
    ghost then = { timers.Cancels };
}

/// A timer that is due goes out, to be run by the CPU of a pass.
pub struct Hands;

impl Play<Said, View> for Hands {
    ghost then = { timers.Hands };
}

/// A timer is armed, unless it is queued.
pub struct Arms;

impl Play<Said, View> for Arms {
    ghost then = { timers.Arms };
}
