//! The laws of a CPU's bases and their journal, for whoever holds them as plain data. The functions
//! do nothing: what they say are their contracts.

ghost use Rattle.cpu_bases.specs.Laws.{ArmingKeeps, CancellingKeeps, DrainIsWhole, EachEndFits};
ghost use Rattle.cpu_bases.specs.Laws.{EachWasArmed, FirstWasArmed, HandingOutKeeps};
ghost use Rattle.cpu_bases.specs.Laws.{MovingInKeeps, MovingOutKeeps, OneEnd, QueuedOnce};
ghost use Rattle.cpu_bases.specs.Laws.{QueuedOrEnded, ReplaysOn};

/// In a legal journal each arming of a timer has at most one end, of its class and wheel expiry,
/// and isn't handed out before that.
pub fn law_journals()
    ensures one_end { OneEnd }
    ensures each_end_fits { EachEndFits }
{}

/// Each queued timer stands as the journal armed it, each arming is queued or has an end, and a
/// timer is in one base of the CPU alone; each first event is the wheel expiry of an arming; a
/// whole drain leaves nothing due; and the bases stay the replay of their journal.
pub fn law_bases()
    ensures each_was_armed { EachWasArmed }
    ensures queued_or_ended { QueuedOrEnded }
    ensures queued_once { QueuedOnce }
    ensures first_was_armed { FirstWasArmed }
    ensures drain_is_whole { DrainIsWhole }
    ensures replays_on { ReplaysOn }
{}

/// What arming, cancelling, handing out and moving keep.
pub fn law_calls()
    ensures arming { ArmingKeeps }
    ensures cancelling { CancellingKeeps }
    ensures handing_out { HandingOutKeeps }
    ensures moving_out { MovingOutKeeps }
    ensures moving_in { MovingInKeeps }
{}
