//! The laws of the core that the table stands on, and what the rule says. The law of an access
//! names the step of the core that the access makes, or says that it makes none.

ghost use Rattle.shared_rule.specs.CoreLaws.{CoreLaws};
ghost use Rattle.core_world.specs.World.{World};
ghost use Rattle.shared_rule.specs.Laws.{Begins, Ends, FreeChildStays, FreeGroupStays};
ghost use Rattle.shared_rule.specs.Laws.{LockChildStays, LockStays, LookStays, ReadChildStays};
ghost use Rattle.shared_rule.specs.Laws.{FindMarkStays, MarkOwnStays, MarkStays};
ghost use Rattle.shared_rule.specs.Laws.{ReadGroupStays, ReadOwnStays};
ghost use Rattle.shared_rule.specs.Laws.{RiseStays, StoreStays, SwapStays};
ghost use Rattle.shared_rule.specs.Laws.{ScanStays, ScanTopStays, SeatsStay, SeeChildStays};
ghost use Rattle.shared_rule.specs.Laws.{SeeGroupStays, SeeStateStays, SeeStays, SeeTimerStays};
ghost use Rattle.shared_rule.specs.Laws.{WakeStays};
ghost use Rattle.shared_rule.specs.Slots.{SeeSlotStays};
ghost use Rattle.shared_rule.specs.TurnLaws.{EnterStays, IdleStays, LeaveStays, RetellStays};
ghost use Rattle.shared_rule.specs.TurnLaws.{ReevaluateStays, ReleaseStays, RestStays, TakeStays};
ghost use Rattle.shared_rule.specs.TurnLaws.{CarryEndStays, CarryStays, SeeCpuStays, SeeLeafStays};
ghost use Rattle.shared_rule.specs.TurnLaws.{TickStays};
ghost use Rattle.shared_rule.specs.TimerLaws.{ArmStays, CancelStays, HandStays};

use core_state::{
    law_bounds, law_frame, law_height, law_lock, law_mark, law_once_a_level, law_own_event,
    law_place, law_replay, law_rest, law_step, law_walker,
};
use core_world::law_sizes;
use tree_plan::{law_cuts, law_paths};

/// Does nothing: its contract has the laws of the core, which the lemmas on the rule take.
pub fn core_laws()
    ensures { CoreLaws }
{
    law_step();
    law_sizes();
    law_replay();
    law_height();
    law_frame();
    law_bounds();
    law_place();
    law_walker();
    law_once_a_level();
    law_lock();
    law_mark();
    law_own_event();
    law_rest();
    law_cuts();
    law_paths();
}

/// Does nothing: its contract says that words which spell a settled core show it, with the one view
/// that has all its parts.
pub fn law_begins()
    ensures { Begins }
{
    core_laws();
}

/// Does nothing: its contract says what the words of a closed table show, with the seat that has
/// all parts, where no CPU has a walk or is inside an interrupt: a settled core with these CPUs.
pub fn law_ends()
    ensures { Ends }
{
    core_laws();
}

/// Does nothing: its contract says that the rule stays where a box or a pass goes off to a seat of
/// its own, with its CPU's journal or as it was, and where two seats are joined.
pub fn law_seats()
    ensures { (o : World) → SeatsStay o }
{}

/// Does nothing: its contract says that the rule stays as an idle CPU stores its word and wakes,
/// with its own pass brought (`tmigr_cpu_activate`).
pub fn law_wake()
    ensures { (o : World) → WakeStays o }
{
    core_laws();
}

/// Does nothing: its contract says that the rule stays as an activation looks at the word of a
/// group and exchanges it, whatever others did to it meanwhile (`tmigr_active_up`).
pub fn law_rise()
    ensures look { (o : World) → LookStays o }
    ensures rise { (o : World) → RiseStays o }
{
    core_laws();
}

/// Does nothing: its contract says that the rule stays as a pass loads a word, that no step of the
/// core is made by it, and that what it found is remembered and right: a timer's word that names a
/// CPU, and one that names none, and the event in a slot.
pub fn law_see()
    ensures word { (o : World) → SeeStays o }
    ensures state { (o : World) → SeeStateStays o }
    ensures timer { (o : World) → SeeTimerStays o }
    ensures slot { (o : World) → SeeSlotStays o }
{
    core_laws();
}

/// Does nothing: its contract says that the rule stays as a walk tries to take the lock of its
/// group, whether or not another has it (`raw_spin_lock` in `tmigr_update_events`).
pub fn law_lock_group()
    ensures { (o : World) → LockStays o }
{
    core_laws();
}

/// Does nothing: its contract says that the rule stays as a walk tries to take the lock of its
/// child, whether or not another has it (`raw_spin_lock` in `tmigr_update_events`).
pub fn law_lock_child()
    ensures { (o : World) → LockChildStays o }
{
    core_laws();
}

/// Does nothing: its contract says that the rule stays as a walk gives back the lock of its group,
/// and that of its child, and then rises or ends (`raw_spin_unlock` in `tmigr_update_events`).
pub fn law_free()
    ensures group { (o : World) → FreeGroupStays o }
    ensures child { (o : World) → FreeChildStays o }
{
    core_laws();
}

/// Does nothing: its contract says that the rule stays as a walk looks, under its locks, at the
/// word of its child and of its group, at a slot of the child and at a slot of the top
/// (`tmigr_update_events`, `tmigr_next_groupevt`).
pub fn law_sight()
    ensures child { (o : World) → SeeChildStays o }
    ensures group { (o : World) → SeeGroupStays o }
    ensures scan { (o : World) → ScanStays o }
    ensures top { (o : World) → ScanTopStays o }
{
    core_laws();
}

/// Does nothing: its contract says that the rule stays as a walk that leaves reads the word of its
/// group, then its child's or at a leaf its CPU's, and then exchanges the word that it read,
/// whatever others did to it meanwhile (`tmigr_inactive_up`).
pub fn law_leave()
    ensures group { (o : World) → ReadGroupStays o }
    ensures child { (o : World) → ReadChildStays o }
    ensures own { (o : World) → ReadOwnStays o }
    ensures swap { (o : World) → SwapStays o }
{
    core_laws();
}

/// Does nothing: its contract says that the rule stays as an activation marks its CPU's slot in the
/// leaf as ignored, and its group's in the parent, and as it looks whether that one is marked
/// already (`tmigr_cpu_activate`, `tmigr_active_up`).
pub fn law_ignore()
    ensures own { (o : World) → MarkOwnStays o }
    ensures group { (o : World) → MarkStays o }
    ensures look { (o : World) → FindMarkStays o }
{
    core_laws();
}

/// Does nothing: its contract says that the rule stays as a walk stores the event that it tells in
/// its group (`timerqueue_add` and `timerqueue_del` in `tmigr_update_events`).
pub fn law_store()
    ensures { (o : World) → StoreStays o }
{
    core_laws();
}

/// Does nothing: its contract says that the rule stays as a CPU's interrupt begins and ends, as the
/// CPU goes idle, and as it tells its first event anew, with its own pass brought
/// (`run_timer_softirq`, `timer_base_try_to_set_idle`, `tmigr_cpu_new_timer`).
pub fn law_turn()
    ensures enter { (o : World) → EnterStays o }
    ensures leave { (o : World) → LeaveStays o }
    ensures idle { (o : World) → IdleStays o }
    ensures retell { (o : World) → RetellStays o }
{
    core_laws();
}

/// Does nothing: its contract says that the rule stays as a base of a CPU counts as drained, and
/// that the pass of who drained it has the receipt (`__run_timers`).
pub fn law_tick()
    ensures { (o : World) → TickStays o }
{
    core_laws();
}

/// Does nothing: its contract says that the rule stays as a pass sets the mark of a CPU, whose
/// timers it is to run, and takes it back (`tmigr_handle_remote_cpu`).
pub fn law_take()
    ensures take { (o : World) → TakeStays o }
    ensures release { (o : World) → ReleaseStays o }
{
    core_laws();
}

/// Does nothing: its contract says that the rule stays as a CPU stores its word at the end of its
/// walk out of the active sets, and at the end of its re-evaluation (`tmigr_cpu_deactivate`,
/// `tmigr_cpu_new_timer`).
pub fn law_finish()
    ensures rest { (o : World) → RestStays o }
    ensures reevaluate { (o : World) → ReevaluateStays o }
{
    core_laws();
}

/// Does nothing: its contract says that the rule stays as a pass begins to carry the next event of
/// a CPU that it has marked upwards, and as that walk ends and the mark is gone (the end of
/// `tmigr_handle_remote_cpu`).
pub fn law_carry()
    ensures begin { (o : World) → CarryStays o }
    ensures finish { (o : World) → CarryEndStays o }
{
    core_laws();
}

/// Does nothing: its contract says that the rule stays as a pass looks at the word of a CPU and at
/// its slot in its leaf, with the CPU's box, and that it finds what the box says
/// (`tmigr_handle_remote_cpu`).
pub fn law_notice()
    ensures cpu { (o : World) → SeeCpuStays o }
    ensures leaf { (o : World) → SeeLeafStays o }
{
    core_laws();
}

/// Does nothing: its contract says that the rule stays as a timer is cancelled, that the pass by
/// whose CPU it was has the receipt, and that the exchange of the timer's word finds where the
/// timer was queued (`__timer_delete`).
pub fn law_cancel()
    ensures { (o : World) → CancelStays o }
{
    core_laws();
}

/// Does nothing: its contract says that the rule stays as the next due timer of a class goes out of
/// a CPU's bases, to be run by that CPU itself or by one that has marked it, and that the pass of
/// who runs it has the receipt (`expire_timers`).
pub fn law_hand()
    ensures { (o : World) → HandStays o }
{
    core_laws();
}

/// Does nothing: its contract says that the rule stays as a CPU tries to arm a timer with its own
/// pass, which has the receipt where the timer was queued nowhere, and otherwise remembers where it
/// was queued (`__mod_timer`).
pub fn law_arm()
    ensures { (o : World) → ArmStays o }
{
    core_laws();
}
