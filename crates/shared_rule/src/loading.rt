//! A pass loads a word.

ghost use Rattle.std.specs.Prelude.{◌≡◌, ◌<◌, ◌∷◌, [], length};
ghost use Rattle.shared_words.specs.Exchanges.{HasRoom};
ghost use Rattle.shared_words.specs.Layout.{IsWordOf, index_of};
ghost use Rattle.shared_rule.specs.declared.parts.PassView.{PassView};
ghost use Rattle.shared_rule.specs.Plays.{NamesCpu, seen_pass};
ghost use Rattle.shared_rule.specs.Whole.{layout_of, slot_at, state_at, timer_at};
ghost use Rattle.shared_rule.specs.Slots as slots;
ghost use Rattle.shared_rule.specs.Slots.{HasEventOf};
ghost use Rattle.shared_rule.specs.Passes.{IsOfRun, IsPassIn, with_pass};

use crate::pass::Pass;
use crate::run::{Run, RunName};
use crate::{Said, Sees, SeesState, SeesTimer, View, law_see};
use atomic_table::Play;
use shared_words::SharedWord;
use tm_base::{GroupId, TimerId};
use wheel_core::TimerBase;

/// A load of a slot by a pass.
pub struct SeesSlot;

impl Play<Said, View> for SeesSlot {
    ghost then = { slots.SeesSlot };
}

impl Pass {
    /// Loads a word. What it found, and how many receipts the pass had then, is remembered.
    pub fn see<N: RunName, B: TimerBase>(&mut self, run: &Run<N, B>, word: SharedWord) -> u64
        requires run { IsOfRun N.table self.old }
        requires word { IsWordOf (layout_of N.opening) word }
        ensures { self.new
            ≡ with_pass (seen_pass (index_of (layout_of N.opening) word) result) self.old }
    {
        law_see();
        let place = run.layout.index(word);
        match self.seat.as_mut() {
            Some(seat) => run.words.shared.load::<Sees>(seat, place),
            None => unreachable!(),
        }
    }

    /// Loads the word of a group's state; it is the word of one. What it found is remembered as
    /// in `see`.
    pub fn see_state<N: RunName, B: TimerBase>(&mut self, run: &Run<N, B>, group: GroupId) -> u64
        requires run { IsOfRun N.table self.old }
        requires group { group.0 < length N.opening.groups }
        ensures remembered { self.new
            ≡ with_pass (seen_pass (index_of (layout_of N.opening) (state_at group.0)) result)
            self.old }
        ensures state { HasRoom result }
    {
        law_see();
        let place = run.layout.index(SharedWord::State(group));
        match self.seat.as_mut() {
            Some(seat) => run.words.shared.load::<SeesState>(seat, place),
            None => unreachable!(),
        }
    }

    /// Loads the word of a timer; it names a CPU of the run, or none. What it found is remembered
    /// as in `see`.
    pub fn see_timer<N: RunName, B: TimerBase>(&mut self, run: &Run<N, B>, timer: TimerId) -> u64
        requires run { IsOfRun N.table self.old }
        requires timer { timer.0 < N.opening.timers }
        ensures remembered { self.new
            ≡ with_pass (seen_pass (index_of (layout_of N.opening) (timer_at timer.0)) result)
            self.old }
        ensures named { (p : PassView) → IsPassIn N.table self.old p
            → NamesCpu (p ∷ []) result }
    {
        law_see();
        let place = run.layout.index(SharedWord::Timer(timer));
        match self.seat.as_mut() {
            Some(seat) => run.words.shared.load::<SeesTimer>(seat, place),
            None => unreachable!(),
        }
    }

    /// Loads a slot of a group; its event, where there is one, is that of a CPU of the run that has
    /// a group. What it found is remembered as in `see`.
    pub fn see_slot<N: RunName, B: TimerBase>(
        &mut self,
        run: &Run<N, B>,
        group: GroupId,
        child: u8,
    ) -> u64
        requires run { IsOfRun N.table self.old }
        requires group { group.0 < length N.opening.groups }
        requires child { child < 8 }
        ensures remembered { self.new
            ≡ with_pass (seen_pass (index_of (layout_of N.opening) (slot_at group.0 child)) result)
            self.old }
        ensures event { (p : PassView) → IsPassIn N.table self.old p
            → HasEventOf (p ∷ []) result }
    {
        law_see();
        let place = run.layout.index(SharedWord::Slot(group, child));
        match self.seat.as_mut() {
            Some(seat) => run.words.shared.load::<SeesSlot>(seat, place),
            None => unreachable!(),
        }
    }
}
