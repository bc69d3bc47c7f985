//! All that is due of a base goes out of a part.

ghost use Rattle.std.specs.Prelude.{◌≡◌, ◌+◌, ◌≤◌, ◌∷◌, [], All};
ghost use Rattle.std.specs.Prelude.{List, MatchOption, None, OnOk, length};
ghost use Rattle.std.specs.Prelude.{vec_capacity};
ghost use Rattle.cpu_bases.specs.CpuBases.{base_of};
ghost use Rattle.shared_timers.specs.shared_rule.declared.parts.PassView.{PassView};
ghost use Rattle.shared_timers.specs.shared_rule.declared.parts.Receipt.{Receipt};
ghost use Rattle.shared_timers.specs.shared_rule.Free.{HasNoneBehind};
ghost use Rattle.shared_timers.specs.shared_rule.Plays.{Agree};
ghost use Rattle.shared_timers.specs.shared_rule.Turns.{MayRunOf};
ghost use Rattle.shared_timers.specs.shared_rule.Passes.{IsOfRun, IsPassIn};
ghost use Rattle.shared_timers.specs.Draining.{MayDrain};
ghost use Rattle.shared_acts.specs.Handing.{HandsEach, HandsNone, HandsOne, MayHandEach};
ghost use Rattle.shared_acts.specs.Pieces.{HandsOutItems, HasDrainRoom, IsTimerOfRun, Piece};
ghost use Rattle.shared_acts.specs.Pieces.{but_for_bases};

use crate::runs::Runs;
use shared_looks::make_room;
use shared_timers::{BoxPart, Pass, Run, RunName, bring, drain_step, part_off};
use tm_base::{Class, Jiffy, NoMemory};
use wheel_core::{Item, TimerBase};

/// Takes room for a whole drain: in the base's journal and the receipts, in a list for what goes
/// out, and in what is told. Want of memory leaves all but room as it was.
pub fn room_for<N: RunName, B: TimerBase>(
    part: &mut BoxPart<N, B>,
    pass: &mut Pass,
    class: Class,
    items: &mut Vec<Item>,
    runs: &mut Runs,
) -> Result<(), NoMemory>
    requires none { items.old.items ≡ [] }
    ensures ok { OnOk result (HasDrainRoom class part.new pass.new (vec_capacity items.new)) }
    ensures told { OnOk result (length runs.old.runs
        + length (base_of class part.old.box.own.bases).items ≤ runs.new.capacity) }
    ensures part { part.new.box ≡ part.old.box }
    ensures brought { part.new.brought ≡ part.old.brought }
    ensures pass { pass.new ≡ record pass.old { room = pass.new.room } }
    ensures items { items.new.items ≡ items.old.items }
    ensures runs { runs.new.runs ≡ runs.old.runs }
{
    make_room(part, pass, class)?;
    let count = part.bases().base(class).len();
    items.reserve(count)?;
    runs.reserve(count)
}

/// The next due timer of a class goes out of a part in which a pass is, or the base counts as
/// drained.
fn hand_one<N: RunName, B: TimerBase>(
    run: &Run<N, B>,
    part: &mut BoxPart<N, B>,
    now: Jiffy,
    class: Class,
) -> Option<Item>
    requires now { now ≡ N.opening.clock }
    requires may { MayDrain part.old class }
    ensures { MatchOption result (HandsNone class part.old part.new)
        (HandsOne N.opening class part.old part.new) }
{
    part.law();
    drain_step(run, part, now, class)
}

/// All due timers of a class go out of a part in which a pass is, in the order of hand-out, to be
/// run by the CPU of the pass, and the base counts as drained.
fn hand_each<N: RunName, B: TimerBase>(
    run: &Run<N, B>,
    part: &mut BoxPart<N, B>,
    now: Jiffy,
    class: Class,
    items: &mut Vec<Item>,
)
    requires now { now ≡ N.opening.clock }
    requires may { MayHandEach class part.old (vec_capacity items.old) }
    requires none { items.old.items ≡ [] }
    ensures { (p : PassView) → part.old.brought ≡ p ∷ []
        → HandsEach N.opening class p part.old part.new items.new.items }
{
    while let Some(item) = hand_one(run, part, now, class) {
        items.push(item).unwrap();
    }
}

/// All due timers of a class go out of the part of a CPU, in the order of hand-out, to be run by
/// the CPU of the pass, and the base counts as drained (`__run_timers`).
pub fn hand_all<N: RunName, B: TimerBase>(
    run: &Run<N, B>,
    part: &mut BoxPart<N, B>,
    pass: &mut Pass,
    now: Jiffy,
    class: Class,
    items: &mut Vec<Item>,
)
    requires run { IsOfRun N.table pass.old }
    requires alone { part.old.brought ≡ [] }
    requires free { part.old.box.own.walk ≡ None }
    requires now { now ≡ N.opening.clock }
    requires may { (p : PassView) → IsPassIn N.table pass.old p → Agree part.old.box p
        → MayRunOf part.old.box class p }
    requires room { HasDrainRoom class part.old pass.old (vec_capacity items.old) }
    requires none { items.old.items ≡ [] }
    ensures part { but_for_bases part.old part.new }
    ensures whole { HasNoneBehind part.old.box.own.bases → HasNoneBehind part.new.box.own.bases }
    ensures pass { (receipts : List Receipt) × Piece N.table pass.old pass.new receipts [] 0
        × HandsOutItems part.old.box.cpu pass.old.cpu class items.new.items receipts }
    ensures timers { All (IsTimerOfRun N.opening) items.new.items }
    ensures fewer { length items.new.items
        ≤ length (base_of class part.old.box.own.bases).items }
{
    pass.law();
    bring(run, part, pass);
    hand_each(run, part, now, class, items);
    part_off(run, part, pass);
}
