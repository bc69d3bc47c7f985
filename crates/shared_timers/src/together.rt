//! A pass is brought into a part for one step on a timer, and goes from it again.

ghost use Rattle.std.specs.Prelude.{◌≡◌, [], IfNone, MatchResult, OnSome};
ghost use Rattle.wheel_core.specs.PlainBase.{NoneBehind, OneFewer, OutIsDue, next_out};
ghost use Rattle.cpu_bases.specs.CpuBases.{base_of};
ghost use Rattle.cpu_bases.specs.Laws.{HandsOut, CallKeeps};
ghost use Rattle.shared_rule.specs.declared.parts.PassView.{PassView};
ghost use Rattle.shared_rule.specs.Plays.{Agree};
ghost use Rattle.shared_rule.specs.Parts.{pass_parted, with_guest, without_guest};
ghost use Rattle.shared_rule.specs.Passes.{IsOfRun, IsPassIn};
ghost use Rattle.shared_timers.specs.Draining.{MayDrain, drained_part};
ghost use Rattle.shared_timers.specs.Queueing.{ArmedWith, FoundWith, MayArm, MayCancel};
ghost use Rattle.shared_timers.specs.Queueing.{cancelled_part};

use crate::arming::Arming;
use crate::draining::drain_step;
use crate::queueing::{arm_step, cancel_step};
use shared_rule::{BoxPart, Pass, Run, RunName, bring, part_off};
use tm_base::{Class, Jiffy, OpFault, TimerId};
use wheel_core::{Item, TimerBase};

/// A CPU tries to arm a timer at `now`, in jiffies, as `arm_step` does, with its own pass, which is
/// brought into its part for it.
pub fn arm_with<N: RunName, B: TimerBase>(
    run: &Run<N, B>,
    part: &mut BoxPart<N, B>,
    pass: &mut Pass,
    now: Jiffy,
    arming: Arming,
) -> Result<Jiffy, OpFault>
    requires run { IsOfRun N.table pass.old }
    requires alone { part.old.brought ≡ [] }
    requires now { now ≡ N.opening.clock }
    requires may { MayArm N.opening (with_guest part.old pass.old) arming }
    ensures { MatchResult result
        (ArmedWith N.table now arming part.old pass.old part.new pass.new)
        (FoundWith N.table N.opening arming.timer.0 part.old pass.old part.new pass.new) }
{
    pass.law();
    bring(run, part, pass);
    let result = arm_step(run, part, now, arming);
    part_off(run, part, pass);
    result
}

/// A timer that is queued in the part of a CPU is cancelled at `now`, in jiffies, as `cancel_step`
/// does it, with a pass that is brought into the part for it. So the two agreed.
pub fn cancel_with<N: RunName, B: TimerBase>(
    run: &Run<N, B>,
    part: &mut BoxPart<N, B>,
    pass: &mut Pass,
    now: Jiffy,
    timer: TimerId,
    line: u32,
)
    requires run { IsOfRun N.table pass.old }
    requires alone { part.old.brought ≡ [] }
    requires now { now ≡ N.opening.clock }
    requires may { MayCancel N.opening (with_guest part.old pass.old) timer }
    ensures part { part.new
        ≡ without_guest (cancelled_part timer.0 line (with_guest part.old pass.old)) }
    ensures pass { pass.new ≡ pass_parted N.table pass.old.cpu
        (cancelled_part timer.0 line (with_guest part.old pass.old)) }
    ensures agree { (p : PassView) → IsPassIn N.table pass.old p → Agree part.old.box p }
    ensures keeps { CallKeeps now part.old.box.own.bases part.new.box.own.bases }
{
    pass.law();
    bring(run, part, pass);
    cancel_step(run, part, now, timer, line);
    part_off(run, part, pass);
}

/// The next due timer of a class goes out of the part of a CPU at `now`, in jiffies, or its base
/// counts as drained, as `drain_step` does it, with a pass that is brought into the part for it.
pub fn hand_with<N: RunName, B: TimerBase>(
    run: &Run<N, B>,
    part: &mut BoxPart<N, B>,
    pass: &mut Pass,
    now: Jiffy,
    class: Class,
) -> Option<Item>
    requires run { IsOfRun N.table pass.old }
    requires alone { part.old.brought ≡ [] }
    requires now { now ≡ N.opening.clock }
    requires may { MayDrain (with_guest part.old pass.old) class }
    ensures item { result ≡ next_out now (base_of class part.old.box.own.bases) }
    ensures part { part.new
        ≡ without_guest (drained_part class (with_guest part.old pass.old)) }
    ensures pass { pass.new ≡ pass_parted N.table pass.old.cpu
        (drained_part class (with_guest part.old pass.old)) }
    ensures due { OutIsDue now (base_of class part.old.box.own.bases).items result }
    ensures one_fewer { OnSome result (OneFewer (base_of class part.old.box.own.bases)
        (base_of class part.new.box.own.bases)) }
    ensures none_behind { IfNone result (NoneBehind (base_of class part.new.box.own.bases)) }
    ensures keeps { HandsOut now class pass.old.cpu part.old.box.own.bases
        part.new.box.own.bases }
{
    pass.law();
    bring(run, part, pass);
    let item = drain_step(run, part, now, class);
    part_off(run, part, pass);
    item
}
