//! A pass meets the box of its CPU.

ghost use Rattle.std.specs.Prelude.{◌≡◌};
ghost use Rattle.walk_active.specs.shared_rule.declared.parts.PassView.{PassView};
ghost use Rattle.walk_active.specs.shared_rule.Plays.{Agree, PartFits};
ghost use Rattle.walk_active.specs.shared_rule.Parts.{without_guest};
ghost use Rattle.walk_active.specs.shared_rule.Passes.{IsPassIn, knowing, with_pass};
ghost use Rattle.walk_active.specs.Activated.{IsOwnPass};

use walk_active::{CpuBox, Pass, Run, RunName, visit};
use wheel_core::TimerBase;

/// A pass goes into the box of its CPU and off again, and so the two agree, and the pass has the
/// journal of the box.
pub(crate) fn meet_own<N: RunName, B: TimerBase>(
    run: &Run<N, B>,
    pass: &mut Pass,
    cpu_box: &mut CpuBox<N, B>,
)
    requires own { IsOwnPass N.table cpu_box.old.box.cpu pass.old }
    ensures opening { cpu_box.old.box.opening ≡ N.opening }
    ensures part { cpu_box.new ≡ without_guest cpu_box.old }
    ensures pass { pass.new ≡ with_pass (knowing cpu_box.old.box.own.bases.journal) pass.old }
    ensures fits { PartFits cpu_box.old.box }
    ensures agree { (p : PassView) → IsPassIn N.table pass.old p → Agree cpu_box.old.box p }
{
    visit(run, &mut cpu_box.part, pass);
}
