//! A pass meets the part of its CPU.

ghost use Rattle.std.specs.Prelude.{◌≡◌, []};
ghost use Rattle.shared_rule.specs.declared.parts.PassView.{PassView};
ghost use Rattle.shared_rule.specs.Plays.{Agree, PartFits};
ghost use Rattle.shared_rule.specs.Parts.{without_guest};
ghost use Rattle.shared_rule.specs.Passes.{IsOfRun, IsPassIn, knowing, with_pass};

use crate::box_part::BoxPart;
use crate::bringing::{bring, part_off};
use crate::pass::Pass;
use crate::run::{Run, RunName};
use wheel_core::TimerBase;

/// A pass goes into the part of its CPU and off again: the two agree, and the pass has the CPU's
/// journal as it is by now.
pub fn visit<N: RunName, B: TimerBase>(run: &Run<N, B>, part: &mut BoxPart<N, B>, pass: &mut Pass)
    requires run { IsOfRun N.table pass.old }
    requires own { pass.old.cpu ≡ part.old.box.cpu }
    requires alone { part.old.brought ≡ [] }
    ensures part { part.new ≡ without_guest part.old }
    ensures pass { pass.new ≡ with_pass (knowing part.old.box.own.bases.journal) pass.old }
    ensures opening { part.old.box.opening ≡ N.opening }
    ensures own { (p : PassView) → IsPassIn N.table pass.old p → p.cpu ≡ part.old.box.cpu }
    ensures fits { PartFits part.old.box }
    ensures agree { (p : PassView) → IsPassIn N.table pass.old p → Agree part.old.box p }
{
    pass.law();
    part.law();
    bring(run, part, pass);
    part_off(run, part, pass);
}
