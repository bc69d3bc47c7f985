//! The steps of a CPU, whatever the step, and the end of its walk, whatever its kind.

ghost use Rattle.std.specs.Prelude.{◌≡◌};
ghost use Rattle.shared_cpus.specs.Conditions.{CanFinish};
ghost use Rattle.shared_cpus.specs.Steps.{MayMake, ended, made};

use crate::ending::{carried_step, reevaluated_step, rest_step};
use crate::marking::{carry_step, release_step, take_step};
use crate::turns::{enter_step, idle_step, leave_step, retell_step, wake_step};
use core_world::Step;
use shared_rule::{BoxPart, Run, RunName};
use walk_rules::WalkKind;
use wheel_core::TimerBase;

/// Makes a step of the part's CPU, with the pass that is brought: its own for those of its
/// interrupt, idling and waking, and for Take, Carry and Release that of the CPU that marks it.
pub fn cpu_step<N: RunName, B: TimerBase>(run: &Run<N, B>, part: &mut BoxPart<N, B>, step: &Step)
    requires { MayMake part.old step.now }
    ensures { part.new ≡ made step.now part.old }
{
    match step {
        Step::Idle { cpu: _ } => idle_step(run, part),
        Step::Wake { cpu: _ } => wake_step(run, part),
        Step::Enter { cpu: _ } => enter_step(run, part),
        Step::Leave { cpu: _ } => leave_step(run, part),
        Step::Reeval { cpu: _ } => retell_step(run, part),
        Step::Take { cpu: _, by: _ } => take_step(run, part),
        Step::Carry { cpu: _ } => carry_step(run, part),
        Step::Release { cpu: _ } => release_step(run, part),
        _ => unreachable!(),
    }
}

/// Ends the walk of the part's CPU, with the pass that is brought: the CPU's own, and for a
/// carrying walk that of the CPU that set the mark. An activation ends with its last exchange, and
/// never so.
pub fn finish_step<N: RunName, B: TimerBase>(run: &Run<N, B>, part: &mut BoxPart<N, B>)
    requires { CanFinish part.old }
    ensures { part.new ≡ ended part.old.box.own.walk part.old }
{
    part.law();
    match part.walk() {
        Some(walk) => match walk.kind {
            WalkKind::Deactivate => rest_step(run, part, walk),
            WalkKind::Reeval => reevaluated_step(run, part, walk),
            WalkKind::Remote { by: _ } => carried_step(run, part),
            WalkKind::Activate | WalkKind::Offline => unreachable!(),
        },
        None => unreachable!(),
    }
}
