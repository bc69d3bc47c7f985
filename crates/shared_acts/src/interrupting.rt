//! The end of an interrupt where the CPU is awake.

ghost use Rattle.std.specs.Prelude.{◌≡◌, [], false};
ghost use Rattle.shared_timers.specs.shared_rule.Free.{IsFree};
ghost use Rattle.shared_acts.specs.Tries.{AtWork, HasClosed};

use shared_looks::leave_step;
use shared_timers::{BoxPart, Pass, Run, RunName, bring, part_off};
use wheel_core::TimerBase;

/// An awake CPU leaves its interrupt, with its own pass.
pub fn leave_part<N: RunName, B: TimerBase>(
    run: &Run<N, B>,
    part: &mut BoxPart<N, B>,
    pass: &mut Pass,
)
    requires at_work { AtWork N.table N.opening [] 1 pass.old }
    requires own { pass.old.cpu ≡ part.old.box.cpu }
    requires free { IsFree part.old }
    requires awake { part.old.box.own.idle ≡ false }
    ensures free { IsFree part.new }
    ensures closed { HasClosed N.table pass.old pass.new }
{
    pass.law();
    part.law();
    bring(run, part, pass);
    leave_step(run, part);
    part_off(run, part, pass);
}
