//! A CPU marks another one, and takes the mark back.

ghost use Rattle.std.specs.Prelude.{◌≡◌, ◌⊎◌, ◌∷◌, [], Some, false, true};
ghost use Rattle.tree_plan.specs.Paths.{is_placed_in};
ghost use Rattle.shared_timers.specs.shared_rule.declared.parts.Deed.TheVariants as deeds;
ghost use Rattle.shared_timers.specs.shared_rule.Free.{IsFree};
ghost use Rattle.shared_looks.specs.Marks.{IsTakable};
ghost use Rattle.shared_acts.specs.Tries.{AtWork, HasMarked, HasUnmarked, KeepsBases};

use shared_looks::{release_step, take_step};
use shared_timers::{BoxPart, Pass, Run, RunName, bring, part_off};
use wheel_core::TimerBase;

/// The CPU of the pass marks that of the part, which is due (`tmigr_handle_remote_cpu`).
pub fn mark<N: RunName, B: TimerBase>(run: &Run<N, B>, part: &mut BoxPart<N, B>, pass: &mut Pass)
    requires at_work { AtWork N.table N.opening [] 1 pass.old }
    requires placed { is_placed_in N.opening.tree pass.old.cpu ≡ true }
    requires free { IsFree part.old }
    requires takable { IsTakable part.old.box }
    ensures free { IsFree part.new }
    ensures kept { KeepsBases part.old part.new }
    ensures mark { part.new.box.own.mark ≡ Some pass.old.cpu }
    ensures pass { HasMarked N.table part.old.box.cpu pass.old pass.new }
{
    pass.law();
    part.law();
    bring(run, part, pass);
    take_step(run, part);
    part_off(run, part, pass);
}

/// The CPU of the pass takes the mark of that of the part back, which is awake or offline by now.
pub fn take_back<N: RunName, B: TimerBase>(
    run: &Run<N, B>,
    part: &mut BoxPart<N, B>,
    pass: &mut Pass,
)
    requires marked { AtWork N.table N.opening (part.old.box.cpu ∷ []) 1 pass.old }
    requires free { IsFree part.old }
    requires awake { (part.old.box.own.online ≡ false) ⊎ (part.old.box.own.idle ≡ false) }
    ensures free { IsFree part.new }
    ensures pass { HasUnmarked N.table (deeds.Released part.old.box.cpu) pass.old pass.new }
{
    pass.law();
    part.law();
    bring(run, part, pass);
    release_step(run, part);
    part_off(run, part, pass);
}
