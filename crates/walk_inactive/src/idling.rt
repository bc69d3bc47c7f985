//! A CPU goes idle.

ghost use Rattle.std.specs.Prelude.{◌≡◌, ◌+◌, ◌^◌, ◌<◌, suc, true, false};
ghost use Rattle.walk_rules.specs.declared.walk.WalkKind.TheVariants as kinds;
ghost use Rattle.core_world.specs.Enabled.{first_event};
ghost use Rattle.shared_cpus.specs.shared_rule.declared.parts.PassView.{PassView};
ghost use Rattle.shared_cpus.specs.shared_rule.Parts.{without_guest};
ghost use Rattle.shared_cpus.specs.shared_rule.Passes.{IsOfRun, IsPassIn, walks_of, with_pass};
ghost use Rattle.shared_cpus.specs.Conditions.{CanIdle};
ghost use Rattle.walk_inactive.specs.Ends.{HasWalkTold, HasWalked, gone_idle, pass_at_rest};
ghost use Rattle.walk_inactive.specs.Ends.{pass_rested};

use crate::telling::tell;
use shared_cpus::{BoxPart, Pass, Run, RunName, bring, finish_step, idle_step, part_off};
use shared_table::{CpuBox, Shared};
use std::sync::Wait;
use tm_base::{Gate, Jiffy};
use wheel_core::TimerBase;

/// The CPU of a part goes idle, with its own pass.
fn rest<N: RunName, B: TimerBase, G: Gate, R: Wait>(
    rt: &R,
    run: &Run<N, B>,
    part: &mut BoxPart<N, B>,
    gate: &G,
)
    requires { CanIdle part.old }
    ensures { HasWalked kinds.Deactivate gone_idle pass_at_rest part.old part.new }
{
    idle_step(run, part);
    tell(rt, run, part, gate);
    finish_step(run, part);
}

/// The CPU goes idle with its own pass, leaves its group and those above it that get inactive by
/// that, and tells its next event there (`tmigr_cpu_deactivate`). It answers when the CPU has to be
/// woken, in jiffies, or `NEVER`: at its first pinned timer, or at the first event of the top where
/// the walk found no migrator there; a CPU without a group at its first timer. One walk is begun
/// and ended. Only a lock that another walk has is tried again. It takes no memory and refuses
/// nothing.
///
/// The gate is passed each time that the walk comes to read the child's word, to exchange the
/// group's, to take its first lock at a level, and to store an event.
pub fn deactivate<N: RunName, B: TimerBase, G: Gate, R: Wait>(
    rt: &R,
    shared: &Shared<N, B>,
    pass: &mut Pass,
    cpu_box: &mut CpuBox<N, B>,
    gate: &G,
) -> Jiffy
    requires run { IsOfRun N.table pass.old }
    requires cpu { pass.old.cpu ≡ cpu_box.old.box.cpu }
    requires own { (p : PassView) → IsPassIn N.table pass.old p → p.cpu ≡ cpu_box.old.box.cpu }
    requires left { suc (walks_of pass.old.seated) < 2 ^ 32 }
    requires online { cpu_box.old.box.own.online ≡ true }
    requires awake { cpu_box.old.box.own.idle ≡ false }
    requires outside { cpu_box.old.box.own.inside ≡ false }
    requires rests { cpu_box.old.box.opening.clock + 1 < first_event cpu_box.old.box.own.bases }
    ensures told { HasWalkTold kinds.Deactivate gone_idle cpu_box.old.box cpu_box.new.box }
    ensures rest { cpu_box.new ≡ without_guest (record cpu_box.old { box = cpu_box.new.box }) }
    ensures answer { result ≡ cpu_box.new.box.own.wakeup }
    ensures pass { pass.new ≡ with_pass (pass_rested cpu_box.new.box) pass.old }
{
    let run = shared.run();
    let part = &mut cpu_box.part;
    bring(run, part, pass);
    rest(rt, run, part, gate);
    part_off(run, part, pass);
    part.state().wakeup
}
