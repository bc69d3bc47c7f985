//! An idle CPU tells its next event anew, or has it carried upwards.

ghost use Rattle.std.specs.Prelude.{◌≡◌, true, false};
ghost use Rattle.walk_rules.specs.declared.walk.WalkKind.TheVariants as kinds;
ghost use Rattle.shared_cpus.specs.Conditions.{CanCarry, CanRetell};
ghost use Rattle.walk_inactive.specs.Ends.{HasCarried, HasWalked, cpu_reevaluated, is_mark_of};
ghost use Rattle.walk_inactive.specs.Ends.{pass_retold, retells_with};

use crate::telling::tell;
use shared_cpus::{BoxPart, Run, RunName, carry_step, finish_step, retell_step};
use shared_table::Shared;
use std::sync::Wait;
use tm_base::{CpuId, Gate, Jiffy};
use wheel_core::TimerBase;

/// Whether a CPU's mark is that of this one.
fn is_marked_by(mark: Option<u16>, cpu: CpuId) -> bool
    ensures { result ≡ is_mark_of mark cpu.0 }
{
    match mark {
        Some(by) => by == cpu.0,
        None => false,
    }
}

/// Whether the part's CPU re-evaluates with the pass that is brought, and isn't carried for.
fn retells<N: RunName, B: TimerBase>(part: &BoxPart<N, B>) -> bool
    ensures { result ≡ retells_with part.now.box part.now.brought }
{
    match &part.guest {
        Some(guest) => guest.cpu == part.cpu && !is_marked_by(part.status.mark, part.cpu),
        None => false,
    }
}

/// The CPU of a part re-evaluates, with its own pass.
fn retell<N: RunName, B: TimerBase, G: Gate, R: Wait>(
    rt: &R,
    run: &Run<N, B>,
    part: &mut BoxPart<N, B>,
    gate: &G,
)
    requires { CanRetell part.old }
    ensures { HasWalked kinds.Reeval cpu_reevaluated pass_retold part.old part.new }
{
    retell_step(run, part);
    tell(rt, run, part, gate);
    finish_step(run, part);
}

/// The next event of a part's CPU is carried upwards, with the pass of the CPU that has marked it.
fn carry_for<N: RunName, B: TimerBase, G: Gate, R: Wait>(
    rt: &R,
    run: &Run<N, B>,
    part: &mut BoxPart<N, B>,
    gate: &G,
)
    requires { CanCarry part.old }
    ensures { HasCarried part.old part.new }
{
    carry_step(run, part);
    tell(rt, run, part, gate);
    finish_step(run, part);
}

/// With its own pass, where it hasn't marked itself, an idle CPU inside its interrupt tells its
/// next event anew and ends its interrupt (`tmigr_cpu_new_timer`); its wakeup is found as
/// `deactivate` finds it. Else the CPU whose pass is brought carries the next event of the CPU that
/// it has marked upwards and takes the mark back (`tmigr_handle_remote_cpu`); the wakeup stays. It
/// answers the CPU's wakeup, in jiffies, or `NEVER`. One walk is begun with the pass and ended,
/// with the gates of `deactivate`. It takes no memory and refuses nothing.
pub fn carry<N: RunName, B: TimerBase, G: Gate, R: Wait>(
    rt: &R,
    shared: &Shared<N, B>,
    cpu_part: &mut BoxPart<N, B>,
    gate: &G,
) -> Jiffy
    requires retells { retells_with cpu_part.old.box cpu_part.old.brought ≡ true
        → CanRetell cpu_part.old }
    requires carries { retells_with cpu_part.old.box cpu_part.old.brought ≡ false
        → CanCarry cpu_part.old }
    ensures retold { retells_with cpu_part.old.box cpu_part.old.brought ≡ true
        → HasWalked kinds.Reeval cpu_reevaluated pass_retold cpu_part.old cpu_part.new }
    ensures carried { retells_with cpu_part.old.box cpu_part.old.brought ≡ false
        → HasCarried cpu_part.old cpu_part.new }
    ensures answer { result ≡ cpu_part.new.box.own.wakeup }
{
    if retells(cpu_part) {
        retell(rt, shared.run(), cpu_part, gate);
        return cpu_part.state().wakeup;
    }
    carry_for(rt, shared.run(), cpu_part, gate);
    cpu_part.state().wakeup
}
