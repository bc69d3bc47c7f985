//! What stands behind the wakeups of a moment, before anything happens in it.

ghost use Rattle.std.specs.Prelude.{◌≡◌, ◌<◌, IfSome, length, option_map};
ghost use Rattle.core_machine.specs.step_play.Rules.StepRules.{step_rules};
ghost use Rattle.view_stat.specs.Stats.{is_due};
ghost use Rattle.view_stat.specs.Watched.{all_reasons, event_reason, reason_of, waking_reason};

use crate::machine::is_due;
use core_machine::Player;
use core_machine::readings::{has_interrupt, is_idle, named};
use play_rules::PlayMachine;
use tm_base::{Class, CpuId, CpuSet};
use view_counts::{Reason, set_reason};
use wheel_base::WheelBase;

/// What stands behind a wakeup for which no timer of the CPU's own is due, where the top group's
/// first event is of this CPU.
fn event_reason(player: &Player<WheelBase>, named: Option<CpuId>) -> Reason
    requires { IfSome named (λ d. d.0 < length player.now.cpus) }
    ensures { result ≡ event_reason is_due player.now (option_map (λ d. d.0) named) }
{
    let Some(other) = named else {
        return Reason::Gone;
    };
    if is_due(player, other, Class::Global) {
        Reason::TopEvent(other)
    } else {
        Reason::GoneTimer(other)
    }
}

/// What stands behind a wakeup of a CPU.
fn waking_reason(player: &Player<WheelBase>, cpu: CpuId) -> Reason
    requires { cpu.0 < length player.now.cpus }
    ensures { result ≡ waking_reason step_rules is_due player.now cpu.0 }
{
    if is_due(player, cpu, Class::Pinned) {
        return Reason::OwnPinned;
    }
    if is_due(player, cpu, Class::Global) {
        return Reason::OwnGlobal;
    }
    let top = player.levels().saturating_sub(1);
    let nobody = CpuSet::new();
    event_reason(player, named(player.core(), cpu, top, &nobody))
}

/// What stands behind the wakeup of a CPU, if it sleeps and has an interrupt now.
fn reason_of(player: &Player<WheelBase>, cpu: CpuId) -> Reason
    requires { cpu.0 < length player.now.cpus }
    ensures { result ≡ reason_of step_rules is_due player.now cpu.0 }
{
    if is_idle(player.core(), cpu) && has_interrupt(player.core(), cpu) {
        waking_reason(player, cpu)
    } else {
        Reason::NoWakeup
    }
}

/// What stands behind the wakeups of all CPUs.
pub(crate) fn foresee_all(player: &Player<WheelBase>, reasons: &mut Vec<Reason>)
    ensures { reasons.new.items ≡ all_reasons step_rules is_due
        (step_rules.cpus player.now) 0 player.now reasons.old.items }
{
    for cpu in 0..player.cpus() {
        let reason = reason_of(player, CpuId(cpu));
        set_reason(reasons, CpuId(cpu), reason);
    }
}
