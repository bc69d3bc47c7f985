//! A CPU leaves.

ghost use Rattle.std.specs.Prelude.{◌≡◌, ◌≢◌, ◌<◌, IfOk, MatchResult, None, OnErr, OnOk, Some};
ghost use Rattle.std.specs.Prelude.{length, true};
ghost use Rattle.tree_plan.specs.Paths.{is_placed_in};
ghost use Rattle.core_world.specs.Covered.{IsSettled};
ghost use Rattle.core_machine.specs.step_play.Rules.StepRules.{handed_on_by_steps};
ghost use Rattle.hotplug.specs.Afterwards.{HasGoneOffline};
ghost use Rattle.hotplug.specs.Frames.{HandedOn, Waits};
ghost use Rattle.core_machine.specs.step_play.Rules.Lone.{Reaches};
ghost use Rattle.hotplug.specs.Settled.{AllWhole, gone_whole, heir_at, offline_fault};

use crate::activation::make_active;
use core_machine::Core;
use core_machine::readings::hands_on;
use core_machine::walks::make;
use core_world::Step;
use tm_base::{CpuId, OpFault};
use wheel_core::TimerBase;

/// Why a CPU can't leave, with CPU `to` to follow it.
fn offline_fault<B: TimerBase>(core: &Core<B>, cpu: CpuId, to: CpuId) -> Option<OpFault>
    requires cpu { cpu.0 < length core.now.cpus }
    requires to { to.0 < length core.now.cpus }
    ensures { result ≡ offline_fault core.now cpu.0 to.0 }
{
    let status = core.status(cpu);
    if !status.online {
        Some(OpFault::Offline)
    } else if status.idle {
        Some(OpFault::NotActive)
    } else if core.is_placed(cpu) && !core.status(to).online {
        Some(OpFault::LastOnline)
    } else {
        None
    }
}

/// The walk of a CPU that left hands on to another one, which is woken for it.
fn hand_on<B: TimerBase>(core: &mut Core<B>, cpu: CpuId, to: CpuId)
    requires { Waits core.old cpu.0 to.0 }
    ensures handed { core.new ≡ handed_on_by_steps core.old cpu.0 to.0 }
    ensures leaves { HandedOn core.old cpu.0 to.0 core.new }
    ensures settled { IsSettled core.new }
    ensures whole { AllWhole core.old → AllWhole core.new }
    ensures run { Reaches core.old core.new }
{
    make_active(core, to);
    make(core, Step::HandOn { cpu, to });
}

/// A CPU leaves that may; it answers the CPU to which it handed on, if it did.
fn leave<B: TimerBase>(core: &mut Core<B>, cpu: CpuId, to: CpuId) -> Option<CpuId>
    requires cpu { cpu.0 < length core.old.cpus }
    requires to { to.0 < length core.old.cpus }
    requires another { to.0 ≢ cpu.0 }
    requires placed { is_placed_in core.old.tree to.0 ≡ true }
    requires settled { IsSettled core.old }
    requires allowed { offline_fault core.old cpu.0 to.0 ≡ None }
    ensures gone { core.new ≡ gone_whole core.old cpu.0 to.0 }
    ensures heir { result ≡ heir_at core.old cpu.0 to }
    ensures left { HasGoneOffline core.old cpu.0 to result core.new }
    ensures settled { IsSettled core.new }
    ensures whole { AllWhole core.old → AllWhole core.new }
    ensures run { Reaches core.old core.new }
{
    core_machine::walks::go_offline(core, cpu);
    if hands_on(core, cpu) {
        hand_on(core, cpu, to);
        return Some(to);
    }
    None
}

/// An active CPU leaves (the kernel's `tmigr_cpu_offline`). Where its walk finds a top that nobody
/// looks after, with an event in it, it hands on to the placed CPU `to`, which is woken for it
/// where it is idle; `to` is answered exactly then. Refusals, in this order, which leave all as it
/// was: `Offline`; `NotActive` of an idle CPU; `LastOnline` of a placed CPU where `to` is offline.
/// An isolated CPU hands nothing on.
pub fn go_offline<B: TimerBase>(
    core: &mut Core<B>,
    cpu: CpuId,
    to: CpuId,
) -> Result<Option<CpuId>, OpFault>
    requires cpu { cpu.0 < length core.old.cpus }
    requires to { to.0 < length core.old.cpus }
    requires another { to.0 ≢ cpu.0 }
    requires placed { is_placed_in core.old.tree to.0 ≡ true }
    requires settled { IsSettled core.old }
    ensures refused { MatchResult result
        (λ heir. offline_fault core.old cpu.0 to.0 ≡ None)
        (λ fault. offline_fault core.old cpu.0 to.0 ≡ Some fault) }
    ensures err { OnErr result (core.new ≡ core.old) }
    ensures gone { OnOk result (core.new ≡ gone_whole core.old cpu.0 to.0) }
    ensures heir { IfOk result (λ heir. heir ≡ heir_at core.old cpu.0 to) }
    ensures left { IfOk result (λ heir. HasGoneOffline core.old cpu.0 to heir core.new) }
    ensures settled { IsSettled core.new }
    ensures whole { AllWhole core.old → AllWhole core.new }
    ensures run { Reaches core.old core.new }
{
    if let Some(fault) = offline_fault(core, cpu, to) {
        return Err(fault);
    }
    let heir = leave(core, cpu, to);
    Ok(heir)
}
