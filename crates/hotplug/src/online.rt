//! A CPU comes back.

ghost use Rattle.std.specs.Prelude.{◌≡◌, ◌<◌, MatchResult, None, OnErr, OnOk, Some, length};
ghost use Rattle.core_world.specs.Covered.{IsSettled};
ghost use Rattle.core_machine.specs.step_play.Rules.StepRules.{come_by_steps};
ghost use Rattle.core_machine.specs.step_play.Rules.Lone.{Reaches};
ghost use Rattle.hotplug.specs.Afterwards.{HasComeOnline};
ghost use Rattle.hotplug.specs.Settled.{AllWhole, online_fault};

use core_machine::Core;
use core_machine::walks::come_online;
use tm_base::{CpuId, OpFault};
use wheel_core::TimerBase;

/// An offline CPU comes online, active (the kernel's `tmigr_cpu_online`). `AlreadyOnline` refuses
/// one that is online, and leaves all as it was.
pub fn go_online<B: TimerBase>(core: &mut Core<B>, cpu: CpuId) -> Result<(), OpFault>
    requires cpu { cpu.0 < length core.old.cpus }
    requires settled { IsSettled core.old }
    ensures refused { MatchResult result
        (λ done. online_fault core.old cpu.0 ≡ None)
        (λ fault. online_fault core.old cpu.0 ≡ Some fault) }
    ensures err { OnErr result (core.new ≡ core.old) }
    ensures come { OnOk result (core.new ≡ come_by_steps core.old cpu.0) }
    ensures back { OnOk result (HasComeOnline core.old cpu.0 core.new) }
    ensures settled { IsSettled core.new }
    ensures whole { AllWhole core.old → AllWhole core.new }
    ensures run { Reaches core.old core.new }
{
    if core.status(cpu).online {
        return Err(OpFault::AlreadyOnline);
    }
    come_online(core, cpu);
    core.tree();
    Ok(())
}
