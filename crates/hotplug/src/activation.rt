//! A CPU is made active.

ghost use Rattle.std.specs.Prelude.{◌≡◌};
ghost use Rattle.core_machine.specs.step_play.Rules.StepRules.{made_active};
ghost use Rattle.hotplug.specs.Frames.{Activated, MayActivate};
ghost use Rattle.core_machine.specs.step_play.Rules.Lone.{Reaches};

use core_machine::Core;
use core_machine::walks::wake;
use tm_base::CpuId;
use wheel_core::TimerBase;

/// An online CPU without walk becomes active, where it is idle. No other walk goes on.
pub(crate) fn make_active<B: TimerBase>(core: &mut Core<B>, cpu: CpuId)
    requires { MayActivate core.old cpu.0 }
    ensures made { core.new ≡ made_active core.old cpu.0 }
    ensures active { Activated core.old cpu.0 core.new }
    ensures run { Reaches core.old core.new }
{
    if !core.status(cpu).idle {
        return;
    }
    wake(core, cpu);
    core.tree();
}
