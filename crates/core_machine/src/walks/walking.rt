//! A step, and the walk that it begins made to its end.

ghost use Rattle.std.specs.Prelude.{◌≡◌, ◌<◌, ◌∷◌, [], false, length, true};
ghost use Rattle.core_world.specs.declared.step.Step.TheVariants as steps;
ghost use Rattle.core_world.specs.Enabled.{Enabled};
ghost use Rattle.core_world.specs.Lists.{IsRun};
ghost use Rattle.core_world.specs.Steps.{stepped};
ghost use Rattle.core_world.specs.World.{cpu_of};
ghost use Rattle.core_steps.specs.Wants.{WantsMemory};
ghost use Rattle.step_play.specs.Rules.Alone.{goes_on, walked_out};
ghost use Rattle.step_play.specs.Rules.StepRules.{come_by_steps, gone_by_steps, idled_by_steps};
ghost use Rattle.step_play.specs.Rules.StepRules.{made_active, woken_by_steps};
ghost use Rattle.step_play.specs.Rules.Lone.{IsLone, IsRunOf};

use crate::walks::finishing::finish_walk;
use core_steps::{Core, apply};
use core_world::{Step, law_sizes};
use tm_base::{CpuId, NoMemory};
use wheel_core::TimerBase;

/// A step that is enabled and wants no memory.
#[inline(always)]
pub fn make<B: TimerBase>(core: &mut Core<B>, step: Step)
    requires enabled { Enabled core.old step }
    requires wants_none { WantsMemory step → ⊥ }
    ensures made { core.new ≡ stepped core.old step }
    ensures run { IsRun (step ∷ []) core.old core.new }
{
    match apply(core, step) {
        Ok(()) => {}
        Err(NoMemory) => {}
    }
}

/// A step that is enabled and wants no memory, and then the walk of a CPU to its end; after the
/// step no other walk goes on.
fn make_out<B: TimerBase>(core: &mut Core<B>, step: Step, cpu: CpuId)
    requires enabled { Enabled core.old step }
    requires wants_none { WantsMemory step → ⊥ }
    requires cpu { cpu.0 < length core.old.cpus }
    requires lone { IsLone (stepped core.old step) cpu.0 }
    ensures walked { core.new ≡ walked_out cpu.0 (stepped core.old step) }
    ensures ends { goes_on (cpu_of core.new cpu.0).walk ≡ false }
    ensures run { IsRunOf step cpu.0 core.old core.new }
{
    law_sizes();
    make(core, step);
    finish_walk(core, cpu);
}

/// An active CPU goes idle (the kernel's `tmigr_cpu_deactivate`). No other walk goes on, here and
/// in each of the calls below.
pub fn idle<B: TimerBase>(core: &mut Core<B>, cpu: CpuId)
    requires enabled { Enabled core.old (steps.Idle cpu) }
    requires lone { IsLone core.old cpu.0 }
    ensures walked { core.new ≡ idled_by_steps core.old cpu.0 }
    ensures ends { goes_on (cpu_of core.new cpu.0).walk ≡ false }
    ensures run { IsRunOf (steps.Idle cpu) cpu.0 core.old core.new }
{
    make_out(core, Step::Idle { cpu }, cpu);
}

/// An idle CPU becomes active (the kernel's `tmigr_cpu_activate`).
pub fn wake<B: TimerBase>(core: &mut Core<B>, cpu: CpuId)
    requires enabled { Enabled core.old (steps.Wake cpu) }
    requires lone { IsLone core.old cpu.0 }
    ensures walked { core.new ≡ woken_by_steps core.old cpu.0 }
    ensures ends { goes_on (cpu_of core.new cpu.0).walk ≡ false }
    ensures run { IsRunOf (steps.Wake cpu) cpu.0 core.old core.new }
{
    make_out(core, Step::Wake { cpu }, cpu);
}

/// A CPU is made active, where it is idle.
pub(crate) fn make_active<B: TimerBase>(core: &mut Core<B>, cpu: CpuId)
    requires cpu { cpu.0 < length core.old.cpus }
    requires wakes { (cpu_of core.old cpu.0).idle ≡ true → Enabled core.old (steps.Wake cpu) }
    requires lone { IsLone core.old cpu.0 }
    ensures made { core.new ≡ made_active core.old cpu.0 }
    ensures ends { (cpu_of core.old cpu.0).idle ≡ true →
        goes_on (cpu_of core.new cpu.0).walk ≡ false }
{
    if core.status(cpu).idle {
        wake(core, cpu);
    }
}

/// An active CPU goes offline (the kernel's `tmigr_cpu_offline`); then it has no walk, or its walk
/// stands at `Handing`.
pub fn go_offline<B: TimerBase>(core: &mut Core<B>, cpu: CpuId)
    requires enabled { Enabled core.old (steps.Offline cpu) }
    requires lone { IsLone core.old cpu.0 }
    ensures walked { core.new ≡ gone_by_steps core.old cpu.0 }
    ensures ends { goes_on (cpu_of core.new cpu.0).walk ≡ false }
    ensures run { IsRunOf (steps.Offline cpu) cpu.0 core.old core.new }
{
    make_out(core, Step::Offline { cpu }, cpu);
}

/// An offline CPU comes online, active (the kernel's `tmigr_cpu_online`).
pub fn come_online<B: TimerBase>(core: &mut Core<B>, cpu: CpuId)
    requires enabled { Enabled core.old (steps.Online cpu) }
    requires lone { IsLone core.old cpu.0 }
    ensures walked { core.new ≡ come_by_steps core.old cpu.0 }
    ensures ends { goes_on (cpu_of core.new cpu.0).walk ≡ false }
    ensures run { IsRunOf (steps.Online cpu) cpu.0 core.old core.new }
{
    make_out(core, Step::Online { cpu }, cpu);
}

/// An idle CPU tells its first timer again and leaves its interrupt.
pub fn reevaluate<B: TimerBase>(core: &mut Core<B>, cpu: CpuId)
    requires enabled { Enabled core.old (steps.Reeval cpu) }
    requires lone { IsLone core.old cpu.0 }
    ensures walked { core.new ≡ walked_out cpu.0 (stepped core.old (steps.Reeval cpu)) }
    ensures ends { goes_on (cpu_of core.new cpu.0).walk ≡ false }
    ensures run { IsRunOf (steps.Reeval cpu) cpu.0 core.old core.new }
{
    make_out(core, Step::Reeval { cpu }, cpu);
}

/// The CPU that marked an idle one tells its first timer again, and lets it go.
pub fn carry<B: TimerBase>(core: &mut Core<B>, cpu: CpuId)
    requires enabled { Enabled core.old (steps.Carry cpu) }
    requires lone { IsLone core.old cpu.0 }
    ensures walked { core.new ≡ walked_out cpu.0 (stepped core.old (steps.Carry cpu)) }
    ensures ends { goes_on (cpu_of core.new cpu.0).walk ≡ false }
    ensures run { IsRunOf (steps.Carry cpu) cpu.0 core.old core.new }
{
    make_out(core, Step::Carry { cpu }, cpu);
}
