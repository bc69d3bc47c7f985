//! A walk that is made to its end.

ghost use Rattle.std.specs.Prelude.{◌≡◌, ◌<◌, false, length, true};
ghost use Rattle.core_world.specs.declared.step.Step.TheVariants as steps;
ghost use Rattle.core_world.specs.Enabled.{Enabled};
ghost use Rattle.core_world.specs.Steps.{stepped};
ghost use Rattle.core_world.specs.World.{cpu_of};
ghost use Rattle.step_play.specs.Rules.Alone.{goes_on, walked_out};
ghost use Rattle.step_play.specs.Rules.Lone.{IsLone, IsWalkRun};

use crate::walks::alone::goes_on;
use core_steps::{Core, apply, law_step};
use core_world::{Step, law_sizes};
use tm_base::{CpuId, NoMemory};
use tree_plan::law_paths;
use wheel_core::TimerBase;

/// A step of a walk. It wants no memory.
fn walk_on<B: TimerBase>(core: &mut Core<B>, cpu: CpuId)
    requires { Enabled core.old (steps.Walk cpu) }
    ensures { core.new ≡ stepped core.old (steps.Walk cpu) }
{
    match apply(core, Step::Walk { cpu }) {
        Ok(()) => {}
        Err(NoMemory) => {}
    }
}

/// A step of a walk that alone goes on: it waits for no lock.
fn walk_alone<B: TimerBase>(core: &mut Core<B>, cpu: CpuId)
    requires cpu { cpu.0 < length core.old.cpus }
    requires lone { IsLone core.old cpu.0 }
    requires goes_on { goes_on (cpu_of core.old cpu.0).walk ≡ true }
    ensures step { core.new ≡ stepped core.old (steps.Walk cpu) }
    ensures cpus { length core.new.cpus ≡ length core.old.cpus }
    ensures lone { IsLone core.new cpu.0 }
{
    core.tree();
    law_sizes();
    walk_on(core, cpu);
}

/// Makes a walk that alone goes on to its end, by as many steps at most as such a walk may have.
fn walk_out<B: TimerBase>(core: &mut Core<B>, cpu: CpuId)
    requires cpu { cpu.0 < length core.old.cpus }
    requires lone { IsLone core.old cpu.0 }
    ensures { core.new ≡ walked_out cpu.0 core.old }
{
    let most = 32 * (u32::from(core.tree().levels()) + 1);
    for _step in 0..most {
        if !goes_on(core, cpu) {
            return;
        }
        walk_alone(core, cpu);
    }
}

/// Makes the steps of a CPU's walk, each enabled where it stands, up to its end: then the CPU has
/// no walk, or its walk stands at `Handing`. No other walk goes on: each of them stands at
/// `Handing`.
pub fn finish_walk<B: TimerBase>(core: &mut Core<B>, cpu: CpuId)
    requires cpu { cpu.0 < length core.old.cpus }
    requires lone { IsLone core.old cpu.0 }
    ensures walked { core.new ≡ walked_out cpu.0 core.old }
    ensures ends { goes_on (cpu_of core.new cpu.0).walk ≡ false }
    ensures run { IsWalkRun cpu.0 core.old core.new }
{
    core.tree();
    core.kept();
    law_paths();
    law_sizes();
    law_step();
    walk_out(core, cpu);
}
