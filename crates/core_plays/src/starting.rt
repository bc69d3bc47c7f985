//! The core at the start of a script.

ghost use Rattle.std.specs.Prelude.{◌≡◌, All, IfOk, length};
ghost use Rattle.tm_script.specs.Grammar.{IsScript};
ghost use Rattle.wheel_base.specs.Wheels.{no_base};
ghost use Rattle.cpu_bases.specs.CpuBases.{empty_bases};
ghost use Rattle.core_machine.specs.step_play.Rules.Seen.{InPlay, resting};
ghost use Rattle.core_machine.specs.step_play.SamePlay.{core_start};
ghost use Rattle.core_plays.specs.OnCore.{HasMachineOf};

use cpu_bases::Bases;
use std::alloc::Global;
use step_core::{Core, law_start, new_core};
use tm_base::NoMemory;
use tm_script::Script;
use tree_plan::plan;
use wheel_base::WheelBase;

/// A wheel on which nothing is queued.
fn no_timers(alloc: Global) -> Result<WheelBase, NoMemory>
    ensures { IfOk result (λ base. base ≡ no_base) }
{
    match WheelBase::new(alloc) {
        Ok(base) => Ok(base),
        Err(_) => Err(NoMemory),
    }
}

/// The three wheels of a CPU.
fn no_bases(alloc: Global) -> Result<Bases<WheelBase>, NoMemory>
    ensures { IfOk result (λ bases. bases.plain ≡ empty_bases) }
{
    let pinned = no_timers(alloc)?;
    let global = match no_timers(alloc) {
        Ok(global) => global,
        Err(fault) => {
            drop(pinned);
            return Err(fault);
        }
    };
    let deferrable = match no_timers(alloc) {
        Ok(deferrable) => deferrable,
        Err(fault) => {
            drop(pinned);
            drop(global);
            return Err(fault);
        }
    };
    Ok(Bases::with(alloc, pinned, global, deferrable))
}

/// The wheels of so many CPUs.
fn bases_of_all(alloc: Global, count: u16) -> Result<Vec<Bases<WheelBase>>, NoMemory>
    ensures count { IfOk result (λ bases. length bases.items ≡ count) }
    ensures empty { IfOk result (λ bases. All (λ b. b.plain ≡ empty_bases) bases.items) }
{
    let mut bases = Vec::new(alloc);
    for _cpu in 0..count {
        let of_cpu = no_bases(alloc)?;
        bases.push(of_cpu)?;
    }
    Ok(bases)
}

/// The core of a script's machine at jiffy 0: every CPU is online and active, and nothing is
/// queued. Each base is a wheel of nine levels.
pub fn start_core(alloc: Global, script: &Script) -> Result<Core<WheelBase>, NoMemory>
    requires { IsScript script.now }
    ensures start { IfOk result (λ core. core ≡ core_start script.now) }
    ensures in_play { IfOk result (InPlay resting) }
    ensures machine { IfOk result (HasMachineOf script.now) }
{
    law_start();
    let tree = plan(alloc, script.nodes, script.cpus, &script.isolated)?;
    let bases = bases_of_all(alloc, tree.cpu_count())?;
    let core = new_core(alloc, tree, bases, script.timers)?;
    Ok(core)
}
