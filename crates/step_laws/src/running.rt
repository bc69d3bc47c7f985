//! Lists of steps.

ghost use Rattle.std.specs.Prelude.{IfErr, OnOk};
ghost use Rattle.core_world.specs.Frames.{SameSize};
ghost use Rattle.core_world.specs.Lawful.{IsLawful};
ghost use Rattle.core_world.specs.Lists.{IsRun};
ghost use Rattle.step_core.specs.core_facts.Cover.Runs.{EachIsAnswered};
ghost use Rattle.step_laws.specs.Runs.{Stops};

use crate::laws::law_lawful;
use core_world::{Step, law_sizes};
use step_core::{Core, apply, enabled, law_answered};
use wheel_core::TimerBase;

/// Why a list of steps wasn't made whole. Both name the place of a step in the list.
#[derive(Clone, Copy, Debug, PartialEq, Eq)]
pub enum StepsFault {
    /// The step isn't enabled where it stands.
    NotEnabled { index: usize },
    /// The step wants memory.
    NoMemory { index: usize },
}

/// Makes steps in order, up to the first that isn't enabled where it stands, or that wants memory.
fn make_each<B: TimerBase>(core: &mut Core<B>, steps: &[Step]) -> Result<(), StepsFault>
    ensures whole { OnOk result (IsRun steps.now core.old core.new) }
    ensures stops { IfErr result (λ fault. Stops fault steps.now core.old core.new) }
{
    for (index, step) in steps.iter().enumerate() {
        if !enabled(core, step) {
            return Err(StepsFault::NotEnabled { index });
        }
        if apply(core, *step).is_err() {
            return Err(StepsFault::NoMemory { index });
        }
    }
    Ok(())
}

/// Makes steps in order. The error names the first step that isn't enabled where it stands, or that
/// wants memory; the core then stands before that step. The tree, and how many groups, CPUs and
/// timers there are, stay. Whatever the order of the steps, and also after a refusal, the core is
/// lawful, and each global timer that is queued on an online idle CPU is held, woken for or
/// carried; where no walk and no interrupt is under way, it is held or woken for.
pub fn run_steps<B: TimerBase>(core: &mut Core<B>, steps: &[Step]) -> Result<(), StepsFault>
    ensures lawful { IsLawful core.new }
    ensures answered { EachIsAnswered core.new }
    ensures stays { SameSize core.old core.new }
    ensures whole { OnOk result (IsRun steps.now core.old core.new) }
    ensures stops { IfErr result (λ fault. Stops fault steps.now core.old core.new) }
{
    let made = make_each(core, steps);
    law_sizes();
    law_lawful(core);
    law_answered();
    made
}
