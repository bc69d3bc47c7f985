//! The same as steps of the core.

ghost use Rattle.std.specs.Prelude.{◌<◌};

use crate::cases::Case;
use crate::machines::{CPUS, EACH, Load};
use core_world::Step;
use std::alloc::Global;
use table_stress::{Core, apply, enabled};
use tm_base::{Class, CpuId, NoMemory, TimerId};
use wheel_base::WheelBase;

/// The most steps of a walk.
const STEPS: u32 = 200;

/// Makes a step, where it is enabled, and writes it down.
fn make(core: &mut Core<WheelBase>, steps: &mut Vec<Step>, step: Step) -> Result<(), NoMemory> {
    if enabled(core, &step) {
        apply(core, step)?;
        steps.push(step)?;
    }
    Ok(())
}

/// The next timer of a class on a CPU that is due, by its number.
fn next_out(core: &Core<WheelBase>, cpu: CpuId, class: Class) -> Option<TimerId> {
    if cpu.0 >= core.count() {
        return None;
    }
    let item = core.next_out(cpu, class)?;
    Some(TimerId((item.id % 65_536) as u16))
}

/// All that is due of a class on a CPU goes out, for another one to run.
fn drain(
    core: &mut Core<WheelBase>,
    steps: &mut Vec<Step>,
    cpu: CpuId,
    class: Class,
    runner: CpuId,
) -> Result<(), NoMemory> {
    for _timer in 0..EACH {
        match next_out(core, cpu, class) {
            Some(timer) => make(core, steps, Step::Hand { cpu, timer, runner })?,
            None => break,
        }
    }
    make(core, steps, Step::Ticked { cpu, class, runner })
}

/// The sibling of a CPU is marked, drained, and carried for.
fn serve(core: &mut Core<WheelBase>, steps: &mut Vec<Step>, by: CpuId) -> Result<(), NoMemory> {
    let cpu = CpuId(by.0.saturating_add(1));
    make(core, steps, Step::Take { cpu, by })?;
    drain(core, steps, cpu, Class::Global, by)?;
    make(core, steps, Step::Carry { cpu })?;
    for _step in 0..STEPS {
        if cpu.0 >= core.count() || core.walk(cpu).is_none() {
            break;
        }
        make(core, steps, Step::Walk { cpu })?;
    }
    Ok(())
}

/// The interrupt of a CPU.
fn interrupt(
    core: &mut Core<WheelBase>,
    steps: &mut Vec<Step>,
    case: &Case,
    cpu: CpuId,
) -> Result<(), NoMemory> {
    make(core, steps, Step::Enter { cpu })?;
    for class in [Class::Pinned, Class::Global, Class::Deferrable] {
        drain(core, steps, cpu, class, cpu)?;
    }
    if case.load == Load::Sibling {
        serve(core, steps, cpu)?;
    }
    make(core, steps, Step::Leave { cpu })
}

/// A CPU arms its timer and cancels it.
fn arm(core: &mut Core<WheelBase>, steps: &mut Vec<Step>, cpu: CpuId) -> Result<(), NoMemory> {
    let timer = TimerId(cpu.0);
    let step = Step::Arm {
        cpu,
        timer,
        class: Class::Global,
        expires: core.now().saturating_add(1000),
        job: 0,
        arg: 0,
        line: 1,
    };
    make(core, steps, step)?;
    let step = Step::Cancel {
        cpu,
        timer,
        by: cpu,
        line: 1,
    };
    make(core, steps, step)
}

/// What the CPUs of a case do, as steps, so many times.
pub(crate) fn drawn(
    alloc: Global,
    core: Core<WheelBase>,
    case: &Case,
    rounds: u32,
) -> Result<Vec<Step>, NoMemory> {
    let mut core = core;
    let mut steps = Vec::new(alloc);
    for _round in 0..rounds {
        for cpu in 0..u16::from(CPUS) {
            if cpu % case.every.max(1) == 0 {
                if case.arms {
                    arm(&mut core, &mut steps, CpuId(cpu))?;
                } else {
                    interrupt(&mut core, &mut steps, case, CpuId(cpu))?;
                }
            }
        }
    }
    Ok(steps)
}

/// How many timers go out in these steps.
pub(crate) fn handed(steps: &[Step]) -> u64 {
    let mut count = 0u64;
    for step in steps {
        if let Step::Hand { .. } = step {
            count = count.saturating_add(1);
        }
    }
    count
}
