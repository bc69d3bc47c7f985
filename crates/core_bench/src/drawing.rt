//! Lists of steps that are drawn at random.

use core_world::Step;
use std::alloc::Global;
use step_laws::{Core, apply, enabled};
use tm_base::{Class, CpuId, NoMemory, TimerId};
use walk_rules::Stage;
use wheel_base::WheelBase;

/// How many steps are drawn for each that is wanted, at most.
const DRAWS: u32 = 64;

/// The longest delay of a timer, in jiffies.
const LONGEST_DELAY: u64 = 500;

/// The next random number (xorshift).
fn next(x: u64) -> u64 {
    let a = x ^ (x << 13);
    let b = a ^ (a >> 7);
    b ^ (b << 17)
}

/// A number below this one, 0 if there is none.
fn below(x: u64, bound: u16) -> u16 {
    if bound == 0 {
        return 0;
    }
    ((x >> 16) % u64::from(bound)) as u16
}

/// A class: mostly that of timers which any CPU may run.
fn class_of(x: u64) -> Class {
    match (x >> 8) & 7 {
        0 => Class::Pinned,
        1 => Class::Deferrable,
        _ => Class::Global,
    }
}

/// The next timer of a class goes out, run by the CPU itself or the one that marked it, or none is
/// due.
fn run_next(core: &Core<WheelBase>, cpu: CpuId, class: Class) -> Option<Step> {
    if cpu.0 >= core.count() {
        return None;
    }
    let runner = CpuId(core.status(cpu).mark.unwrap_or(cpu.0));
    match core.next_out(cpu, class) {
        Some(item) => Some(Step::Hand {
            cpu,
            timer: TimerId((item.id & 0xffff) as u16),
            runner,
        }),
        None => Some(Step::Ticked { cpu, class, runner }),
    }
}

/// A timer that is queued is cancelled, another one is armed.
fn arm_or_cancel(core: &Core<WheelBase>, cpu: CpuId, timer: TimerId, x: u64) -> Option<Step> {
    if !core.knows(timer) {
        return None;
    }
    match core.queued_on(timer) {
        Some(on) => Some(Step::Cancel {
            cpu: on,
            timer,
            by: cpu,
            line: 0,
        }),
        None => Some(Step::Arm {
            cpu,
            timer,
            class: class_of(x),
            expires: core.now().saturating_add(2 + x % LONGEST_DELAY),
            job: 0,
            arg: 0,
            line: 0,
        }),
    }
}

/// A step of a CPU that has no walk.
fn free_step(core: &Core<WheelBase>, cpu: CpuId, other: CpuId, x: u64) -> Option<Step> {
    match x & 15 {
        0 => Some(Step::Clock {
            now: core.now().saturating_add(1),
        }),
        1 | 2 => arm_or_cancel(core, cpu, TimerId(below(next(x), core.timers())), x),
        3 | 4 => Some(Step::Enter { cpu }),
        5 | 6 => run_next(core, cpu, class_of(x)),
        7 => Some(Step::Leave { cpu }),
        8 => Some(Step::Reeval { cpu }),
        9 | 10 => Some(Step::Idle { cpu }),
        11 => Some(Step::Wake { cpu }),
        12 => Some(Step::Take { cpu, by: other }),
        13 => Some(Step::Carry { cpu }),
        14 => Some(Step::Release { cpu }),
        _ => {
            if x & 256 == 0 {
                Some(Step::Offline { cpu })
            } else {
                Some(Step::Online { cpu })
            }
        },
    }
}

/// A step that may be enabled.
fn drawn_step(core: &Core<WheelBase>, x: u64) -> Option<Step> {
    let cpu = CpuId(below(x, core.count()));
    let other = CpuId(below(next(x), core.count()));
    if cpu.0 >= core.count() {
        return None;
    }
    match core.walk(cpu) {
        Some(walk) => match walk.stage {
            Stage::Handing => Some(Step::HandOn { cpu, to: other }),
            _ => Some(Step::Walk { cpu }),
        },
        None => free_step(core, cpu, other, x),
    }
}

/// Makes a step if it is enabled, and puts it down.
fn try_step(core: &mut Core<WheelBase>, step: Step, steps: &mut Vec<Step>) -> Result<(), NoMemory> {
    if enabled(core, &step) {
        apply(core, step)?;
        steps.push(step)?;
    }
    Ok(())
}

/// So many steps, each enabled where it stands; fewer where too few of those that are drawn are.
pub(crate) fn draw_steps(
    alloc: Global,
    core: &mut Core<WheelBase>,
    count: u32,
) -> Result<Vec<Step>, NoMemory> {
    let mut steps = Vec::new(alloc);
    let mut x = 88172645463325252u64;
    for _ in 0..u64::from(count) * u64::from(DRAWS) {
        if steps.len() >= count as usize {
            break;
        }
        x = next(x);
        if let Some(step) = drawn_step(core, x) {
            try_step(core, step, &mut steps)?;
        }
    }
    Ok(steps)
}
