//! The core of the calls, and what two cores have in common.

use core_world::Step;
use shared_rows::Core;
use std::alloc::Global;
use tm_base::{Class, CpuId, CpuSet, GroupId, NoMemory, TimerId};
use wheel_base::WheelBase;

/// One node of three CPUs, and four timers, at jiffy 0.
pub(crate) fn machine(alloc: Global) -> Result<Core<WheelBase>, NoMemory> {
    shared_rows::start(alloc, 1, 3, &CpuSet::new(), 4)
}

/// A CPU arms a timer for jiffy 60.
fn arm(cpu: u16, timer: u16, class: Class) -> Step {
    Step::Arm {
        cpu: CpuId(cpu),
        timer: TimerId(timer),
        class,
        expires: 60,
        job: 0,
        arg: 0,
        line: 0,
    }
}

/// How many steps the walk of a CPU makes that goes idle in the one group while others are active.
const STEPS: u16 = 8;

/// Steps to jiffy 61: CPU 1 sleeps over a timer that is due then, and so are two of CPU 0.
pub(crate) fn script(alloc: Global) -> Result<Vec<Step>, NoMemory> {
    let mut steps = Vec::new(alloc);
    steps.push(Step::Clock { now: 10 })?;
    steps.push(arm(1, 0, Class::Global))?;
    steps.push(arm(0, 1, Class::Global))?;
    steps.push(arm(0, 2, Class::Pinned))?;
    steps.push(Step::Idle { cpu: CpuId(1) })?;
    for _ in 0..STEPS {
        steps.push(Step::Walk { cpu: CpuId(1) })?;
    }
    steps.push(Step::Clock { now: 61 })?;
    Ok(steps)
}

/// One number more.
fn mix(so_far: u64, number: u64) -> u64 {
    (so_far ^ number)
        .wrapping_mul(0x0100_0000_01b3)
        .rotate_left(17)
}

/// A number in which the clock, the CPUs, the groups and the places of the timers of a core have
/// gone. It takes no memory.
pub(crate) fn likeness(core: &Core<WheelBase>) -> u64 {
    let mut all = mix(0xcbf2_9ce4_8422_2325, core.now());
    for number in 0..core.count() {
        let cpu = core.cpu(CpuId(number));
        let next = core.bases(CpuId(number)).next();
        all = mix(all, u64::from(cpu.idle) | u64::from(cpu.online) << 1);
        all = mix(mix(mix(all, cpu.wakeup), next.pin), next.first_global);
    }
    for group in 0..core.tree().group_count() {
        all = mix(all, u64::from(core.active(GroupId(group))));
        if let Some((child, event)) = core.events(GroupId(group)).first() {
            all = mix(mix(all, u64::from(child)), event.expiry);
        }
    }
    for timer in 0..core.timers() {
        if let Some(cpu) = core.queued_on(TimerId(timer)) {
            all = mix(all, u64::from(timer) << 16 | u64::from(cpu.0));
        }
    }
    all
}
