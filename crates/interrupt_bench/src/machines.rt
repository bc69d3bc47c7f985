//! The machines whose interrupts are timed.

use core_world::Step;
use std::alloc::Global;
use table_stress::{Core, run_steps, start};
use tm_base::{Class, CpuId, CpuSet, NoMemory, TimerId};
use wheel_base::WheelBase;

/// The CPUs of each machine: eight leaves of eight.
pub(crate) const CPUS: u8 = 64;

/// How many timers a CPU has that has some.
pub(crate) const EACH: u16 = 64;

/// When they are asked for, in jiffies.
const ASKED: u64 = 60;

/// When the machine is looked at, in jiffies: behind their wheel expiry.
const LATER: u64 = 100;

/// What the CPUs of a machine have.
#[derive(Clone, Copy, PartialEq, Eq)]
pub(crate) enum Load {
    /// No timers.
    Nothing,
    /// Each CPU some that are due.
    Own,
    /// The second CPU of each leaf some that are due, and it is idle.
    Sibling,
}

/// A global timer of a CPU.
fn arm(cpu: u16, timer: u16) -> Step {
    Step::Arm {
        cpu: CpuId(cpu),
        timer: TimerId(timer),
        class: Class::Global,
        expires: ASKED,
        job: 0,
        arg: 0,
        line: 0,
    }
}

/// A CPU goes idle, with the walk that it begins: the exchange at its leaf, and the event there.
fn rest(steps: &mut Vec<Step>, cpu: CpuId) -> Result<(), NoMemory> {
    steps.push(Step::Idle { cpu })?;
    for _step in 0..LEAF_STEPS {
        steps.push(Step::Walk { cpu })?;
    }
    Ok(())
}

/// How many steps a deactivation has whose leaf stays active.
const LEAF_STEPS: u16 = 8;

/// How many timers there are.
fn timers_of(load: Load) -> u16 {
    match load {
        Load::Nothing => u16::from(CPUS),
        Load::Own => u16::from(CPUS) * EACH,
        Load::Sibling => u16::from(CPUS) / 8 * EACH,
    }
}

/// The steps by which the CPUs come to what they have.
fn loading(alloc: Global, load: Load) -> Result<Vec<Step>, NoMemory> {
    let mut steps = Vec::new(alloc);
    steps.push(Step::Clock { now: 10 })?;
    for timer in 0..timers_of(load) {
        match load {
            Load::Nothing => {},
            Load::Own => steps.push(arm(timer / EACH, timer))?,
            Load::Sibling => steps.push(arm(timer / EACH * 8 + 1, timer))?,
        }
    }
    if load == Load::Sibling {
        for leaf in 0..u16::from(CPUS) / 8 {
            rest(&mut steps, CpuId(leaf * 8 + 1))?;
        }
    }
    steps.push(Step::Clock { now: LATER })?;
    Ok(steps)
}

/// The machine with what its CPUs have, at a time when all of it is due.
pub(crate) fn machine(alloc: Global, load: Load) -> Result<Core<WheelBase>, NoMemory> {
    let mut core = start(alloc, 1, CPUS, &CpuSet::new(), timers_of(load))?;
    let steps = loading(alloc, load)?;
    match run_steps(&mut core, steps.as_slice()) {
        Ok(()) => Ok(core),
        Err(_) => Err(NoMemory),
    }
}
