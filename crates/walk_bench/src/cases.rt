//! The machines whose walks are timed, and the turns of their CPUs.

use core_world::Step;
use std::alloc::Global;
use tm_base::{Class, CpuId, CpuSet, NoMemory, TimerId};
use walk_rows::{Core, Crew, Plan, Turn, run_steps, start};
use wheel_base::WheelBase;

/// The CPUs of each machine: eight leaves of eight.
pub(crate) const CPUS: u8 = 64;

/// A case: its name, the four CPUs that go idle and wake by turns, and whether the others of their
/// leaves are idle.
pub(crate) struct Case {
    pub(crate) name: &'static str,
    pub(crate) cpus: [u16; 4],
    pub(crate) alone: bool,
}

/// CPUs of one leaf, and of four leaves, whose groups stay active by the others; and the last
/// active CPUs of four leaves, whose walks climb.
pub(crate) const CASES: [Case; 3] = [
    Case {
        name: "leaf",
        cpus: [0, 2, 4, 6],
        alone: false,
    },
    Case {
        name: "leaves",
        cpus: [0, 16, 32, 48],
        alone: false,
    },
    Case {
        name: "climb",
        cpus: [0, 16, 32, 48],
        alone: true,
    },
];

/// A global timer of a CPU, far ahead.
fn arm(cpu: u16) -> Step {
    Step::Arm {
        cpu: CpuId(cpu),
        timer: TimerId(cpu),
        class: Class::Global,
        expires: 1_000_000 + u64::from(cpu),
        job: 0,
        arg: 0,
        line: 0,
    }
}

/// The machine at jiffy 10, on each of whose CPUs a global timer is queued.
pub(crate) fn machine(alloc: Global) -> Result<Core<WheelBase>, NoMemory> {
    let mut core = start(alloc, 1, CPUS, &CpuSet::new(), u16::from(CPUS))?;
    let mut steps = Vec::new(alloc);
    steps.push(Step::Clock { now: 10 })?;
    for cpu in 0..u16::from(CPUS) {
        steps.push(arm(cpu))?;
    }
    match run_steps(&mut core, steps.as_slice()) {
        Ok(()) => Ok(core),
        Err(_) => Err(NoMemory),
    }
}

/// The CPUs that are idle from the beginning: where the case has its CPUs alone, the others of
/// their leaves.
pub(crate) fn before(alloc: Global, case: &Case) -> Result<Plan, NoMemory> {
    let mut turns = Vec::new(alloc);
    if case.alone {
        for cpu in case.cpus {
            for mate in 1..8 {
                turns.push(Turn::Rest(CpuId(cpu.saturating_add(mate))))?;
            }
        }
    }
    Ok(Plan {
        turns,
        rounds: 1,
        crew: Crew::One,
    })
}

/// Each CPU of a case goes idle and wakes, so many times.
pub(crate) fn pairs(alloc: Global, case: &Case, rounds: u32, crew: Crew) -> Result<Plan, NoMemory> {
    let mut turns = Vec::new(alloc);
    for cpu in case.cpus {
        turns.push(Turn::Rest(CpuId(cpu)))?;
        turns.push(Turn::Wake(CpuId(cpu)))?;
    }
    Ok(Plan {
        turns,
        rounds,
        crew,
    })
}

/// One thread, two, or four, with as many of a case's CPUs each.
pub(crate) fn crews(case: &Case) -> [(u32, Crew); 3] {
    let [_, second, third, fourth] = case.cpus;
    [
        (1, Crew::One),
        (2, Crew::Two(third)),
        (4, Crew::Four(second, third, fourth)),
    ]
}
