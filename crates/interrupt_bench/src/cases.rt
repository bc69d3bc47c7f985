//! What is timed: turns on the shared words.

use crate::machines::{CPUS, Load};
use std::alloc::Global;
use table_stress::{Act, Asked, Crew, Plan, Turn};
use tm_base::{Class, CpuId, NoMemory, TimerId};

/// A case: its name, what the CPUs have, what they do, every how many CPUs one takes part, and how
/// often it is its turn where that is timed.
pub(crate) struct Case {
    pub(crate) name: &'static str,
    pub(crate) load: Load,
    pub(crate) arms: bool,
    pub(crate) every: u16,
    pub(crate) rounds: u32,
}

/// Arming and cancelling on the own CPU; an interrupt that has nothing to do; one that drains 64
/// own timers; and one that runs 64 timers of an idle sibling. Those that take timers out of a
/// machine can be made once.
pub(crate) const CASES: [Case; 4] = [
    Case {
        name: "arm",
        load: Load::Nothing,
        arms: true,
        every: 16,
        rounds: 20_000,
    },
    Case {
        name: "none",
        load: Load::Nothing,
        arms: false,
        every: 16,
        rounds: 20_000,
    },
    Case {
        name: "own",
        load: Load::Own,
        arms: false,
        every: 1,
        rounds: 1,
    },
    Case {
        name: "sibling",
        load: Load::Sibling,
        arms: false,
        every: 8,
        rounds: 1,
    },
];

/// What a CPU does when it is its turn.
fn push_turns(turns: &mut Vec<Turn>, case: &Case, cpu: u16) -> Result<(), NoMemory> {
    let timer = TimerId(cpu);
    let cpu = CpuId(cpu);
    if case.arms {
        let act = Act::Arm(Asked {
            timer,
            class: Class::Global,
            delay: 1000,
            job: 0,
            arg: 0,
        });
        turns.push(Turn { cpu, act })?;
        let act = Act::Cancel { timer };
        turns.push(Turn { cpu, act })?;
    } else {
        let act = Act::Interrupt;
        turns.push(Turn { cpu, act })?;
    }
    Ok(())
}

/// The turns of a case, so many times.
pub(crate) fn plan(alloc: Global, case: &Case, rounds: u32, crew: Crew) -> Result<Plan, NoMemory> {
    let mut turns = Vec::new(alloc);
    for cpu in 0..u16::from(CPUS) {
        if cpu % case.every.max(1) == 0 {
            push_turns(&mut turns, case, cpu)?;
        }
    }
    Ok(Plan {
        turns,
        rounds,
        crew,
    })
}

/// One thread, two, and four, with as many CPUs each.
pub(crate) const CREWS: [(u32, Crew); 3] = [
    (1, Crew::One),
    (2, Crew::Two(32)),
    (4, Crew::Four(16, 32, 48)),
];
