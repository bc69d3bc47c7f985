//! The same walks on a core that one lock guards.

use core_world::Step;
use std::sync::{Mutex, Wait};
use std::thread;
use std::thread::Threads;
use tm_base::CpuId;
use walk_rows::{Core, Crew, Plan, Turn, apply, enabled};
use wheel_base::WheelBase;

/// The most steps of a walk.
const STEPS: u32 = 200;

/// The number behind that of every CPU.
const END: u16 = u16::MAX;

/// Makes a step where it is enabled.
fn make(core: &mut Core<WheelBase>, step: Step) {
    if enabled(core, &step) {
        match apply(core, step) {
            Ok(()) => {}
            Err(_) => {}
        }
    }
}

/// Whether a CPU has a walk.
fn walks(core: &Core<WheelBase>, cpu: CpuId) -> bool {
    cpu.0 < core.count() && core.walk(cpu).is_some()
}

/// A step, and the walk that it begins up to its end.
fn walk(core: &mut Core<WheelBase>, step: Step, cpu: CpuId) {
    make(core, step);
    for _step in 0..STEPS {
        if !walks(core, cpu) {
            break;
        }
        make(core, Step::Walk { cpu });
    }
}

/// A CPU's turn, with the lock, where the CPU is one of those from `first` on and below `end`.
fn take_turn<R: Wait>(rt: &R, core: &Mutex<Core<WheelBase>>, turn: Turn, first: u16, end: u16) {
    let (cpu, step) = match turn {
        Turn::Rest(cpu) => (cpu, Step::Idle { cpu }),
        Turn::Wake(cpu) => (cpu, Step::Wake { cpu }),
    };
    if first <= cpu.0 && cpu.0 < end {
        walk(&mut *core.lock(rt), step, cpu);
    }
}

/// The turns of a plan that are of the CPUs from `first` on and below `end`.
fn take_all<R: Wait>(rt: &R, core: &Mutex<Core<WheelBase>>, plan: &Plan, first: u16, end: u16) {
    for _ in 0..plan.rounds {
        for turn in plan.turns.as_slice() {
            take_turn(rt, core, *turn, first, end);
        }
    }
}

/// Two threads, cut at a CPU.
fn take_by_two<R: Threads + Wait + Sync>(
    rt: &R,
    core: &Mutex<Core<WheelBase>>,
    plan: &Plan,
    first: u16,
    cut: u16,
    end: u16,
) {
    thread::join(
        rt,
        || take_all(rt, core, plan, first, cut),
        || take_all(rt, core, plan, cut, end),
    );
}

/// The threads of a plan.
pub(crate) fn take_locked<R: Threads + Wait + Sync>(
    rt: &R,
    core: &Mutex<Core<WheelBase>>,
    plan: &Plan,
) {
    match plan.crew {
        Crew::One => take_all(rt, core, plan, 0, END),
        Crew::Two(cut) => take_by_two(rt, core, plan, 0, cut, END),
        Crew::Four(low, middle, high) => {
            thread::join(
                rt,
                || take_by_two(rt, core, plan, 0, low, middle),
                || take_by_two(rt, core, plan, middle, high, END),
            );
        },
    }
}
