//! Lists of turns, drawn by a seed.

use crate::gates::Order;
use crate::runs::Crew;
use crate::turns::{Act, Asked, Turn};
use std::alloc::Global;
use std::sync::atomic::AtomicU64;
use tm_base::{Class, CpuId, NoMemory, TimerId};

/// The CPUs of a machine: a leaf of eight and one of four.
pub const CPUS: u16 = 12;

/// The timers of a machine, few enough that CPUs meet at one.
pub const TIMERS: u16 = 10;

/// How many jobs there are.
const JOBS: u8 = 5;

/// The longest delay that is drawn, in jiffies.
const LONGEST: u16 = 60;

/// How many places the order of a gate has.
const PLACES: u16 = 96;

/// A state from which numbers are drawn, by a linear congruence.
#[derive(Clone, Copy, Debug, PartialEq, Eq)]
pub struct Draws(pub u64);

impl Draws {
    /// The next number below this one; 0 if there is none.
    pub fn below(&mut self, bound: u16) -> u16 {
        self.0 = self
            .0
            .wrapping_mul(6_364_136_223_846_793_005)
            .wrapping_add(1_442_695_040_888_963_407);
        if bound == 0 {
            return 0;
        }
        ((self.0 >> 33) % u64::from(bound)) as u16
    }
}

/// A class: global as often as the others together.
fn drawn_class(draws: &mut Draws) -> Class {
    match draws.below(4) {
        0 => Class::Pinned,
        1 => Class::Deferrable,
        _ => Class::Global,
    }
}

/// An arming.
fn drawn_arming(draws: &mut Draws) -> Act {
    Act::Arm(Asked {
        timer: TimerId(draws.below(TIMERS)),
        class: drawn_class(draws),
        delay: u32::from(draws.below(LONGEST)),
        job: (draws.below(u16::from(JOBS)) % 256) as u8,
        arg: u32::from(draws.below(LONGEST)),
    })
}

/// What a CPU is to do.
fn drawn_act(draws: &mut Draws) -> Act {
    match draws.below(16) {
        0..=4 => drawn_arming(draws),
        5..=6 => Act::Cancel {
            timer: TimerId(draws.below(TIMERS)),
        },
        7..=10 => Act::Rest,
        11..=13 => Act::Wake,
        _ => Act::Interrupt,
    }
}

/// So many turns of whatever CPUs.
pub fn drawn_turns(alloc: Global, draws: &mut Draws, count: u16) -> Result<Vec<Turn>, NoMemory> {
    let mut turns = Vec::new(alloc);
    for _turn in 0..count {
        turns.push(Turn {
            cpu: CpuId(draws.below(CPUS)),
            act: drawn_act(draws),
        })?;
    }
    Ok(turns)
}

/// The first CPUs of the second, third and fourth of four threads, each of which has some.
pub fn drawn_cuts(draws: &mut Draws) -> (u16, u16, u16) {
    (
        1 + draws.below(3) % 3,
        4 + draws.below(3) % 3,
        7 + draws.below(4) % 4,
    )
}

/// Which of four threads a CPU is of, by where they are cut.
fn thread_of(cuts: (u16, u16, u16), cpu: u16) -> u8 {
    let (low, middle, high) = cuts;
    if cpu < low {
        0
    } else if cpu < middle {
        1
    } else if cpu < high {
        2
    } else {
        3
    }
}

/// A gate at which the threads take turns in an order that is drawn.
pub fn drawn_gate(
    alloc: Global,
    draws: &mut Draws,
    cuts: (u16, u16, u16),
) -> Result<Order, NoMemory> {
    let mut threads = Vec::new(alloc);
    for cpu in 0..CPUS {
        threads.push(thread_of(cuts, cpu))?;
    }
    let mut order = Vec::new(alloc);
    for _place in 0..PLACES {
        order.push((draws.below(4) % 256) as u8)?;
    }
    Ok(Order {
        threads,
        order,
        over: AtomicU64::new(0),
    })
}

/// The threads that are cut there.
pub fn drawn_crew(cuts: (u16, u16, u16)) -> Crew {
    let (low, middle, high) = cuts;
    Crew::Four(low, middle, high)
}
