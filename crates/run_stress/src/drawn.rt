//! Scripts and orders of gates that are drawn by a seed and a number.

use crate::orders::Turns;
use std::alloc::{AllocError, Global};
use std::sync::atomic::AtomicU64;

/// The CPUs of each machine, which have a thread each.
const CPUS: u16 = 4;

/// The machines, as nodes and CPUs of each: one leaf, two, and four below one more level.
const MACHINES: [&str; 3] = [
    "nodes 1\ncpus 4\n",
    "nodes 2\ncpus 2\n",
    "nodes 4\ncpus 1\n",
];

/// How many timers there are.
pub(crate) const TIMERS: u16 = 6;

/// The moments of a script, and the most jiffies from one to the next.
const MOMENTS: u16 = 12;

const STRIDE: u16 = 9;

/// The turns of a gate, and what the numbers of schedules are spread by.
const TURNS: u16 = 600;

const SPREAD: u64 = 0x9e37_79b9_7f4a_7c15;

/// A script's text, and a gate at which the walks of its CPUs take turns.
#[derive(Drop)]
pub(crate) struct Schedule {
    pub(crate) script: Vec<u8>,
    pub(crate) gate: Turns,
}

/// A state from which numbers are drawn, by a linear congruence.
#[derive(Drop)]
struct Draws(u64);

impl Draws {
    /// The next number below this one; 0 if there is none.
    fn below(&mut self, bound: u16) -> u16 {
        self.0 = self
            .0
            .wrapping_mul(6_364_136_223_846_793_005)
            .wrapping_add(1_442_695_040_888_963_407);
        if bound == 0 {
            return 0;
        }
        ((self.0 >> 33) % u64::from(bound)) as u16
    }
}

/// Writes the operation of a CPU that is drawn.
fn write_operation(
    alloc: Global,
    draws: &mut Draws,
    cpu: u16,
    text: &mut Vec<u8>,
) -> Result<(), AllocError> {
    let timer = draws.below(TIMERS);
    let line = match draws.below(8) {
        0 | 1 | 2 => {
            let class = ["global", "global", "pinned", "deferrable"][usize::from(
                draws.below(4) % 4,
            )];
            let delay = draws.below(40);
            let job = draws.below(4);
            let arg = draws.below(30);
            format!(in alloc; "arm {cpu} {timer} {class} {delay} {job} {arg}\n")?
        },
        3 => format!(in alloc; "cancel {cpu} {timer}\n")?,
        4 | 5 => format!(in alloc; "idle {cpu}\n")?,
        _ => format!(in alloc; "wake {cpu}\n")?,
    };
    text.extend_from_slice(line.as_bytes())
}

/// Writes up to two operations of each CPU.
fn write_operations(
    alloc: Global,
    draws: &mut Draws,
    text: &mut Vec<u8>,
) -> Result<(), AllocError> {
    for cpu in 0..CPUS {
        for _ in 0..draws.below(3) {
            write_operation(alloc, draws, cpu, text)?;
        }
    }
    Ok(())
}

/// Writes that a CPU goes offline, or comes online.
fn write_hotplug(alloc: Global, draws: &mut Draws, text: &mut Vec<u8>) -> Result<(), AllocError> {
    let cpu = draws.below(CPUS);
    let word = if draws.below(2) == 0 {
        "offline"
    } else {
        "online"
    };
    let line = format!(in alloc; "{word} {cpu}\n")?;
    text.extend_from_slice(line.as_bytes())
}

/// The text of a script: one moment of six takes a CPU offline or online.
fn draw_script(alloc: Global, draws: &mut Draws) -> Result<Vec<u8>, AllocError> {
    let mut text = Vec::new(alloc);
    text.extend_from_slice(b"tmig 2\n")?;
    let machine = MACHINES[usize::from(draws.below(3) % 3)];
    text.extend_from_slice(machine.as_bytes())?;
    let line = format!(in alloc; "timers {TIMERS}\n")?;
    text.extend_from_slice(line.as_bytes())?;
    let apart = if draws.below(8) == 0 {
        "isolated 3\n"
    } else {
        "isolated\n"
    };
    text.extend_from_slice(apart.as_bytes())?;
    let mut at = 0u64;
    for _ in 0..MOMENTS {
        at = at.wrapping_add(1 + u64::from(draws.below(STRIDE)));
        let line = format!(in alloc; "at {at}\n")?;
        text.extend_from_slice(line.as_bytes())?;
        write_operations(alloc, draws, &mut text)?;
        if draws.below(6) == 0 {
            write_hotplug(alloc, draws, &mut text)?;
        }
    }
    let end = at.wrapping_add(u64::from(draws.below(40)));
    let line = format!(in alloc; "end {end}\n")?;
    text.extend_from_slice(line.as_bytes())?;
    Ok(text)
}

/// A gate for all CPUs, in an order that is drawn.
fn draw_gate(alloc: Global, draws: &mut Draws) -> Result<Turns, AllocError> {
    let mut order = Vec::new(alloc);
    for _ in 0..TURNS {
        order.push((draws.below(CPUS) % 256) as u8)?;
    }
    Ok(Turns {
        order,
        over: AtomicU64::new(0),
    })
}

/// The schedule of that number of a seed.
pub(crate) fn draw(alloc: Global, seed: u64, number: u64) -> Result<Schedule, AllocError> {
    let mut draws = Draws(seed ^ number.wrapping_mul(SPREAD));
    let script = draw_script(alloc, &mut draws)?;
    let gate = draw_gate(alloc, &mut draws)?;
    Ok(Schedule { script, gate })
}
