//! Times the core. With no words it does nothing; with any word it draws a list of steps for each
//! of some machines, each enabled where it stands, makes them on a core at its start, and writes a
//! line for each round: `Core CPUS STEPS NANOSECONDS`.
#![tactic(auto)]

mod drawing;
mod machines;

use crate::drawing::draw_steps;
use crate::machines::start;
use std::env;
use std::time::Instant;
use step_laws::run_steps;
use tm_base::NoMemory;

/// The rounds of each machine.
const ROUNDS: u32 = 5;

/// How many steps a list has.
const STEPS: u32 = 1_000_000;

/// How many timers a machine has.
const TIMERS: u16 = 1024;

/// The fault of a machine for which memory is wanting.
fn no_memory(_: NoMemory) -> anyhow::Error {
    anyhow::anyhow!("memory")
}

/// Makes the list on cores at their start, and writes how long that took.
fn measure(rt: &HostRuntime, nodes: u8, cpus: u8) -> anyhow::Result<()> {
    let mut drawn = start(rt.alloc(), nodes, cpus, TIMERS).map_err(no_memory)?;
    let steps = draw_steps(rt.alloc(), &mut drawn, STEPS).map_err(no_memory)?;
    let count = drawn.count();
    for _ in 0..ROUNDS {
        let mut core = start(rt.alloc(), nodes, cpus, TIMERS).map_err(no_memory)?;
        let from = Instant::now(rt)?;
        let made = run_steps(&mut core, steps.as_slice());
        let nanos = from.elapsed(rt)?.as_nanos();
        if made.is_err() {
            anyhow::bail!("a list wasn't made whole");
        }
        let size = steps.len();
        println!(rt; "Core {count} {size} {nanos}")?;
    }
    Ok(())
}

fn main(rt: HostRuntime) -> anyhow::Result<()> {
    if env::args(&rt)?.count() < 2 {
        return Ok(());
    }
    measure(&rt, 1, 8)?;
    measure(&rt, 8, 8)?;
    measure(&rt, 8, 64)
}
