use crate::{Seen, facts_of, no_base_behind, run_once, start, stir};
use shared_table::{Core, Ready};
use std::alloc::Global;
use std::test::*;
use std::thread::Threads;
use step_laws::is_settled;
use tm_base::{CpuId, CpuSet, NoMemory};
use wheel_base::WheelBase;

// Nodes, CPUs of each, one CPU that isn't in the hierarchy (0 for none), timers.
const MACHINES: [(u8, u8, u16, u16); 6] = [
    (1, 1, 0, 3),
    (1, 2, 0, 7),
    (1, 9, 4, 20),
    (2, 32, 40, 100),
    (1, 64, 9, 0),
    (8, 64, 100, 60),
];

// The core of a machine with all its timers queued and two of three CPUs idle.
fn stirred(alloc: Global, machine: (u8, u8, u16, u16)) -> Result<Core<WheelBase>, NoMemory> {
    let (nodes, cpus, alone, timers) = machine;
    let mut isolated = CpuSet::new();
    if 0 < alone && alone < 512 {
        isolated.add(CpuId(alone));
    }
    let mut core = start(alloc, nodes, cpus, &isolated, timers)?;
    stir(&mut core)?;
    Ok(core)
}

// What two threads saw in a run over this core, and the core; None where it isn't at rest.
fn ran<R: Threads + Sync>(
    rt: &R,
    alloc: Global,
    core: Core<WheelBase>,
) -> Result<Option<Seen>, NoMemory> {
    if !is_settled(&core) || !no_base_behind(&core) {
        return Ok(None);
    }
    Ok(Some(run_once(rt, alloc, core)?))
}

#[test]
fn a_run_that_only_loads_gives_back_the_core_as_it_was(rt: HostRuntime) -> Result<(), Fail> {
    for machine in MACHINES {
        let (nodes, cpus, _, timers) = machine;
        let before = facts_of(rt.alloc(), &stirred(rt.alloc(), machine)?)?;
        match ran(&rt, rt.alloc(), stirred(rt.alloc(), machine)?)? {
            Some(seen) => {
                let after = facts_of(rt.alloc(), &seen.core)?;
                assert!(rt;
                    before.as_slice() == after.as_slice(),
                    "{nodes} nodes of {cpus}"
                );
                let count = u64::from(nodes) * u64::from(cpus);
                let queued = u64::from(timers);
                assert_eq!(rt; seen.front, queued.wrapping_mul(count / 2));
                assert_eq!(rt; seen.back, queued.wrapping_mul(count - count / 2));
            },
            None => assert!(rt; false, "{nodes} nodes of {cpus} are not at rest"),
        }
    }
    Ok(())
}

// What a core says after a table was made of it and it was taken back; None where it isn't at rest.
fn taken_back(alloc: Global, core: Core<WheelBase>) -> Result<Option<Vec<u64>>, NoMemory> {
    if !is_settled(&core) || !no_base_behind(&core) {
        return Ok(None);
    }
    match Ready::prepare(alloc, core, 0) {
        Ok(ready) => Ok(Some(facts_of(alloc, &ready.into_core())?)),
        Err((_core, refused)) => Err(refused),
    }
}

#[test]
fn a_table_gives_back_the_core_of_which_it_was_made(rt: HostRuntime) -> Result<(), Fail> {
    for machine in MACHINES {
        let before = facts_of(rt.alloc(), &stirred(rt.alloc(), machine)?)?;
        match taken_back(rt.alloc(), stirred(rt.alloc(), machine)?)? {
            Some(after) => assert!(rt; before.as_slice() == after.as_slice()),
            None => assert!(rt; false, "not at rest"),
        }
    }
    Ok(())
}
