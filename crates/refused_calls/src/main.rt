//! Makes the calls that want memory, and makes each again where memory was wanting: what it left
//! has to be what it found, so that the second call does all. It is to be run with one allocation
//! refused (`rt try --fail-alloc N`, or `bench/refused_memory.sh`). The status is 0 where all came
//! to what it should, 5 where memory was wanting for what is made before the calls or beside them,
//! and 1 where a call left something else. It writes nothing.
#![tactic(auto)]

mod calls;
mod cores;

use crate::calls::run_calls;
use crate::cores::{likeness, machine, script};
use core_world::Step;
use shared_rows::{Core, StepsFault, is_settled, no_base_behind, run_steps};
use std::alloc::Global;
use std::process::ExitCode;
use std::sync::Wait;
use tm_base::NoMemory;
use wheel_base::WheelBase;

/// Makes steps for which memory should be enough by now. False where one isn't enabled.
fn made(core: &mut Core<WheelBase>, steps: &[Step]) -> Result<bool, NoMemory> {
    match run_steps(core, steps) {
        Ok(()) => Ok(true),
        Err(StepsFault::NoMemory { index: _ }) => Err(NoMemory),
        Err(StepsFault::NotEnabled { index: _ }) => Ok(false),
    }
}

/// Makes the steps; where memory was wanting for one, looks whether the core stands before that
/// one, and makes the rest. False where it doesn't, or where the core at the end isn't as it should
/// be.
fn steps_again(alloc: Global, core: &mut Core<WheelBase>) -> Result<bool, NoMemory> {
    let steps = script(alloc)?;
    let mut right = true;
    if let Err(fault) = run_steps(core, steps.as_slice()) {
        let StepsFault::NoMemory { index } = fault else {
            return Ok(false);
        };
        if index > steps.len() {
            return Ok(false);
        }
        let (front, rest) = steps.as_slice().split_at(index);
        let mut other = machine(alloc)?;
        right = made(&mut other, front)? && likeness(&other) == likeness(core);
        right = made(core, rest)? && right;
    }
    let mut other = machine(alloc)?;
    Ok(made(&mut other, steps.as_slice())? && likeness(&other) == likeness(core) && right)
}

/// The calls, one after the other.
fn all_calls<R: Wait>(rt: &R, alloc: Global) -> Result<bool, NoMemory> {
    let mut core = machine(alloc)?;
    if !steps_again(alloc, &mut core)? {
        return Ok(false);
    }
    if !is_settled(&core) || !no_base_behind(&core) {
        return Ok(false);
    }
    run_calls(rt, alloc, core)
}

fn main(rt: HostRuntime) -> ExitCode {
    match all_calls(&rt, rt.alloc()) {
        Ok(true) => ExitCode::from(0),
        Ok(false) => ExitCode::from(1),
        Err(NoMemory) => ExitCode::from(5),
    }
}
