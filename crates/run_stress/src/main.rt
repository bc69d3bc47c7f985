//! Runs scripts that are drawn, with threads for four CPUs whose walks take turns in orders that
//! are drawn too, by the program, from bytes to bytes, and judges each report.
//!
//! With no words it runs the first few schedules of one seed, and writes how many: `runs N`. `SEED`
//! draws one schedule after another for a minute, and writes the same. Where one fails it writes
//! why, the seed and the schedule's number, its script, and the order of its gate, and ends with
//! status 1. `SEED NUMBER` runs that schedule again, over and over for a minute.
#![tactic(auto)]

mod drawn;
mod judged;
mod orders;

use crate::drawn::{Schedule, draw};
use crate::judged::{Flaw, judge};
use job_table::StandardJobs;
use script_main::{DONE, SCRIPT_REFUSED, run_program};
use std::alloc::{AllocError, Global};
use std::sync::Wait;
use std::thread::Threads;
use std::time::{Clock, Instant};
use std::{env, io};
use tm_io::{PlainSink, PlainSource};

/// How long schedules are run, in seconds.
const SECONDS: u64 = 60;

/// The most schedules of one call.
const MOST: u64 = 1_000_000_000;

/// The seed of the schedules that are run where no words are given.
const SEED: u64 = 1;

/// How many of them are run there.
const FEW: u64 = 20;

/// Runs a schedule as the program does it, from the word `run` and the bytes of the script to the
/// bytes of the report, and looks what is wrong with them.
fn run_one<R: Threads + Wait + Sync>(
    rt: &R,
    alloc: Global,
    schedule: &Schedule,
) -> Result<Option<Flaw>, AllocError> {
    let mut words = Vec::new(alloc);
    words.push(String::from_str(alloc, "run")?)?;
    let mut source = PlainSource::new(schedule.script.as_slice().to_vec(alloc)?);
    let mut sink = PlainSink::new(alloc);
    let gate = &schedule.gate;
    let status = run_program(
        rt,
        alloc,
        &words,
        &mut source,
        &mut sink,
        &StandardJobs,
        gate,
    );
    match status.0 {
        DONE => judge(alloc, sink.held()),
        SCRIPT_REFUSED => Ok(Some(Flaw::NoScript)),
        _ => Ok(Some(Flaw::BrokenOff)),
    }
}

/// How a call ended: after how many schedules, and with which of them and why, if one failed.
#[derive(Drop)]
struct Outcome {
    runs: u64,
    failed: Option<(u64, Schedule, Flaw)>,
}

/// Runs schedules of a seed until there were so many, a minute is over or one fails: this one over
/// and over, or else one after another from the first on.
fn run_all<R: Threads + Wait + Sync + Clock>(
    rt: &R,
    alloc: Global,
    seed: u64,
    one: Option<u64>,
    most: u64,
) -> anyhow::Result<Outcome> {
    let from = Instant::now(rt)?;
    for runs in 0..most {
        let number = match one {
            Some(number) => number,
            None => runs,
        };
        let schedule = draw(alloc, seed, number)?;
        if let Some(flaw) = run_one(rt, alloc, &schedule)? {
            return Ok(Outcome {
                runs,
                failed: Some((number, schedule, flaw)),
            });
        }
        if from.elapsed(rt)?.as_secs() >= SECONDS {
            return Ok(Outcome {
                runs: runs + 1,
                failed: None,
            });
        }
    }
    Ok(Outcome {
        runs: most,
        failed: None,
    })
}

/// The words after the program's name, which are numbers.
fn numbers(rt: &HostRuntime) -> anyhow::Result<Vec<u64>> {
    let mut numbers = Vec::new(rt.alloc());
    for word in env::args(rt)?.skip(1) {
        match word.parse::<u64>() {
            Ok(number) => numbers.push(number)?,
            Err(_) => anyhow::bail!("a word is no number"),
        }
    }
    Ok(numbers)
}

fn main(rt: HostRuntime) -> anyhow::Result<()> {
    let words = numbers(&rt)?;
    let (seed, one, most) = match words.as_slice() {
        [] => (SEED, None, FEW),
        [seed] => (*seed, None, MOST),
        [seed, number] => (*seed, Some(*number), MOST),
        _ => anyhow::bail!("usage: run_stress [SEED [NUMBER]]"),
    };
    let Outcome { runs, failed } = run_all(&rt, rt.alloc(), seed, one, most)?;
    println!(&rt; "runs {runs}")?;
    if let Some((number, schedule, flaw)) = failed {
        println!(&rt; "seed {seed} schedule {number}: {flaw:?}")?;
        io::Write::write_all(&mut io::writer(&rt), schedule.script.as_slice())?;
        println!(&rt; "order of the gate: {:?}", schedule.gate.order)?;
        anyhow::bail!("a schedule failed");
    }
    Ok(())
}
