//! The program tmig: its words, standard input and standard output, the jobs of its scripts, and its
//! exit status.
#![tactic(auto)]

use job_table::StandardJobs;
use script_main::{NO_MEMORY, Status, run_program};
use std::alloc::AllocError;
use std::process::ExitCode;
use std::sync::Wait;
use std::thread::Threads;
use std::{env, io};
use tm_base::FreeGate;
use tm_io::{StdSink, StdSource};

/// The words after the program's name. Words that aren't UTF-8 are no command, and neither are no
/// words.
fn words(rt: &HostRuntime) -> Result<Vec<String>, AllocError> {
    match env::args(rt) {
        Ok(all) => all.skip(1).collect(rt.alloc()),
        Err(error) if error.kind() == io::ErrorKind::OutOfMemory => Err(AllocError),
        Err(_) => Ok(Vec::new(rt.alloc())),
    }
}

/// Runs the program with its jobs. `threads` gives the threads that `run` takes.
fn run<R: Threads + Wait + Sync>(rt: &HostRuntime, threads: &R) -> Result<Status, AllocError> {
    let words = words(rt)?;
    let mut source = StdSource::new(rt.reader());
    let mut sink = StdSink::new(io::writer(rt));
    Ok(run_program(
        threads,
        rt.alloc(),
        &words,
        &mut source,
        &mut sink,
        &StandardJobs,
        &FreeGate,
    ))
}

fn main(rt: HostRuntime) -> ExitCode {
    match run(&rt, &rt) {
        Ok(status) => ExitCode::from(status.0),
        Err(AllocError) => ExitCode::from(NO_MEMORY),
    }
}
