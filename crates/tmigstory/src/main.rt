//! The program tmigstory: its words, standard input and standard output, and its exit status.
#![tactic(auto)]

use std::alloc::AllocError;
use std::process::ExitCode;
use std::{env, io};
use tm_io::{StdSink, StdSource};
use view_story::{NO_MEMORY, run_story};

/// The words after the program's name. Words that aren't UTF-8 are no command, and neither are no
/// words.
fn words(rt: &HostRuntime) -> Result<Vec<String>, AllocError> {
    match env::args(rt) {
        Ok(all) => all.skip(1).collect(rt.alloc()),
        Err(error) if error.kind() == io::ErrorKind::OutOfMemory => Err(AllocError),
        Err(_) => Ok(Vec::new(rt.alloc())),
    }
}

/// Runs the program.
fn run(rt: &HostRuntime) -> Result<u8, AllocError> {
    let alloc = rt.alloc();
    let words = words(rt)?;
    let mut source = StdSource::new(rt.reader());
    let mut sink = StdSink::new(io::writer(rt));
    Ok(run_story(alloc, &words, &mut source, &mut sink))
}

fn main(rt: HostRuntime) -> ExitCode {
    match run(&rt) {
        Ok(status) => ExitCode::from(status),
        Err(AllocError) => ExitCode::from(NO_MEMORY),
    }
}
