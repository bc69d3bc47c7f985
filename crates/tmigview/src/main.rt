//! The program tmigview: its words, files or standard input, standard output, and its exit status.
#![tactic(auto)]

use linux_view::{READ_FAULT, WRITE_FAULT};
use orders_view::run_orders;
use std::alloc::AllocError;
use std::io::Read;
use std::process::ExitCode;
use std::{env, fs, io};
use tm_io::{StdSink, StdSource};
use view_main::{NO_MEMORY, is_pair, run_pair, run_views};

/// The words after the program's name. Words that aren't UTF-8 are no command, and neither are no
/// words.
fn words(rt: &HostRuntime) -> Result<Vec<String>, AllocError> {
    match env::args(rt) {
        Ok(all) => all.skip(1).collect(rt.alloc()),
        Err(error) if error.kind() == io::ErrorKind::OutOfMemory => Err(AllocError),
        Err(_) => Ok(Vec::new(rt.alloc())),
    }
}

/// Whether a word takes the next one for its value.
fn takes_value(word: &str) -> bool {
    ["--from", "--to", "--cpus", "--rule", "--show", "--states"].contains(&word)
}

/// Whether the words are those of a case's orders.
fn is_orders(words: &[String]) -> bool {
    match words {
        [command, ..] => command.as_str() == "orders",
        [] => false,
    }
}

/// Where the last word stands that names a file: behind the command, no option, and no option's
/// value.
fn file_in(words: &[String]) -> Option<usize> {
    let mut found = None;
    let mut is_value = true;
    for (at, word) in words.iter().enumerate() {
        let word = word.as_str();
        if !is_value && !word.starts_with("--") {
            found = Some(at);
        }
        is_value = takes_value(word);
    }
    found
}

/// Runs the program on what a reader gives.
fn run_on<R: Read + Drop>(rt: &HostRuntime, words: &[String], reader: R) -> u8 {
    let mut source = StdSource::new(reader);
    let mut sink = StdSink::new(io::writer(rt));
    if is_orders(words) {
        return run_orders(rt.alloc(), words, &mut source, &mut sink);
    }
    run_views(rt.alloc(), words, &mut source, &mut sink)
}

/// Runs the program on what two readers give.
fn run_two<R: Read + Drop>(rt: &HostRuntime, first: R, second: R) -> u8 {
    let mut first = StdSource::new(first);
    let mut second = StdSource::new(second);
    let mut sink = StdSink::new(io::writer(rt));
    run_pair(rt.alloc(), &mut first, &mut second, &mut sink)
}

/// Says that a file can't be read.
fn refuse(rt: &HostRuntime, file: &str) -> u8 {
    match println!(rt; "tmigview: {file} could not be read") {
        Ok(()) => READ_FAULT,
        Err(_) => WRITE_FAULT,
    }
}

/// Runs the program on two files.
fn run_on_two(rt: &HostRuntime, first: &str, second: &str) -> u8 {
    let Ok(one) = fs::open(rt, first) else {
        return refuse(rt, first);
    };
    let Ok(two) = fs::open(rt, second) else {
        return refuse(rt, second);
    };
    run_two(rt, one, two)
}

/// Runs the program: on two files where its words are `stat` and two names, on the file that they
/// name, else on standard input.
fn run(rt: &HostRuntime) -> Result<u8, AllocError> {
    let mut words = words(rt)?;
    if let [_, first, second] = words.as_slice() {
        if is_pair(&words) {
            return Ok(run_on_two(rt, first.as_str(), second.as_str()));
        }
    }
    let Some(at) = file_in(&words) else {
        return Ok(run_on(rt, &words, rt.reader()));
    };
    if at >= words.len() {
        return Ok(run_on(rt, &words, rt.reader()));
    }
    let file = words.remove(at);
    match fs::open(rt, file.as_str()) {
        Ok(reader) => Ok(run_on(rt, &words, reader)),
        Err(_) => Ok(refuse(rt, file.as_str())),
    }
}

fn main(rt: HostRuntime) -> ExitCode {
    match run(&rt) {
        Ok(status) => ExitCode::from(status),
        Err(AllocError) => ExitCode::from(NO_MEMORY),
    }
}
