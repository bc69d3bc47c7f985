use crate::rows::{Row, further_rows, rows, rows_of_one_story};
use job_table::StandardJobs;
use script_main::*;
use std::alloc::{AllocError, Global};
use std::sync::Wait;
use std::test::Fail;
use std::thread::Threads;
use tm_base::{FreeGate, MOST_BYTES};
use tm_io::{FullSink, MemorySink, MemorySource, PlainSink, PlainSource, Sink, Source};

// The first of the worked rows.
const PLAIN: &[u8] = b"tmig 1\nnodes 1\ncpus 1\ntimers 1\nat 10\narm 0 0 global 50 0 0\nend 100\n";

// What it comes to.
const OUTPUT: &[u8] = b"arm 10 0 0 global 61\nrun 61 0 0 0 61 done\nend 100\n";

// The words of a line.
fn split(alloc: Global, line: &str) -> Result<Vec<String>, AllocError> {
    let mut words = Vec::new(alloc);
    for word in line.split(' ') {
        words.push(String::from_str(alloc, word)?)?;
    }
    Ok(words)
}

// Runs the program on the words of a line.
fn ended<S: Source, K: Sink, R: Threads + Wait + Sync>(
    rt: &R,
    alloc: Global,
    line: &str,
    source: &mut S,
    sink: &mut K,
) -> Result<Status, AllocError> {
    let words = split(alloc, line)?;
    Ok(run_program(rt, alloc, &words, source, sink, &StandardJobs, &FreeGate))
}

// The status and the text that words and an input come to, where no end fails.
fn come_to<R: Threads + Wait + Sync>(
    rt: &R,
    alloc: Global,
    line: &str,
    input: &[u8],
) -> Result<(Status, Vec<u8>), AllocError> {
    let mut source = PlainSource::new(input.to_vec(alloc)?);
    let mut sink = PlainSink::new(alloc);
    let status = ended(rt, alloc, line, &mut source, &mut sink)?;
    Ok((status, sink.held().to_vec(alloc)?))
}

// Whether a row comes to its status and text.
fn holds<R: Threads + Wait + Sync>(rt: &R, alloc: Global, row: &Row) -> Result<bool, AllocError> {
    let (status, text) = come_to(rt, alloc, row.words, row.input)?;
    Ok(status.0 == row.status && text.as_slice() == row.text)
}

#[test]
fn each_worked_row_comes_to_its_status_and_text(rt: HostRuntime) -> Result<(), Fail> {
    for (i, row) in rows().iter().enumerate() {
        let holds = holds(&rt, rt.alloc(), row)?;
        assert!(rt; holds, "row {i}");
    }
    Ok(())
}

#[test]
fn each_row_of_one_story_comes_to_the_same_played_and_run(rt: HostRuntime) -> Result<(), Fail> {
    for (i, row) in rows_of_one_story().iter().enumerate() {
        let played = holds(&rt, rt.alloc(), row)?;
        assert!(rt; played, "row {i}");
        let row = Row {
            words: "run",
            ..*row
        };
        let ran = holds(&rt, rt.alloc(), &row)?;
        assert!(rt; ran, "row {i} by threads");
    }
    Ok(())
}

#[test]
fn each_row_of_traces_devices_and_works_comes_to_its_status_and_text(
    rt: HostRuntime,
) -> Result<(), Fail> {
    for (i, row) in further_rows().iter().enumerate() {
        let holds = holds(&rt, rt.alloc(), row)?;
        assert!(rt; holds, "row {i}");
    }
    Ok(())
}

// The script was made by another program from the rule of generated scripts in docs/FORMATS.md. The
// day's numbers are by hand: CPU 0 stays active, so each jiffy is a moment; CPU 1 goes idle at 1,
// and what it is to do at 5 and 10 is refused.
#[test]
fn a_generated_script_is_written_and_its_day_is_summed_up(rt: HostRuntime) -> Result<(), Fail> {
    let (status, text) = come_to(&rt, rt.alloc(), "generate 5 2 1 2", b"")?;
    assert_eq!(rt; status, Status(DONE));
    let script = b"tmig 1\nnodes 1\ncpus 2\ntimers 1\nat 0\narm 0 0 pinned 433 2 84\nat 1\nidle 1\n\
      at 5\nidle 1\nat 10\ncancel 1 0\nend 15\n";
    assert_eq!(rt; text.as_slice(), script.as_slice());

    let (status, text) = come_to(&rt, rt.alloc(), "day 5 2 1 2", b"")?;
    assert_eq!(rt; status, Status(DONE));
    let day = b"moments 16\nruns 0\nremote 0\narmed 1\ncancels 0\nidles 1\nstays 0\nwakes 0\n\
      refused 2\nleft 1\nend 15\n";
    assert_eq!(rt; text.as_slice(), day.as_slice());
    Ok(())
}

#[test]
fn one_byte_too_many_is_too_long(rt: HostRuntime) -> Result<(), Fail> {
    let alloc = rt.alloc();
    let mut source = PlainSource::new(vec![in alloc; 0; MOST_BYTES + 1]?);
    let mut sink = PlainSink::new(alloc);
    let status = ended(&rt, alloc, "play", &mut source, &mut sink)?;
    assert_eq!(rt; status, Status(TOO_LONG));
    assert_eq!(rt; sink.held(), b"input too long\n".as_slice());
    Ok(())
}

// The first row's 67 bytes come by 16 a call: the fifth call gives the last 3, and the sixth none.
#[test]
fn a_source_that_fails_is_a_read_fault(rt: HostRuntime) -> Result<(), Fail> {
    let alloc = rt.alloc();
    for call in 1..=6u32 {
        let mut source = MemorySource::new(PLAIN.to_vec(alloc)?, 16, vec![in alloc; call]?);
        let mut sink = PlainSink::new(alloc);
        let status = ended(&rt, alloc, "play", &mut source, &mut sink)?;
        assert!(rt; status == Status(READ_FAULT), "at call {call}");
        assert!(rt; sink.held() == b"read fault\n".as_slice(), "at call {call}");
    }
    let mut source = MemorySource::new(PLAIN.to_vec(alloc)?, 16, vec![in alloc; 7]?);
    let mut sink = PlainSink::new(alloc);
    let status = ended(&rt, alloc, "play", &mut source, &mut sink)?;
    assert_eq!(rt; status, Status(DONE));
    assert_eq!(rt; sink.held(), OUTPUT);
    Ok(())
}

// Its 50 bytes are taken by 16 a call. A sink that is full takes nothing of a piece.
#[test]
fn a_sink_that_fails_or_is_full_is_a_write_fault(rt: HostRuntime) -> Result<(), Fail> {
    let alloc = rt.alloc();
    for (call, written) in [(1u32, 0), (2, 16), (3, 32), (4, 48)] {
        let mut source = PlainSource::new(PLAIN.to_vec(alloc)?);
        let mut failing = MemorySink::new(alloc, 16, vec![in alloc; call]?);
        let status = ended(&rt, alloc, "play", &mut source, &mut failing)?;
        assert!(rt; status == Status(WRITE_FAULT), "at call {call}");
        assert!(rt; failing.held() == &OUTPUT[..written], "at call {call}");
    }
    let mut source = PlainSource::new(PLAIN.to_vec(alloc)?);
    let mut once_more = MemorySink::new(alloc, 16, vec![in alloc; 5]?);
    let status = ended(&rt, alloc, "play", &mut source, &mut once_more)?;
    assert_eq!(rt; status, Status(DONE));
    assert_eq!(rt; once_more.held(), OUTPUT);

    let mut source = PlainSource::new(PLAIN.to_vec(alloc)?);
    let mut full = FullSink::new(alloc, 20);
    let status = ended(&rt, alloc, "play", &mut source, &mut full)?;
    assert_eq!(rt; status, Status(WRITE_FAULT));
    assert_eq!(rt; full.held(), b"arm 10 0 0 global 61".as_slice());
    Ok(())
}

// The words are judged before anything is written.
#[test]
fn words_of_no_command_are_told_though_the_sink_fails(rt: HostRuntime) -> Result<(), Fail> {
    let alloc = rt.alloc();
    let mut source = PlainSource::new(PLAIN.to_vec(alloc)?);
    let mut failing = MemorySink::new(alloc, 16, vec![in alloc; 1]?);
    let status = ended(&rt, alloc, "paly", &mut source, &mut failing)?;
    assert_eq!(rt; status, Status(USAGE));
    assert_eq!(rt; failing.held(), b"".as_slice());
    Ok(())
}

#[test]
fn an_earlier_cause_stays_where_the_sink_is_full(rt: HostRuntime) -> Result<(), Fail> {
    let alloc = rt.alloc();
    let mut source = PlainSource::new(Vec::new(alloc));
    let mut full = FullSink::new(alloc, 6);
    let status = ended(&rt, alloc, "play", &mut source, &mut full)?;
    assert_eq!(rt; status, Status(SCRIPT_REFUSED));
    assert_eq!(rt; full.held(), b"script".as_slice());
    Ok(())
}
